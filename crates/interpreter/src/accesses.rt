ghost use Rattle.std.specs.Prelude.{◌≡◌, ◌+◌, ◌∷◌, [], OnOk, option_map};
ghost use Rattle.meaning.specs.Store.{part};
ghost use Rattle.meaning.specs.Meaning.{OfPlace};
ghost use Rattle.interpreter_state.specs.Views.{place_seen};
ghost use Rattle.interpreter.specs.Pending.{RunDoes, accessing, below_top, keeping, operands_of, resumed, selecting};
ghost use Rattle.interpreter.specs.Pending.{top_place};
ghost use Rattle.interpreter.specs.Size.{Adds, Lightens, size_of, size_of_selectors};

use crate::interpreter::{Progress, Run};
use interpreter_state::ordinals::{tested_index, value_in};
use interpreter_state::rows::row_of;
use interpreter_state::{Operand, Place, Work, part, put};
use meaning::{Ending, Value};
use std::alloc::AllocError;
use typed_tree::{Access, Expr, RangeTest, Selector, Whole};
use types::{OrdinalRange, Step, TypeId};

// The steps of accesses and of whole values.
impl<'t> Run<'t, '_> {
    // Accesses a variable or a component of it, and then does work with its place.
    pub(crate) fn access(
        &mut self,
        access: &'t Access,
        indexes: &'t [Expr],
        later: Work<'t>,
    ) -> Progress
        ensures size { Adds (2 + size_of later.entry + size_of_selectors access.now.selectors.items indexes.now)
            self.old result self.new }
        ensures does { RunDoes (λ env. accessing env access.now indexes.now later.entry) self.old result self.new }
    {
        let place = self.start(access)?;
        self.push(Operand::Place(place))?;
        let select = Work::Select {
            selectors: &access.selectors,
            indexes,
        };
        self.plan(select, later)
    }

    pub(crate) fn select(&mut self, selectors: &'t [Selector], indexes: &'t [Expr]) -> Progress
        ensures fewer { Lightens (Work.Select selectors.entry indexes.entry) self.old result self.new }
        ensures does { RunDoes (λ env. resumed env (Work.Select selectors.entry indexes.entry)) self.old result
            self.new }
    {
        match selectors.split_first() {
            Some((Selector::Field { position, .. }, rest)) => {
                self.extend(Step::Field(*position))?;
                self.do_next(Work::Select {
                    selectors: rest,
                    indexes,
                })
            }
            Some((Selector::Element { fits, .. }, rest)) => self.element(*fits, rest, indexes),
            None => Ok(None),
        }
    }

    // An element, and then the rest of the selectors.
    fn element(&mut self, fits: RangeTest, rest: &'t [Selector], indexes: &'t [Expr]) -> Progress
        ensures size { Adds (1 + size_of_selectors rest.now indexes.now) self.old result self.new }
        ensures does { RunDoes (λ env. selecting env (Selector.Element fits 0 ∷ rest.now) indexes.now)
            self.old result self.new }
    {
        match indexes.split_first() {
            Some((index, others)) => {
                put(
                    &mut self.pending,
                    Work::Select {
                        selectors: rest,
                        indexes: others,
                    },
                )?;
                self.plan(Work::Value(index), Work::Index(fits))
            }
            None => {
                let _place = self.popped_place();
                self.push(Operand::Place(None))?;
                Ok(None)
            }
        }
    }

    // Tests the topmost value as an index, and goes on to the element at it.
    pub(crate) fn index(&mut self, fits: RangeTest) -> Progress
        ensures fewer { Lightens (Work.Index fits) self.old result self.new }
        ensures does { RunDoes (λ env. resumed env (Work.Index fits)) self.old result self.new }
    {
        let index = self.popped();
        match tested_index(fits, index) {
            Ok(number) => {
                self.extend(Step::Element(number))?;
                Ok(None)
            }
            Err(site) => Ok(Some(Ending::Error(site))),
        }
    }

    // Goes on from the topmost place to a component of it.
    fn extend(&mut self, step: Step) -> Result<(), AllocError>
        ensures same { self.new ≡ record self.old { operands = self.new.operands } }
        ensures top { OnOk result (operands_of self.new
            ≡ OfPlace (part (top_place (operands_of self.old)) (step ∷ [])) ∷ below_top (operands_of self.old)) }
    {
        let place = part(self.popped_place(), step)?;
        self.push(Operand::Place(place))
    }

    pub(crate) fn fetch(&mut self, defined: u32) -> Progress
        ensures fewer { Lightens (Work.Fetch defined) self.old result self.new }
        ensures does { RunDoes (λ env. resumed env (Work.Fetch defined)) self.old result self.new }
    {
        let place = self.popped_place();
        let value = self.found(&place);
        self.go_on(value.ok_or(defined))
    }

    pub(crate) fn store(&mut self, fits: RangeTest) -> Progress
        ensures fewer { Lightens (Work.Store fits) self.old result self.new }
        ensures does { RunDoes (λ env. resumed env (Work.Store fits)) self.old result self.new }
    {
        let value = self.popped();
        let place = self.popped_place();
        self.keep_within(place, value, fits.range, Ending::Error(fits.site))
    }

    // Keeps a value at a place if it lies in a range; else the run ends so.
    pub(crate) fn keep_within(
        &mut self,
        place: Option<Place>,
        value: Value,
        range: OrdinalRange,
        ending: Ending,
    ) -> Progress
        ensures size { Adds 0 self.old result self.new }
        ensures does { RunDoes (λ env. keeping (option_map place_seen place) value range ending) self.old result
            self.new }
    {
        match value_in(range, value) {
            Some(value) => {
                self.keep(place, value)?;
                Ok(None)
            }
            None => Ok(Some(ending)),
        }
    }

    pub(crate) fn whole(&mut self, value: &'t Whole, indexes: &'t [Expr]) -> Progress
        ensures fewer { Lightens (Work.Whole value.entry indexes.entry) self.old result self.new }
        ensures does { RunDoes (λ env. resumed env (Work.Whole value.entry indexes.entry)) self.old result self.new }
    {
        match value {
            Whole::Text { characters, .. } => {
                let row = row_of(self.alloc, characters)?;
                self.push(Operand::Row(row))?;
                Ok(None)
            }
            Whole::Variable {
                access,
                type_id,
                defined,
                ..
            } => self.access(
                access,
                indexes,
                Work::FetchRow {
                    type_id: *type_id,
                    defined: *defined,
                },
            ),
        }
    }

    pub(crate) fn fetch_row(&mut self, type_id: TypeId, defined: u32) -> Progress
        ensures fewer { Lightens (Work.FetchRow type_id defined) self.old result self.new }
        ensures does { RunDoes (λ env. resumed env (Work.FetchRow type_id defined)) self.old result self.new }
    {
        let place = self.popped_place();
        match self.row(&place, type_id)? {
            Some(row) => {
                self.push(Operand::Row(row))?;
                Ok(None)
            }
            None => Ok(Some(Ending::Error(defined))),
        }
    }

    pub(crate) fn store_row(&mut self, type_id: TypeId) -> Progress
        ensures fewer { Lightens (Work.StoreRow type_id) self.old result self.new }
        ensures does { RunDoes (λ env. resumed env (Work.StoreRow type_id)) self.old result self.new }
    {
        let row = self.popped_row();
        let place = self.popped_place();
        self.keep_row(&place, type_id, &row)?;
        Ok(None)
    }
}
