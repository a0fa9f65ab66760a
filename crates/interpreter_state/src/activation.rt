ghost use Rattle.std.specs.Prelude.{◌≡◌, [], ◌∷◌, ◌++◌, ◌-◌, IfOk, List, None, OnOk, Option, filter, map, option_map};
ghost use Rattle.std.specs.Prelude.{slice_get};
ghost use Rattle.typed_tree.specs.Accesses.{origin_of};
ghost use Rattle.typed_tree.specs.WellFormed.{is_one_of};
ghost use Rattle.interpreter_state.specs.Views.{declared_in, home_in, operand_seen, pairs_passed, passed_at, place_of};
ghost use Rattle.meaning.specs.Meaning.{place_at};
ghost use Rattle.meaning.specs.Store.{Place as MeantPlace};
ghost use Rattle.interpreter_state.specs.Views.{place_seen, records_in, reference_seen, seen_as, start_of, visible_in};

use crate::{Operand, Place, Placed};
use std::alloc::{AllocError, Global};
use typed_tree::{Access, Base, FunctionResult, Heading, Variable, VariableKind};

/// What was passed for a formal parameter.
#[derive(Drop)]
pub struct Reference {
    /// The root number of the parameter.
    pub root: u32,
    /// Where the actual variable lies (ISO 7185:1990, 6.6.3.3), if one was passed.
    pub place: Option<Place>,
}

/// An activation whose variables are visible.
#[derive(Drop)]
pub struct Seen {
    /// The number of its block.
    pub block: u32,
    /// Its own number.
    pub number: u64,
    /// What was passed, in the order of its formal parameters.
    pub references: Vec<Reference>,
}

/// An activation of a block (6.2.3.2).
#[derive(Drop)]
pub struct Activation {
    /// Itself, and then the activations of the blocks round its own, 16 at most in a well formed tree.
    pub visible: Vec<Seen>,
    /// How many activations may be in one another inside it.
    pub depth: u64,
    /// The result of its block, which is defined at its end.
    pub result: Option<FunctionResult>,
    /// Where the records lie of the with statements that are executed in it, by their slots (6.8.3.10).
    pub records: Vec<Option<Place>>,
}

impl Reference {
    // The same once more.
    fn again(&self) -> Result<Reference, AllocError>
        ensures { IfOk result (λ r. reference_seen r ≡ reference_seen self.now) }
    {
        Ok(Reference {
            root: self.root,
            place: self.place.clone()?,
        })
    }
}

impl Seen {
    // The same once more.
    fn again(&self, alloc: Global) -> Result<Seen, AllocError>
        ensures { IfOk result (λ r. seen_as r ≡ seen_as self.now) }
    {
        let references = references_again(alloc, &self.references)?;
        Ok(Seen {
            block: self.block,
            number: self.number,
            references,
        })
    }

    // Where a variable lies that its block declares.
    fn home(&self, alloc: Global, root: u32, kind: VariableKind) -> Placed
        ensures { IfOk result (λ place. option_map place_seen place ≡ home_in (seen_as self.now) root kind) }
    {
        match kind {
            VariableKind::VariableParameter => passed_for(&self.references, root),
            _ => Ok(Some(Place {
                activation: self.number,
                variable: root,
                steps: Vec::new(alloc),
            })),
        }
    }
}

impl Activation {
    /// What is round a program: nothing is visible, and so many activations may be in one another inside it.
    pub fn outside(alloc: Global, depth: u64) -> Activation
        ensures visible { result.visible.items ≡ [] }
        ensures depth { result.depth ≡ depth }
        ensures told { result.result ≡ None }
        ensures records { records_in result ≡ [] }
    {
        Activation {
            visible: Vec::new(alloc),
            depth,
            result: None,
            records: Vec::new(alloc),
        }
    }

    /// Where a variable lies, if it is visible.
    pub fn place(&self, alloc: Global, variables: &[Variable], root: u32) -> Placed
        ensures { IfOk result (λ place. option_map place_seen place
            ≡ place_of (visible_in self.now) root (slice_get variables.now root)) }
    {
        match variables.get(root as usize) {
            Some(variable) => place_in(alloc, &self.visible, root, *variable),
            None => Ok(None),
        }
    }

    /// An activation of a block that begins inside it: the block has this number and this heading, and the activation
    /// this number; these arguments are passed to it.
    pub fn inner(
        &self,
        alloc: Global,
        block: u32,
        heading: &Heading,
        number: u64,
        arguments: &[Operand],
    ) -> Result<Activation, AllocError>
        ensures visible { IfOk result (λ inner. visible_in inner
            ≡ record {
              block = block;
              number = number;
              references = pairs_passed heading.now.parameters.items (map operand_seen arguments.now);
            } ∷ filter (λ seen. is_one_of heading.now.around.items seen.block) (visible_in self.now)) }
        ensures depth { IfOk result (λ inner. inner.depth ≡ self.now.depth - 1) }
        ensures told { IfOk result (λ inner. inner.result ≡ heading.now.result) }
        ensures records { IfOk result (λ inner. records_in inner ≡ []) }
    {
        let references = references_of(alloc, &heading.parameters, arguments)?;
        let mut visible = Vec::new(alloc);
        visible.push(Seen {
            block,
            number,
            references,
        })?;
        keep_round(alloc, &mut visible, &heading.around, &self.visible)?;
        Ok(Activation {
            visible,
            depth: self.depth.saturating_sub(1),
            result: heading.result,
            records: Vec::new(alloc),
        })
    }

    /// The place at which an access begins, if there is one.
    pub fn start(&self, alloc: Global, variables: &[Variable], access: &Access) -> Placed
        ensures { IfOk result (λ place. option_map place_seen place
            ≡ start_of self.now variables.now (origin_of access.now)) }
    {
        match &access.base {
            Base::Variable => self.place(alloc, variables, access.root),
            Base::Record { slot, .. } => self.record(*slot),
        }
    }

    // Where the record of a slot lies, if there is one.
    fn record(&self, slot: u32) -> Placed
        ensures { IfOk result (λ place. option_map place_seen place
            ≡ place_at (slice_get (records_in self.now) slot)) }
    {
        match self.records.get(slot as usize) {
            Some(place) => place.clone(),
            None => Ok(None),
        }
    }

    /// A record more, in whose with statement what follows is executed.
    pub fn open(&mut self, place: Option<Place>) -> Result<(), AllocError>
        ensures same { self.new ≡ record self.old { records = self.new.records } }
        ensures records { OnOk result (records_in self.new
            ≡ records_in self.old ++ option_map place_seen place ∷ []) }
    {
        self.records.push(place)?;
        Ok(())
    }

    /// The latest record goes.
    pub fn close(&mut self)
        ensures same { self.new ≡ record self.old { records = self.new.records } }
        ensures records { (others : List (Option MeantPlace)) (place : Option MeantPlace)
            → records_in self.old ≡ others ++ place ∷ [] → records_in self.new ≡ others }
    {
        self.records.pop();
    }
}

// What was passed, once more.
fn references_again(alloc: Global, references: &[Reference]) -> Result<Vec<Reference>, AllocError>
    ensures { IfOk result (λ again. map reference_seen again.items ≡ map reference_seen references.now) }
{
    let mut again = Vec::new(alloc);
    let mut left = references;
    while let Some((first, rest)) = left.split_first() {
        again.push(first.again()?)?;
        left = rest;
    }
    Ok(again)
}

// The place that was passed for a formal parameter.
fn passed_for(references: &[Reference], root: u32) -> Placed
    ensures { IfOk result (λ place. option_map place_seen place ≡ passed_at (map reference_seen references.now) root) }
{
    let mut left = references;
    while let Some((first, rest)) = left.split_first() {
        if first.root == root {
            return first.place.clone();
        }
        left = rest;
    }
    Ok(None)
}

// Where a variable lies that one of the blocks of visible activations declares.
fn place_in(alloc: Global, visible: &[Seen], root: u32, variable: Variable) -> Placed
    ensures { IfOk result (λ place. option_map place_seen place ≡ declared_in (map seen_as visible.now) root variable) }
{
    let mut left = visible;
    while let Some((first, rest)) = left.split_first() {
        if variable.block == first.block {
            return first.home(alloc, root, variable.kind);
        }
        left = rest;
    }
    Ok(None)
}

// What is passed for formal parameters.
fn references_of(
    alloc: Global,
    parameters: &[u32],
    arguments: &[Operand],
) -> Result<Vec<Reference>, AllocError>
    ensures { IfOk result (λ references. map reference_seen references.items
        ≡ pairs_passed parameters.now (map operand_seen arguments.now)) }
{
    let mut references = Vec::new(alloc);
    let mut roots = parameters;
    let mut left = arguments;
    while let Some((root, others)) = roots.split_first() {
        let Some((argument, rest)) = left.split_first() else {
            break;
        };
        let place = argument.place_again()?;
        references.push(Reference { root: *root, place })?;
        roots = others;
        left = rest;
    }
    Ok(references)
}

// Adds those of the visible activations whose blocks are among these.
fn keep_round(
    alloc: Global,
    kept: &mut Vec<Seen>,
    around: &[u32],
    visible: &[Seen],
) -> Result<(), AllocError>
    ensures { OnOk result (map seen_as kept.new.items
        ≡ map seen_as kept.old.items ++ filter (λ seen. is_one_of around.now seen.block) (map seen_as visible.now)) }
{
    let mut left = visible;
    while let Some((first, rest)) = left.split_first() {
        if around.contains(&first.block) {
            kept.push(first.again(alloc)?)?;
        }
        left = rest;
    }
    Ok(())
}
