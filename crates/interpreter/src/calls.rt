ghost use Rattle.std.specs.Prelude.{◌≡◌, ◌<◌, ◌+◌, OnOk, IfOk, map, slice_get};
ghost use Rattle.meaning.specs.Effect.{State};
ghost use Rattle.meaning.specs.Store.{Environment};
ghost use Rattle.meaning.specs.Meaning.{assign, assign_all, result_of};
ghost use Rattle.interpreter_state.specs.Answers.{answered};
ghost use Rattle.interpreter_state.specs.Views.{operand_seen};
ghost use Rattle.interpreter.specs.Pending.{RunDoes, RunLeaves, Sees, StoreAgrees, StoresIn, beginning, calling};
ghost use Rattle.interpreter.specs.Pending.{left_below};
ghost use Rattle.interpreter.specs.Pending.{operands_of, resumed, taken_from};
ghost use Rattle.interpreter.specs.Size.{Adds, Lightens, Shrinks, size_of};

use crate::interpreter::{Progress, Run};
use interpreter_state::ordinals::value_in;
use interpreter_state::{Caller, Operand, Work, put};
use meaning::{Ending, Ordinal, Value};
use std::alloc::AllocError;
use std::mem;
use typed_tree::{Block, Call, Passed, RangeTest};

// The steps of calls.
impl<'t> Run<'t, '_> {
    // The actual parameters, and then the activation.
    pub(crate) fn call(&mut self, call: &'t Call, actuals: &'t [Passed]) -> Progress
        ensures size { Adds (2 + size_of (Work.Pass actuals.entry)) self.old result self.new }
        ensures does { RunDoes (λ env. calling env call.now actuals.now) self.old result self.new }
    {
        self.plan(
            Work::Pass(actuals),
            Work::Activate {
                block: call.block,
                count: actuals.len(),
            },
        )
    }

    pub(crate) fn pass(&mut self, actuals: &'t [Passed]) -> Progress
        ensures fewer { Lightens (Work.Pass actuals.entry) self.old result self.new }
        ensures does { RunDoes (λ env. resumed env (Work.Pass actuals.entry)) self.old result self.new }
    {
        let Some((first, rest)) = actuals.split_first() else {
            return Ok(None);
        };
        match first {
            Passed::Value { value, fits } => {
                put(&mut self.pending, Work::Pass(rest))?;
                self.plan(Work::Value(value), Work::Test(*fits))
            }
            Passed::Whole { value, indexes, .. } => {
                self.plan(Work::Whole { value, indexes }, Work::Pass(rest))
            }
            Passed::Reference {
                access,
                indexes,
                ..
            } => self.access(access, indexes, Work::Pass(rest)),
        }
    }

    // Tests the topmost value.
    pub(crate) fn test(&mut self, fits: RangeTest) -> Progress
        ensures fewer { Lightens (Work.Test fits) self.old result self.new }
        ensures does { RunDoes (λ env. resumed env (Work.Test fits)) self.old result self.new }
    {
        let value = self.popped();
        self.go_on(value_in(fits.range, value).ok_or(fits.site))
    }

    // Begins an activation of a block, and passes so many operands to it.
    pub(crate) fn activate(&mut self, number: u32, count: usize) -> Progress
        ensures fewer { Lightens (Work.Activate number count) self.old result self.new }
        ensures does { RunDoes (λ env. resumed env (Work.Activate number count)) self.old result self.new }
    {
        let arguments = self.arguments(count)?;
        let Some(block) = self.tree.blocks.get(number as usize) else {
            return self.go_on(Ok(Value::Number(Ordinal::new(0))));
        };
        if self.activation.depth == 0 {
            return Ok(Some(Ending::More));
        }
        self.begin(number, block, &arguments)
    }

    // So many operands, the topmost one last.
    fn arguments(&mut self, count: usize) -> Result<Vec<Operand>, AllocError>
        ensures same { self.new ≡ record self.old { operands = self.new.operands } }
        ensures taken { IfOk result (λ arguments. map operand_seen arguments.items
            ≡ taken_from count (operands_of self.old)) }
        ensures below { OnOk result (operands_of self.new ≡ left_below count (operands_of self.old)) }
    {
        let mut arguments = Vec::new(self.alloc);
        for _ in 0..count {
            let operand = self.popped_operand();
            arguments.push(operand)?;
        }
        arguments.reverse();
        Ok(arguments)
    }

    // An activation of a block begins, and the one that called it waits.
    fn begin(&mut self, number: u32, block: &'t Block, arguments: &[Operand]) -> Progress
        requires { 0 < self.old.activation.depth }
        ensures size { Adds 0 self.old result self.new }
        ensures does { RunDoes (beginning self.old.tree.now self.old.activation.depth number block.now
            (map operand_seen arguments.now)) self.old result self.new }
    {
        if self.turns == 0 {
            return Ok(Some(Ending::More));
        }
        // Each activation used a turn, so they never reach this number.
        let Some(called) = self.called.checked_add(1) else {
            return Ok(Some(Ending::More));
        };
        let activation = self
            .activation
            .inner(self.alloc, number, &block.heading, called, arguments)?;
        self.turns -= 1;
        self.called = called;
        let activation = mem::replace(&mut self.activation, activation);
        let pending = mem::replace(&mut self.pending, Vec::new(self.alloc));
        self.callers.push(Caller::Call {
            activation,
            pending,
        })?;
        self.assign_all(&block.heading.parameters, arguments)?;
        self.do_next(Work::Statement(&block.body))
    }

    // Each value parameter gets what is passed to it.
    fn assign_all(&mut self, parameters: &[u32], arguments: &[Operand]) -> Result<(), AllocError>
        ensures same { self.new ≡ record self.old { store = self.new.store } }
        ensures agrees { OnOk result ((visible : Environment) (s : State)
            → Sees visible self.old.tree.now self.old.activation → StoreAgrees self.old.store s.store
            → StoresIn (assign_all self.old.tree.now visible parameters.now (map operand_seen arguments.now) s)
            s self.new) }
    {
        let mut roots = parameters;
        let mut left = arguments;
        while let Some((root, others)) = roots.split_first() {
            let Some((argument, rest)) = left.split_first() else {
                break;
            };
            self.assign(*root, argument)?;
            roots = others;
            left = rest;
        }
        Ok(())
    }

    // A value parameter gets what is passed to it.
    fn assign(&mut self, root: u32, argument: &Operand) -> Result<(), AllocError>
        ensures same { self.new ≡ record self.old { store = self.new.store } }
        ensures agrees { OnOk result ((visible : Environment) (s : State)
            → Sees visible self.old.tree.now self.old.activation → StoreAgrees self.old.store s.store
            → StoresIn (assign self.old.tree.now.types (visible.variables root)
            (slice_get self.old.tree.now.variables.items root) (operand_seen argument.now) s) s self.new) }
    {
        let place = self.place(root)?;
        match argument {
            Operand::Value(value) => self.keep(place, *value),
            Operand::Row(row) => match self.tree.variables.get(root as usize) {
                Some(formal) => self.keep_row(&place, formal.type_id, row),
                None => Ok(()),
            },
            Operand::Place(_) => Ok(()),
        }
    }

    // The activation ends, and the one that called it goes on with its result; or the statement of a with ends, or a
    // turn of a for, and what stands behind it follows.
    pub(crate) fn leave(&mut self) -> Progress
        ensures fewer { Shrinks self.old result self.new }
        ensures does { RunLeaves self.old result self.new }
    {
        match self.callers.pop() {
            Some(
                Caller::Call {
                    activation,
                    pending,
                },
            ) => {
                let answer = self.result()?;
                self.activation = activation;
                self.pending = pending;
                match answer {
                    Ok(value) => self.go_on(Ok(value)),
                    Err(site) => Ok(Some(Ending::Error(site))),
                }
            }
            Some(Caller::With { pending }) => {
                self.activation.close();
                self.pending = pending;
                Ok(None)
            }
            Some(Caller::For { pending }) => {
                self.pending = pending;
                Ok(None)
            }
            None => Ok(Some(Ending::Finished)),
        }
    }

    // The result of the activation, or the site at which it is undefined; 0 where its block has none.
    fn result(&self) -> Result<Result<Value, u32>, AllocError>
        ensures { IfOk result (λ answer. (visible : Environment) (s : State)
            → Sees visible self.now.tree.now self.now.activation → StoreAgrees self.now.store s.store
            → result_of self.now.activation.result visible s ≡ answered answer s) }
    {
        match self.activation.result {
            Some(declared) => {
                let place = self.place(declared.root)?;
                Ok(self.found(&place).ok_or(declared.defined))
            }
            None => Ok(Ok(Value::Number(Ordinal::new(0)))),
        }
    }

    // Behind a procedure: it has no result.
    pub(crate) fn discard(&mut self) -> Progress
        ensures fewer { Lightens Work.Discard self.old result self.new }
        ensures does { RunDoes (λ env. resumed env Work.Discard) self.old result self.new }
    {
        let _value = self.popped();
        Ok(None)
    }
}
