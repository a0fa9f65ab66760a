ghost use Rattle.std.specs.Prelude.{◌≡◌, ◌∷◌, OnOk, option_map};
ghost use Rattle.meaning.specs.Effect.{members_of, number_of};
ghost use Rattle.interpreter_state.specs.Answers.{answered};
ghost use Rattle.interpreter_state.specs.Views.{operand_seen, place_seen};
ghost use Rattle.interpreter.specs.Pending.{RunDoes, below_top, giving, giving_number, giving_set, operands_of};
ghost use Rattle.interpreter.specs.Pending.{top_in_hand, top_of};
ghost use Rattle.interpreter.specs.Pending.{top_place, top_row};
ghost use Rattle.interpreter.specs.Size.{Adds};

use crate::interpreter::{Progress, Run};
use interpreter_state::ordinals::number_of;
use interpreter_state::sets::members_of;
use interpreter_state::{Operand, Place};
use meaning::{Ending, Ordinal, Value};
use std::alloc::AllocError;

// The stack of operands. Each piece of work that takes one follows work that left it.
impl Run<'_, '_> {
    // Goes on with a value, or stops at the site of its error.
    pub(crate) fn go_on(&mut self, value: Result<Value, u32>) -> Progress
        ensures size { Adds 0 self.old result self.new }
        ensures does { RunDoes (λ env. giving (answered value)) self.old result self.new }
    {
        match value {
            Ok(value) => {
                self.push(Operand::Value(value))?;
                Ok(None)
            }
            Err(site) => Ok(Some(Ending::Error(site))),
        }
    }

    // Goes on with a number, or stops at the site of its error.
    pub(crate) fn go_on_with(&mut self, number: Result<Ordinal, u32>) -> Progress
        ensures size { Adds 0 self.old result self.new }
        ensures does { RunDoes (λ env. giving_number (answered number)) self.old result self.new }
    {
        self.go_on(number.map(Value::Number))
    }

    // Goes on with a set, or stops at the site of its error.
    pub(crate) fn go_on_with_set(&mut self, set: Result<u128, u32>) -> Progress
        ensures size { Adds 0 self.old result self.new }
        ensures does { RunDoes (λ env. giving_set (answered set)) self.old result self.new }
    {
        self.go_on(set.map(Value::Members))
    }

    pub(crate) fn push(&mut self, operand: Operand) -> Result<(), AllocError>
        ensures same { self.new ≡ record self.old { operands = self.new.operands } }
        ensures top { OnOk result (operands_of self.new ≡ operand_seen operand ∷ operands_of self.old) }
    {
        self.operands.push(operand)?;
        Ok(())
    }

    // The topmost value.
    pub(crate) fn popped(&mut self) -> Value
        ensures same { self.new ≡ record self.old { operands = self.new.operands } }
        ensures top { result ≡ top_of (operands_of self.old) }
        ensures below { operands_of self.new ≡ below_top (operands_of self.old) }
    {
        self.popped_operand().value()
    }

    // The number of the topmost value.
    pub(crate) fn popped_number(&mut self) -> Ordinal
        ensures same { self.new ≡ record self.old { operands = self.new.operands } }
        ensures top { result ≡ number_of (top_of (operands_of self.old)) }
        ensures below { operands_of self.new ≡ below_top (operands_of self.old) }
    {
        number_of(self.popped())
    }

    // The set that the topmost value is.
    pub(crate) fn popped_set(&mut self) -> u128
        ensures same { self.new ≡ record self.old { operands = self.new.operands } }
        ensures top { result ≡ members_of (top_of (operands_of self.old)) }
        ensures below { operands_of self.new ≡ below_top (operands_of self.old) }
    {
        members_of(self.popped())
    }

    // The topmost place.
    pub(crate) fn popped_place(&mut self) -> Option<Place>
        ensures same { self.new ≡ record self.old { operands = self.new.operands } }
        ensures top { option_map place_seen result ≡ top_place (operands_of self.old) }
        ensures below { operands_of self.new ≡ below_top (operands_of self.old) }
    {
        self.popped_operand().place()
    }

    // The topmost row.
    pub(crate) fn popped_row(&mut self) -> Vec<Value>
        ensures same { self.new ≡ record self.old { operands = self.new.operands } }
        ensures top { result.items ≡ top_row (operands_of self.old) }
        ensures below { operands_of self.new ≡ below_top (operands_of self.old) }
    {
        self.popped_operand().row(self.alloc)
    }

    // The topmost operand.
    pub(crate) fn popped_operand(&mut self) -> Operand
        ensures same { self.new ≡ record self.old { operands = self.new.operands } }
        ensures top { operand_seen result ≡ top_in_hand (operands_of self.old) }
        ensures below { operands_of self.new ≡ below_top (operands_of self.old) }
    {
        self.operands
            .pop()
            .unwrap_or(Operand::Value(Value::Number(Ordinal::new(0))))
    }
}
