ghost use Rattle.std.specs.Prelude.{◌≡◌, IfOk, option_map};
ghost use Rattle.meaning.specs.Meaning.{place_passed};
ghost use Rattle.interpreter_state.specs.Views.{operand_seen, place_seen, row_in, value_in};

use crate::{Place, Placed};
use meaning::{Ordinal, Value};
use std::alloc::Global;

/// What a run has in hand, on a stack.
#[derive(Drop)]
pub enum Operand {
    Value(Value),
    /// A place that is accessed; none, where no variable is visible.
    Place(Option<Place>),
    /// The values of the components of a whole value.
    Row(Vec<Value>),
}

impl Operand {
    /// The value that it is; 0, if it is none.
    pub fn value(&self) -> Value
        ensures { result ≡ value_in (operand_seen self.now) }
    {
        match self {
            Operand::Value(value) => *value,
            _ => Value::Number(Ordinal::new(0)),
        }
    }

    /// The place that it is.
    pub fn place(self) -> Option<Place>
        ensures { option_map place_seen result ≡ place_passed (operand_seen self) }
    {
        match self {
            Operand::Place(place) => place,
            _ => None,
        }
    }

    /// The place that it is, once more.
    pub fn place_again(&self) -> Placed
        ensures { IfOk result (λ place. option_map place_seen place ≡ place_passed (operand_seen self.now)) }
    {
        match self {
            Operand::Place(place) => place.clone(),
            _ => Ok(None),
        }
    }

    /// The row that it is; an empty one, if it is none.
    pub fn row(self, alloc: Global) -> Vec<Value>
        ensures { result.items ≡ row_in (operand_seen self) }
    {
        match self {
            Operand::Row(row) => row,
            _ => Vec::new(alloc),
        }
    }
}
