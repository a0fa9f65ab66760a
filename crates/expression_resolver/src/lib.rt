//! Makes the typed expressions of a program, or tells the first rule that one breaks (ISO 7185:1990, 6.7).
#![tactic(auto)]

mod accesses;
mod expressions;
mod forms;
mod input;
mod operators;
mod owned;
mod typed;
mod value;

pub use accesses::named_variable;
pub use expressions::{access, copied, expression, fitted, reach, routine_call};
pub use forms::first_place;
pub use input::named_file;
pub use typed::{Lead, Reached, TypedCall, TypedExpr};
pub use value::Value;
