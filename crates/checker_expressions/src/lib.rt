//! Checks the expressions of a program (ISO 7185:1990, 6.7): what is known of their values, and which of their sites
//! stay open, told in one walk over each expression.
#![tactic(auto)]

mod calls;
pub mod count;
pub mod fault;
pub mod flow;
mod gathering;
pub mod grounds;
pub mod noting;
mod operations;
mod results;
mod touching;
mod uses;
mod values;
mod walk;

pub use count::Count;
pub use fault::{Breach, CheckFault, Rule};
pub use flow::Flow;
pub use grounds::Grounds;
pub(crate) use values::{held_in, hull, lies_in, limited, unless_none};
