//! What may hold of the variables of a program: claims that are proposed block by block, by what happens there, which
//! is laid out as events.
#![tactic(auto)]

mod carried;
mod claim;
mod claims;
pub mod events;
pub mod lists;
mod parts;
mod program;

pub use claim::{Claim, naming};
pub use events::{Event, events_of, expression_events};
pub use lists::{Memory, number_of, row, settle};
pub use parts::Part;
pub(crate) use parts::{Array, all_parts, array_accessed};
pub use program::Program;
