//! The scheme of a program's code: its definition over the typed tree, how many cells each part needs, and where
//! variables lie.
#![tactic(auto)]

pub mod frame;
pub mod home;
pub mod routine;
pub mod scope;

pub use frame::{Frame, frame_at, frames, homes, level_of};
pub use home::Home;
pub use routine::Routine;
pub use scope::{GREATEST_OFFSET, LINKS, MOST_CELLS, Scope, behind_fields, selectors_from};
