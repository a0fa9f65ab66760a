//! The one state of the checker on its way through a program: what it knows, and how it takes back what a branch did.
#![tactic(auto)]

mod changes;
mod conditions;
mod growths;
mod joins;
mod loops;
mod shorter;
mod start;
mod state;
mod stores;

pub use conditions::{all_take_both, told, without_first, without_last};
pub use state::{Mark, State};
pub use stores::all_of_row;
