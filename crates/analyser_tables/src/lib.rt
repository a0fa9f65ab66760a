//! What the analyser knows so far of the places where facts stand: tables of facts that move until nothing new comes.
#![tactic(auto)]

mod coming;
mod growths;
mod ladder;
mod outcome;
mod table;

pub use coming::Coming;
pub use growths::growth_of;
pub use ladder::Ladders;
pub use table::{Pace, Table};
