//! What the programs tell: why a source is refused, the lines that are printed, and how they are written.
#![tactic(auto)]

pub mod fault;
pub mod messages;
pub mod text;
