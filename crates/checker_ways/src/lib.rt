//! What is known on the way of a control variable, in the arms of a case, and of the aliases of what is stored to.
#![tactic(auto)]

pub mod aliases;
pub mod cases;
pub mod ways;
