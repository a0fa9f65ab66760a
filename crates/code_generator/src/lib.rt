//! From typed trees to symbolic stack code.
#![tactic(auto)]

pub mod fault;
pub mod generate;
mod known;
pub mod laws;
mod tables;
