//! Where the input of a run comes from and its output goes, with counted failures, and what the run holds of both.
#![tactic(auto)]

pub mod bytes;
pub mod fault;
mod input;
mod output;
pub mod ports;
pub mod wanted;
