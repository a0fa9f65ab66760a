//! What the crates of tests share: tables of rows, codes that are written as texts, and runs of code as texts.
#![tactic(auto)]

pub mod assembling;
pub mod machines;
pub mod rows;
pub mod texts;
