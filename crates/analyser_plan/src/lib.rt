//! What the analyser proposes before it walks: what each block and loop of a program changes, which variables may share
//! a place, and the facts that may hold where blocks begin and end and in loops.
#![tactic(auto)]

mod calls;
mod frame;
mod places;
mod plan;
mod steps;

pub use plan::{Course, Plan, Proposed};
