//! What the operators of a machine for symbolic stack code give of numbers.
#![tactic(auto)]

pub mod arithmetic;
