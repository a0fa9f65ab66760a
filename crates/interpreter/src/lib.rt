//! Runs a program by a reference interpreter that follows the definitions of its meaning step by step
//! (ISO 7185:1990, 6.7 to 6.10).
#![tactic(auto)]

mod accesses;
mod calls;
mod expressions;
mod interpreter;
mod operand;
mod reading;
mod statements;
mod variables;

pub use interpreter::interpret;
