//! What a program means (ISO 7185:1990, 6.7 to 6.10): its definitions, the data of which they speak, and what holds of
//! the meaning of every program.
#![tactic(auto)]

pub mod laws;
pub mod outcome;
pub mod value;

pub use outcome::{Ending, Outcome};
pub use value::{Ordinal, Value};
