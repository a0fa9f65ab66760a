//! How the tokens of a Pascal program are read (ISO 7185:1990, 6.2 to 6.10): which form each rule of the grammar makes
//! of them, and where it stops.
#![tactic(auto)]

pub mod laws;
pub mod refusal;
