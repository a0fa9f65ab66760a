//! The tokens of a Pascal text (ISO 7185:1990, 6.1).
#![tactic(auto)]

pub mod fault;
mod piece;
mod scan;
mod symbol;
pub mod token;
mod word;

pub use scan::{MAX_TEXT, tokens};
