//! The rows of a program: one for each variable, and one for each leaf of a structured one (ISO 7185:1990, 6.4.3).
#![tactic(auto)]

mod leaf;
mod part;
mod ranges;
mod rows;
mod span;

pub use ranges::{limits, limits_or_integer};
pub use rows::{NamedPart, Rows};
pub use span::Span;
