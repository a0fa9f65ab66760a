//! Makes the typed tree of a program, or tells the first rule of names and types that it breaks (ISO 7185:1990, 6.2.2
//! and 6.4 to 6.10).
#![tactic(auto)]

mod assignments;
mod blocks;
mod calls;
mod cases;
mod heads;
mod owned;
mod program;
mod reading;
mod records;
mod statements;
mod table;
mod typed;

pub use program::resolve;
