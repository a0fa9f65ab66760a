//! Typing as a computation: the rules of names and types (ISO 7185:1990, 6.2.2 and 6.4 to 6.10), and the steps that
//! pass a program by them.
#![tactic(auto)]

mod blocks;
mod components;
mod constants;
mod denoters;
mod fields;
mod functions;
mod names;
mod operations;
mod passing;
mod records;
mod steps;
mod strings;
mod typer;
mod variables;
mod waiting;

pub use blocks::{BegunBlock, Callee, EnclosingBlock};
pub use constants::constant_place;
pub use denoters::value_of;
pub use fields::add_fields;
pub use functions::BegunFunction;
pub(crate) use names::{REQUIRED, fold_into};
pub use names::{folded, heading_name};
pub use records::{DenotedVariable, OpenRecord};
pub use strings::characters;
pub use typer::{MOST_BLOCKS, MOST_ENTRIES, MOST_NUMBERED, MOST_SITES, Made, Typer};
