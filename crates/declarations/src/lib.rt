//! The declarations of a block (ISO 7185:1990, 6.2.2, 6.3, 6.4, 6.5.1, 6.6, 6.10): the parameters of a program, with
//! the required identifiers round them, constants, types, variables, and the headings of procedures and functions, in
//! the order of the text.
#![tactic(auto)]

mod definitions;
mod denoters;
mod headings;
mod names;
mod parameters;
mod program;

pub use definitions::declare;
pub use headings::{BegunRoutine, begin_routine};
pub use program::{begin_block, begin_program};
use typed_tree::TypeFault;

/// What was typed, or the first rule of names and types that is broken, with its place.
pub type Typed<T> = Result<T, TypeFault>;
