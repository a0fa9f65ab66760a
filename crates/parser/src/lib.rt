//! The syntax of a Pascal program (ISO 7185:1990, 6.2 to 6.10), from its tokens.
#![tactic(auto)]

mod beside;
mod block;
mod constants;
mod denoter;
mod formals;
mod headings;
mod lists;
mod names;
mod program;
mod statement;
mod types;
mod unstructured;
mod variables;

pub use program::{parse, release};
