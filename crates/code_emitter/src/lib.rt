//! The instructions of a program: exactly those that the scheme gives it over its typed tree.
#![tactic(auto)]

mod access;
mod assign;
mod block;
mod case;
mod emit;
pub mod emitter;
mod expression;
mod instrs;
pub mod program;
mod read;
mod with;
mod write;

pub(crate) use access::{Cell, address_in, cell_in_frame};
pub(crate) use emit::emit_stmt;
pub use emitter::{Emitter, Loss};
pub(crate) use expression::{cells_of_whole, emit_address, emit_expr, emit_whole, row_length};
pub(crate) use instrs::{check_of, check_range, load, positive_at, store};
