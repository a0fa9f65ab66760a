//! Symbolic stack code: its instructions, the tables of sites and points that they name, and its text.
#![tactic(auto)]

mod above;
pub mod assembler;
pub mod code;
mod content;
pub mod fault;
pub mod instr;
mod labels;
mod lines;
mod operands;
pub mod set_members;
mod table;
mod words;
pub mod writer;

pub(crate) use above::Above;
pub use assembler::assemble;
pub use code::{Code, Point, Site};
pub use fault::{AsmFault, AsmRule};
pub use instr::Instr;
pub(crate) use lines::{check_end, next_above_last};
pub use set_members::{EMPTY, SetMembers};
pub(crate) use table::{FRAME_LIMIT, ID_LIMIT, LENGTH_LIMIT, LEVEL_LIMIT, OFFSET_LIMIT, Shape};
