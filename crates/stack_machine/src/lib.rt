//! A machine for symbolic stack code: a row of cells in frames, and one rule an instruction.
#![tactic(auto)]

pub mod cell;
mod cells;
mod form;
mod halt;
pub mod laws;
pub mod machine;
mod rows;
pub mod stop;
mod store;
mod writing;

pub use cell::Cell;
pub(crate) use cells::{Cells, number_of};
pub(crate) use form::Form;
pub use machine::Machine;
pub use run_ports::bytes;
pub use stop::{MachineFault, Stop};
pub(crate) use store::Store;
