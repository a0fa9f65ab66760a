//! The whole compiler as calls over values, and its programs over what lies outside of them.
#![tactic(auto)]

pub mod compile;
pub mod pcom;
pub mod pint;
mod prepared;
mod ready;
mod running;
mod telling;
mod words;

pub use command_line::{CommandName, WordsFault};
pub use outside::Outside;
pub use report_text::{fault, text};
pub use running::go;
pub use telling::{cannot_read, refuse, untaken};
pub use words::run_program;
