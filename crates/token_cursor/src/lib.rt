//! What a parser of Pascal reads its tokens by: a cursor over them, the levels of operators and of nesting, the forms
//! that the language leaves out, and the faults.
#![tactic(auto)]

pub mod cursor;
pub mod fault;
pub mod kept;
pub mod left_out;
pub mod nesting;
pub mod operator;

pub use cursor::{Cursor, Read};
pub use kept::{boxed, put};
pub use nesting::{MAX_NESTING, inside};
