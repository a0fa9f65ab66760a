//! What the walk of the checker knows where it leaves sites open, for readers: it makes no promise but to be safe.
#![tactic(auto)]

mod expressions;
pub mod seer;
pub mod sight;
mod statements;

pub use seer::see_sites;
pub(crate) use seer::{Seer, Uncounted};
pub use sight::{Cause, Loss, Near, Operand, Sight, Sights};
