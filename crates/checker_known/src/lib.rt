//! What is known at a point of a program: what it gives, its changes, which can be taken back, and what it tells where
//! two ways meet.
#![tactic(auto)]

mod beside;
mod change;
mod gives;
mod had;
mod halves;
mod knots;
mod knowledge;
mod order;
mod places;
mod resting;
mod start;
mod told;

pub use beside::Beside;
pub use change::{Branch, Change};
pub use had::{Ask, Wanted};
pub(crate) use halves::{Test, edge};
pub use knowledge::{Knowledge, Row};
pub(crate) use order::{wrong_around, wrong_at};
pub use resting::Resting;
pub use told::{Arrival, Asked, Told};
