//! What the checker knows at a point of a program: bounds, what is held, forms of expressions; and what holds of
//! states.
#![tactic(auto)]

mod bound;
mod ends;
mod forms;
mod growing;
mod held;
pub mod laws;
mod reach;
mod sets;
mod term;
mod value;

pub use bound::{Bound, Rebinding};
pub use ends::{Ends, difference, sum};
pub use forms::{bound_form, entire};
pub use growing::{Growing, is_same_growth, joined_growth};
pub use held::{Claim, Group, Held, Order, Point, Span, Stretch};
pub use reach::{Index, Indexes, Reach};
pub use sets::{
    is_closed_member, is_closed_range, operated_sets, tested_member, with_member, with_members,
};
pub use term::Term;
pub use value::Known;
