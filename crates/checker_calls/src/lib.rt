//! What is known where a block is called, and behind the call.
#![tactic(auto)]

pub mod actuals;
mod between;
pub mod changes;
pub mod entry;
pub mod exit;
mod exit_claims;
mod limits;
pub mod overlaps;
mod ranges;
mod touches;
pub mod visible;
mod ways;

pub use actuals::{
    Actual, Bearers, Bindings, bearers_named, has, is_entire, settle, unknown_reach,
};
pub(crate) use changes::{Change, all_changes, roots_changed};
pub use entry::are_given;
pub(crate) use exit_claims::{ExitClaims, range_at_end};
pub(crate) use ranges::Ranges;
pub use visible::{is_outward, is_result, is_value_parameter, is_variable_parameter, is_visible};
pub(crate) use ways::{AccessWay, is_whole};
