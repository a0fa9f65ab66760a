//! Takes the checks that can't fail out of symbolic stack code.
#![tactic(auto)]

mod places;
pub mod remove;
mod sites;
