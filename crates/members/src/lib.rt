//! Sets of whole numbers from 0 to 127, each as one number of 128 bits.
#![tactic(auto)]

pub mod laws;
pub mod sets;
