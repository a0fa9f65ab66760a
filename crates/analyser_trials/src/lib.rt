//! Tests of the analyser's crates, in a crate of their own: a crate with tests is proved once more with them.
#![tactic(auto)]

#[cfg(test)]
mod tables;
