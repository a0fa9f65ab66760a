//! Tests of the texts of lines and of code, in a crate of their own: a crate with tests is proved once more with them.
#![tactic(auto)]

#[cfg(test)]
mod refused;
#[cfg(test)]
mod spelled;
#[cfg(test)]
mod words;
