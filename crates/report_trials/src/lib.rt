//! Tests of the whole compiler on whole sources, in a crate of their own: a crate with tests is proved once more with
//! them. Expected values are worked out by hand from the language's rules.
#![tactic(auto)]

#[cfg(test)]
mod accepting;
#[cfg(test)]
mod again;
#[cfg(test)]
mod agreeing;
#[cfg(test)]
mod allocations;
#[cfg(test)]
mod feeding;
#[cfg(test)]
mod generated;
#[cfg(test)]
mod hostile;
#[cfg(test)]
mod large;
#[cfg(test)]
mod numbers;
#[cfg(test)]
mod pieces;
#[cfg(test)]
mod programs;
#[cfg(test)]
mod rows;
#[cfg(test)]
mod shown;
#[cfg(test)]
mod stage;
#[cfg(test)]
mod taking;
