//! Tests of the public calls of the layers, from the tokens to the machine, in a crate of their own: a crate with tests
//! is proved once more with them. What a source shows from outside is tested by the cases of the whole program.
//!
//! Most tests are tables: a row has what a call is given, and beside it what the call has to give.
#![tactic(auto)]

#[cfg(test)]
mod certificates;
#[cfg(test)]
mod checking;
#[cfg(test)]
mod declared_types;
#[cfg(test)]
mod generation;
#[cfg(test)]
mod lexemes;
#[cfg(test)]
mod meanings;
#[cfg(test)]
mod passing;
#[cfg(test)]
mod preparing;
#[cfg(test)]
mod ranges;
#[cfg(test)]
mod removal;
#[cfg(test)]
mod running;
#[cfg(test)]
mod sources;
#[cfg(test)]
mod syntax;
