//! The text of a certificate: what a compiler is told of a program, line by line.
#![tactic(auto)]

mod bounds;
mod building;
mod claim;
mod fact_words;
pub mod facts;
pub mod fault;
mod order;
mod paths;
pub mod reader;
mod words;
pub mod writer;

use domain::Version;
pub use facts::Fact;
pub use fault::ReadFault;
pub use reader::read;
pub(crate) use words::{
    LineFault, Told, both, constant_of, lowered_of, number_of, parted, variable_of,
};
pub use writer::{read_again, write};

/// What a certificate text says.
#[derive(Drop)]
pub struct Certificate {
    pub version: Version,
    /// A section for each block of which something is claimed, by the numbers of the blocks.
    pub sections: Vec<Section>,
}

/// What is claimed of a block (ISO 7185:1990, 6.2.1), and of its loops.
#[derive(Drop)]
pub struct Section {
    /// The number of the block, at most 999,999.
    pub block: u32,
    /// The pairs of variables that may share a place in it, in ascending order.
    pub aliases: Vec<AliasPair>,
    /// The root numbers, at most 999,999, of the variables that it changes, in ascending order.
    pub changes: Vec<u32>,
    /// What holds where it begins, in the order of facts: one range a path and one order a pair.
    pub entry: Vec<Fact>,
    /// What holds where it ends, likewise.
    pub exit: Vec<Fact>,
    /// Its loops of which something is claimed, by their numbers.
    pub loops: Vec<LoopClaims>,
}

/// Two variables that may share a place (6.6.3.3).
#[derive(Clone, Copy)]
pub struct AliasPair {
    /// The root number of one, less than that of the other.
    pub first: u32,
    /// The root number of the other, at most 999,999.
    pub second: u32,
}

/// What is claimed of a loop.
#[derive(Drop)]
pub struct LoopClaims {
    /// The number of the loop, at most 999,999.
    pub number: u32,
    /// The root numbers, at most 999,999, of the variables that it changes, in ascending order.
    pub changes: Vec<u32>,
    /// What holds whenever a turn of it begins, in the order of facts: one range a path and one order a pair.
    pub facts: Vec<Fact>,
}
