//! What texts of lines have in common, whatever they say: lines, words between blanks, numerals, and how they are
//! written.
#![tactic(auto)]

pub mod lines;
pub mod numerals;
pub mod words;
pub mod writer;
