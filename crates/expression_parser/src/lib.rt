//! The expressions of a Pascal program (ISO 7185:1990, 6.7), from its tokens: the rules that read an expression, the
//! selectors of a variable and the actual parameters of a call, and what builds a form of its parts.
#![tactic(auto)]

mod build;
pub mod expression;
