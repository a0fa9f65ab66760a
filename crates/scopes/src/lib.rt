//! What names denote: regions, the innermost of which decides (ISO 7185:1990, 6.2.2).
#![tactic(auto)]

mod denotation;
mod fault;
mod regions;

pub use denotation::{
    Definition, Denotation, File, FunctionArgument, FunctionOperation, FunctionTest, FunctionType,
    FunctionValue, InputFunction, RequiredFunction, RequiredProcedure,
};
pub use fault::ScopeFault;
pub use regions::{Region, Scopes, copied};
