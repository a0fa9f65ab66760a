//! The rules of operators, of what takes a value, and of what a name denotes (ISO 7185:1990, 6.4 to 6.9), as far as
//! they need types alone and nothing else of a program.
#![tactic(auto)]

mod denotations;
mod operators;
mod targets;
mod typed;

pub use denotations::{as_control, as_file, as_function, as_procedure, as_routine, placed};
pub use operators::{
    may_index, may_relate, member_of, member_with_site, relation_behind, result_of,
    set_operation_behind, sign_operation,
};
pub use targets::{
    copying, fitting, members_test, ordinal_of, read_as, representation, test_kind, way,
};
pub use typed::{Typed, TypedValue};
