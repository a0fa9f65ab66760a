//! The typed tree of a program: every name bound, every type known, every site numbered; and why a program has none
//! (ISO 7185:1990, 6.2.2 and 6.4 to 6.9).
#![tactic(auto)]

pub mod calls;
pub mod fault;
pub mod site;
pub mod tree;

pub use calls::{actuals_hold_call, hold_call, holds_call, passed_holds_call, whole_holds_call};
pub use fault::TypeFault;
pub use site::{Point, Site, SiteKind};
pub use tree::{
    Access, Assignment, Base, Block, Calculation, Call, CaseHead, Copying, Designator, Direction,
    Dyadic, Expr, Fitted, ForHead, FunctionResult, Heading, InputTest, Link, Loop, LoopHead,
    Monadic, Passed, PathStep, ProcedureCall, RangeTest, ReadVariable, Readable, Reading, Relation,
    Representation, Scalar, Selector, SetRelation, Shift, Stmt, Tree, Variable, VariableKind,
    Whole, Width, WithHead, WithRecord, WriteParameter, Writing, Written, sites,
};
