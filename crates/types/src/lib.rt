//! The types of a program, and the type rules (ISO 7185:1990, 6.4).
#![tactic(auto)]

mod component;
mod form;
pub mod laws;
mod refusal;
mod sets;
mod table;

pub use form::{
    ArrayElement, Field, MAXINT, OrdinalRange, RecordField, Step, TypeForm, TypeId, TypeKind,
};
pub use refusal::TypeRefusal;
pub use sets::SetBase;
pub use table::{MOST_CELLS, TypeTable};
