//! What a reference interpreter keeps between its steps (ISO 7185:1990, 6.2.3): places, operands, activations with
//! what is visible in them, the input that is left, and the work that is left. What the operations of the language
//! calculate, and how values are written, without a store (6.7.2, 6.6.6, 6.8.3, 6.9.3).
#![tactic(auto)]

pub mod activation;
pub mod arms;
pub mod input;
pub mod operand;
pub mod ordinals;
pub mod rows;
pub mod sets;
pub mod store;
pub mod text;
pub mod work;

pub use operand::Operand;
pub use store::{Place, Placed, component, part};
pub use work::{Caller, Rounds, Work, put};
