//! What a condition tells of the two sides of its operators (ISO 7185:1990, 6.7.2.5, 6.8.3.4).
#![tactic(auto)]

pub mod sides;
