//! What is known of loops, of pairs and aliases, and where a block begins.
#![tactic(auto)]

pub mod claims;
pub mod growths;
pub mod listed;
pub mod loops;
pub mod pairs;
pub mod rounds;
pub mod sections;
pub mod starts;

pub use claims::{claim_facts, gives_facts, rows_named};
pub use growths::{Turns, depth_of};
pub use listed::{Changes, Roots};
pub use pairs::Pairs;
pub use rounds::{Round, all_list};
pub use sections::{
    BlockClaims, BlockSection, Facts, all_block_claims, all_pairs, block_claims_at,
};
pub use starts::{all_declared, begin_block, is_own};
