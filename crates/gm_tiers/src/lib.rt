//! The tiers that a game reaches, in the order in which they are solved.
//!
//! `specs/` has the definitions that contracts cite, and `proofs/` what follows from them.
#![tactic(auto)]

pub mod order;
mod search;
pub mod tier_error;
