//! How many positions have each value and remoteness: the analysis of a tier with its longest win, and its text in JSON, and the counts over all tiers of a
//! game, of all canonical positions or of those that play from the start reaches.
//!
//! `specs/` has the definitions that contracts cite, and `proofs/` what follows from them.
#![tactic(auto)]

pub mod among;
pub mod analysis;
pub mod bars;
pub mod by_tier;
pub mod counts;
pub mod json;
mod json_rows;
mod longest;
pub mod longest_rows;
mod numbers;
pub mod totals;
