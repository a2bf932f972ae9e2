//! Positions that are looked for: those of a value, those that play from the start reaches, and how many there are of each value and remoteness.
//!
//! `specs/` has the definitions that contracts cite, and `proofs/` what follows from them.
#![tactic(auto)]

mod along;
pub mod choice;
pub mod found;
mod only;
mod only_line;
mod places;
pub mod positions;
pub mod reached;
pub mod rows;
pub mod sample;
mod search;
mod sorted;
pub mod sought;
mod spread;
pub mod tries;
mod turned;
