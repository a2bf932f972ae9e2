//! Immediate transition: a tier that every move leaves, solved in one pass from the tables of its child tiers.
//!
//! `specs/` has the definitions that contracts cite, and `proofs/` what follows from them.
#![tactic(auto)]

pub mod observer;
mod once;
pub mod one_pass;
mod position;
mod range;
pub mod settle;
pub mod stop;
