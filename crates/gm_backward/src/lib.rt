//! Backward induction: a tier solved level after level, until every position has its true value. `solve` first tries immediate transition, if its plan
//! allows one pass.
//!
//! `specs/` has the definitions that contracts cite, and `proofs/` what follows from them.
#![tactic(auto)]

pub mod alone;
mod by_workers;
pub mod context;
mod crew;
pub mod cuts;
pub mod error;
mod finish;
mod first_shards;
pub mod gate;
pub mod in_order;
pub mod level_job;
mod level_run;
pub mod levels;
mod pieces;
pub mod plan;
pub mod report;
mod scan;
pub mod solve;
pub mod source;
pub mod starts;
pub mod tiles;
