//! Records of positions, the true tables of tiers, and the checker that makes tables from records of any origin.
//!
//! A table is true by its type: a value of the type is the true table of its tier. A record follows from the records of its canonical children, and a tier file
//! stores it as a number (docs/FORMATS.md, "Tier file"). `specs/` has the definitions that contracts cite, and `proofs/` what follows from them.
#![tactic(auto)]

mod blocks;
pub mod cache;
pub mod checker;
pub mod dealing;
mod entry;
mod fits;
mod levels;
pub mod number;
mod numbers;
mod outline;
pub mod packed;
mod records;
mod runs;
mod shorts;
pub mod summary;
pub mod table;
pub mod tables;
pub mod tile;
pub mod version;
