//! Builds a game: the true table of each tier that it reaches, child tiers first, over a store that keeps the tiers' files. It also reports what a tier's entry
//! in a store is (the text of its true table, in either version of the format, or why it is not one), and has what a build tells while it runs, with lines that
//! are written whole (docs/PROGRAM.md).
//!
//! `specs/` has the definitions that contracts cite, and `proofs/` what follows from them.
#![tactic(auto)]

mod ahead;
pub mod build;
pub mod build_error;
pub mod check;
pub mod found;
pub mod inspect;
pub mod progress;
mod tier;
pub mod whole_line;
pub mod work;
