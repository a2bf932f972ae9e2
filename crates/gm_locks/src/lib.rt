//! Four shards of a tier, each under a lock of its own, to which workers deliver a level piece by piece; shares of a shard's ledger.
//!
//! `specs/` has the definitions that contracts cite, and `proofs/` what follows from them.
#![tactic(auto)]

pub mod four;
pub mod piece;
pub mod pieces;
pub mod share;
pub mod shares;
