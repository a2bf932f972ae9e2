//! For callers with workers of their own: a tier by workers (`solve_tier`), by passes or by one thread, and boards and desks with locks.
//!
//! `specs/` has the definitions that contracts cite, and `proofs/` what follows from them.
#![tactic(auto)]

pub mod board;
pub mod error;
pub mod held;
pub mod pass;
mod passes;
pub mod starts;
pub mod tier;
mod workplace;

pub use crate::board::Board;
pub use crate::held::Held;
pub use crate::pass::{Pass, PassDesk};
pub use gm_backward::{
    alone as alone, gate as gate, plan as plan, solve as solve, source as source,
};
pub use gm_immediate::{observer as observer, settle as settle, stop as stop};
pub use gm_locks::four::Four;
pub use gm_locks::share::{LevelLedger, ShardLedger, Share};
pub use gm_locks::shares::Shares;
