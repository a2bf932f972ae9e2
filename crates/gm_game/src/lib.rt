//! A two-player game without chance or hidden information, as positions, moves and primitive values, with its laws.
//!
//! Terms are used as in docs/DEFINITIONS.md. `specs/` has the definitions that contracts cite, and `proofs/` the theory over them.
#![tactic(auto)]

pub mod ahead;
pub mod children;
pub mod evaluate;
pub mod game;
pub mod limits;
pub mod position;
pub mod shown;
pub mod text;
