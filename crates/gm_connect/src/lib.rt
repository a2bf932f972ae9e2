//! Connect Four on small boards. `specs/` states its rules.
#![tactic(auto)]

pub mod connect;
pub mod grid;
pub mod picture;
pub mod size;
