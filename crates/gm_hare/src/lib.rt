//! Hare and Hounds. Its rules are in docs/GAMES.md, Hare and Hounds, and `specs/` states them.
#![tactic(auto)]

pub mod hare;
pub mod hunt;
pub mod picture;
pub mod points;
