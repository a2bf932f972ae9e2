//! Games in which cells are covered or freed two at a time: Domineering, Cram and Kayles. Their rules are in docs/GAMES.md, games of dominoes and pins, and `specs/`
//! states them.
#![tactic(auto)]

pub mod cram;
pub mod domineering;
pub mod kayles;
pub mod tables;
