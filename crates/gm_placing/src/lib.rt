//! Games in which pieces are placed and stay: rows on three by three and four by four cells, Hex, and Sim. Their rules are in docs/GAMES.md, games of placing, and
//! `specs/` states them.
#![tactic(auto)]

pub mod hex;
pub mod rows;
pub mod sim;
