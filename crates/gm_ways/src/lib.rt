//! Games on points that ways join, as tables: Shisima, Tapatan and Mu Torere. Their rules are in docs/GAMES.md, Points and ways, and `specs/` states them.
#![tactic(auto)]

pub mod mutorere;
pub mod shisima;
pub mod tapatan;
pub mod ways;
