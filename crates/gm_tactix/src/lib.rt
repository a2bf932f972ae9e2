//! Tac Tix on squares of side 1 to 5. Its rules are in docs/GAMES.md, Tac Tix, and `specs/` states them.
#![tactic(auto)]

pub mod children;
pub mod counters;
mod images;
pub mod masks;
pub mod moves;
pub mod parents;
pub mod picture;
mod segments;
pub mod side;
pub mod tactix;
pub mod text;
pub mod tiers;
