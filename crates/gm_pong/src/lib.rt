//! Pong Hau K'i. Its rules are in docs/GAMES.md, Pong Hau K'i, and `specs/` states them.
#![tactic(auto)]

pub mod pong;
