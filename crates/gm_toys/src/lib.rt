//! Small games on numbers, and Takeaway, a game of counters to learn from. Their rules are in docs/GAMES.md, and `specs/` states them.
#![tactic(auto)]

pub mod chain;
pub mod countdown;
pub mod picture;
pub mod stairs;
pub mod subtraction;
pub mod takeaway;
#[cfg(test)]
mod tests;
pub mod wheel;
