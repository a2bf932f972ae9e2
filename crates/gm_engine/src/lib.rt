//! The solver for a host that keeps no tables in files, for any game and for the games of a page by their numbers. The host keeps
//! the records of the solved tiers in memory of its own, each in as many bytes as `games::width` returns for the game.
//!
//! `solve_game` and `solve` write records, and `check` tests bytes from elsewhere. `solve` and `ask` require bytes that one of these
//! three has written or accepted for the same tiers of the same game, unchanged since.
#![tactic(auto)]

pub mod bytes;
pub mod engine;
pub mod games;
pub mod refusal;
pub mod replies;
pub mod request;
pub mod width;
