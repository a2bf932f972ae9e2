//! Answers as lines of JSON: what the moves of a position are worth, lines of play and found positions; and a service that reads positions and answers each.
//!
//! `specs/` has the definitions that contracts cite, and `proofs/` what follows from them.
#![tactic(auto)]

pub mod answer;
pub mod ask;
pub mod ask_error;
pub mod asked;
mod blocks;
pub mod board;
mod extras;
pub mod feed;
pub mod find;
mod hand;
pub mod line;
mod line_answer;
pub mod located;
pub mod moves;
mod object;
mod object_answer;
mod parts;
mod place;
pub mod replies;
pub mod turn;
pub mod why;
pub mod words;
