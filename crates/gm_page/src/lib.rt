//! Positions for people: boards on a terminal; pages for any browser, with the positions of a page, its lines of data and the viewer around them; sheets of
//! diagrams to solve, each with its solution.
//!
//! `specs/` has the definitions that contracts cite, and `proofs/` has the facts that follow from them.
#![tactic(auto)]

pub mod boards;
mod defences;
pub mod engine;
pub mod front;
mod head;
pub mod listing;
pub mod page;
pub mod parts;
pub mod puzzles;
mod rows;
pub mod script;
pub mod show;
pub mod solution;
pub mod viewer_asking;
pub mod viewer_boards;
pub mod viewer_choosing;
pub mod viewer_drawing;
pub mod viewer_playing;
mod words;
