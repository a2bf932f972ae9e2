//! Games with pieces: boards on which two sides have some, with their texts, steps from point to point, and what a game with numbered moves must give for the
//! calls of `Game` to follow from it (docs/GAMES.md, Common forms).
#![tactic(auto)]

pub mod ascending;
pub mod board;
pub mod boards;
pub mod candidates;
pub mod lists;
pub mod marked;
pub mod marks;
pub mod moves;
pub mod on_boards;
pub mod on_numbers;
pub mod rules;
pub mod small_rules;
pub mod step;
pub mod text;
pub mod texts;
