//! The value of a position, its best move, and who has won; values of moves, lines of play, their texts, and sessions against the computer. All of them are
//! read from the true tables.
//!
//! `specs/` has the definitions that contracts cite, and `proofs/` has the facts that follow from them.
#![tactic(auto)]

pub mod answers;
pub mod best_line;
pub mod best_moves;
pub mod closed;
pub mod endings;
pub mod firsts;
pub mod known;
pub mod known_tiers;
pub mod move_values;
pub mod place_texts;
pub mod places;
pub mod play_line;
pub mod replies;
pub mod session;
pub mod session_error;
pub mod sides;
pub mod streams;
pub mod texts;
pub(crate) mod turns;
pub mod view;
pub mod why;

pub use crate::answers::{AnswerError, answer};
pub use crate::best_moves::best_move;
pub use crate::sides::Side;
