//! The value of a position.
ghost use Rattle.std.specs.Prelude.{◌≡◌, ◌↔◌, false, IfOk, IsErrOf};
ghost use Rattle.gm_game.specs.Values.{IsTrueValue};
ghost use Rattle.gm_play.specs.Refusals.{IsNotHeld, answer_error_number};

use gm_game::game::Game;
use gm_game::position::{Position, Solved};
use gm_table::tables::Tables;
use thiserror::Error;

/// Why a question about a position has no answer.
#[derive(Clone, Copy, Debug, PartialEq, Eq, Error)]
pub enum AnswerError {
    #[error("illegal")]
    Illegal,
    /// A table that the answer rests on is not held.
    #[error("not held")]
    NotHeld,
}

impl AnswerError {
    /// Returns the number of the error.
    pub fn number(&self) -> u8
        ensures { result ≡ answer_error_number self.now }
    {
        match self {
            AnswerError::Illegal => 1,
            AnswerError::NotHeld => 2,
        }
    }
}

/// Returns the true value of a position with its remoteness, canonical or not. It takes no memory.
pub fn answer<G: Game>(tables: &Tables<G>, p: Position) -> Result<Solved, AnswerError>
    ensures value { IfOk result (IsTrueValue G.rules p) }
    ensures illegal { IsErrOf result AnswerError.Illegal ↔ (G.rules.is_legal p ≡ false) }
    ensures not_held { IsErrOf result AnswerError.NotHeld ↔ IsNotHeld G.rules tables.now p }
{
    if !G::is_legal(p) {
        return Err(AnswerError::Illegal);
    }
    match tables.get(p) {
        Some(solved) => Ok(solved),
        None => Err(AnswerError::NotHeld),
    }
}
