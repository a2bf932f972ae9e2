//! What the person sees before a question.
ghost use Rattle.std.specs.Prelude.{◌≡◌, List, ℕ, true};
ghost use Rattle.gm_game.specs.declared.position.Position.{Position};
ghost use Rattle.gm_play.specs.declared.view.Question.{Question as QuestionSpec};
ghost use Rattle.gm_play.specs.Dialogue.{unseen};

use arrayvec::ArrayVec;
use gm_game::position::Position;
use gm_game::shown::Shown;

/// The most bytes before a question: a board, and the texts of all moves.
pub const SIGHT: usize = 8704;

/// The kind of a question to the person.
#[derive(Clone, Copy, Debug, PartialEq, Eq)]
pub enum Question {
    /// The first question for a move.
    First,
    /// The same question again, after a line that is not a move.
    Again,
}

/// The lines before a question.
pub type Sight = ArrayVec<u8, SIGHT>;

/// The part of a session that shows the person a position before each question.
pub trait View<G: Shown> {
    /// The text of a position before a question.
    ghost seen: { QuestionSpec → Position → List ℕ };

    /// Returns the text of a legal position before a question, in lines.
    fn see(asked: Question, p: Position) -> Sight
        requires { G.Game.rules.is_legal p ≡ true }
        ensures { result.items ≡ seen asked p };
}

/// A view that adds nothing to the lines of the dialogue.
#[derive(Drop)]
pub struct Plain;

impl<G: Shown> View<G> for Plain {
    ghost seen = { unseen };

    fn see(_asked: Question, _p: Position) -> Sight {
        ArrayVec::new()
    }
}
