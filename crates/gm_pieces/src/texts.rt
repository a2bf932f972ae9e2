//! Boards and moves read back from their texts.
ghost use Rattle.std.specs.Prelude.{◌≡◌, ◌↔◌, ◌<◌, ℕ, true, IsTrue, Option, MatchOption, None, Some};
ghost use Rattle.std.specs.List.{Contains};
ghost use Rattle.gm_pieces.specs.MoveGames.{board_game, IsMove};
ghost use Rattle.gm_pieces.specs.MoveTexts.{position_text_by, move_text_by};
ghost use Rattle.gm_pieces.specs.laws.TextFacts.{texts_are_shown};

use crate::boards::{board, position};
use crate::lists::MoveLists;
use crate::moves::plays_on;
use crate::on_boards::OnBoards;
use crate::rules::MoveRules;
use gm_game::position::Position;
use gm_game::shown::{Line, Shown};

// Returns the legal board with this text, if there is one.
fn read_board<T: MoveRules>(text: &[u8]) -> Option<T::Board>
    ensures { MatchOption result
        ((b : T.Cells) → T.game.legal b ≡ true → T.text b ≡ text.now → ⊥)
        (λ b. (T.game.legal (T.cells b) ≡ true) × (T.text (T.cells b) ≡ text.now)) }
{
    let board = T::board_in(text);
    (T::is_legal_board(board) && T::board_text(board).as_slice() == text).then_some(board)
}

// Returns whether this is the text of a move.
fn has_text<T: MoveRules>(board: T::Board, number: u32, text: &[u8]) -> bool
    requires legal { T.game.legal (T.cells board) ≡ true }
    requires step { IsMove T.game (T.cells board) number }
    ensures { IsTrue result ↔ (T.step_text (T.game.tier (T.cells board)) number ≡ text.now) }
{
    T::move_text(board, number).as_slice() == text
}

// Returns the move with this text, if there is one.
#[tactic(auto, using(crate::specs::laws::TextFacts::move_missing, crate::specs::laws::MoveLaws::plays, crate::specs::laws::MoveLaws::plays_not))]
fn read_step<T: MoveRules>(board: T::Board, text: &[u8]) -> Option<u32>
    requires { T.game.legal (T.cells board) ≡ true }
    ensures { (m : ℕ) → (result ≡ Some m) ↔ (Contains ((board_game T.game).moves (T.cells board)) m
        × (T.step_text (T.game.tier (T.cells board)) m ≡ text.now)) }
{
    if !plays_on::<T>(board) {
        return None;
    }
    let candidates = T::candidates(board);
    for place in 0..candidates.count() {
        let number = candidates.number(place);
        if T::can_move(board, number) && has_text::<T>(board, number, text) {
            return Some(number);
        }
    }
    None
}

impl<T: MoveLists> Shown for OnBoards<T> {
    ghost shown = { position_text_by T.game T.text };

    ghost move_shown = { move_text_by T.step_text };

    ghost readable = { texts_are_shown T.game T.text T.step_text T.numbered T.readable };

    fn show(p: Position) -> Line {
        T::board_text(board::<T>(p))
    }

    fn read(text: &[u8]) -> Option<Position> {
        let board = read_board::<T>(text)?;
        Some(position::<T>(board))
    }

    fn move_text(p: Position, m: u32) -> Line {
        T::move_text(board::<T>(p), m)
    }

    fn read_move(p: Position, text: &[u8]) -> Option<u32> {
        read_step::<T>(board::<T>(p), text)
    }
}
