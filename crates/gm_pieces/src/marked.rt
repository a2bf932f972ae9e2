//! What follows for a game whose moves masks mark.
ghost use Rattle.std.specs.Prelude.{◌≡◌, ◌==◌, true, [], map, length};
ghost use Rattle.gm_game.specs.Ascending.{put_all};
ghost use Rattle.gm_game.specs.Boards.{least_index as least_index_of, next_images};
ghost use Rattle.gm_game.specs.Children.{HasSame};
ghost use Rattle.gm_pieces.specs.MoveGames.{board_game, steps, befores};
ghost use Rattle.gm_pieces.specs.inner.Marking.{AreMarks, leads_here};

use crate::ascending::put;
use crate::boards::least_position;
use crate::marks::Marks;
use crate::moves::plays_on;
use crate::rules::MoveRules;
use arrayvec::ArrayVec;
use gm_game::limits::{MOVES, PARENTS};
use gm_game::position::Position;

/// A game whose moves masks mark. The masks say which numbers are moves, so that no number is tried in vain: the calls below take time for each move, and not for each number.
pub trait MarkedMoves: MoveRules {
    /// Returns marks of the moves that could be made if the game were not over.
    fn open_marks(board: Self::Board) -> Marks
        requires { Self.game.legal (Self.cells board) ≡ true }
        ensures { AreMarks (Self.game.can_move (Self.cells board)) (Self.game.move_number_bound (Self.game.tier (Self.cells board))) result };

    /// Returns marks of the moves that led to this board from one of the tier from which the game went on.
    fn earlier_marks(tier: u64, board: Self::Board) -> Marks
        requires { Self.game.legal (Self.cells board) ≡ true }
        ensures { AreMarks (leads_here Self.game tier (Self.cells board)) (Self.game.move_number_bound tier) result };
}

/// Returns how many moves could be made if the game were not over, in the time of one call of `open_marks`.
#[tactic(auto, using(crate::specs::laws::MarkedFacts::steps_counted))]
pub fn count_moves<T: MarkedMoves>(board: T::Board) -> u32
    requires { T.game.legal (T.cells board) ≡ true }
    ensures { result ≡ length (steps T.game (T.cells board)) }
{
    T::open_marks(board).count()
}

/// Returns whether no move could be made if the game were not over, in the time of one call of `open_marks`.
pub fn has_no_mark<T: MarkedMoves>(board: T::Board) -> bool
    requires { T.game.legal (T.cells board) ≡ true }
    ensures { result ≡ (length (steps T.game (T.cells board)) == 0) }
{
    count_moves::<T>(board) == 0
}

/// Writes the positions of the least images of the boards that a move leads to over what the list holds, one for each move. Takes the time of one call of `open_marks`, and for each move that of `moved` and of `least_index`.
pub fn list_marked_results<T: MarkedMoves>(board: T::Board, list: &mut ArrayVec<Position, MOVES>)
    requires { T.game.legal (T.cells board) ≡ true }
    ensures { HasSame (next_images (board_game T.game) (T.cells board)) list.new.items }
{
    list.clear();
    if !plays_on::<T>(board) {
        return;
    }
    let mut marks = T::open_marks(board);
    while let Some((number, rest)) = marks.split_first() {
        list.push(least_position::<T>(T::moved(board, number as u32)));
        marks = rest;
    }
}

/// Writes the least indexes of the boards of the tier from which a move leads to this one, ascending and once each, over what the list holds. Takes the time of one call of `earlier_marks`, and for each such move that of `undo` and of `least_index`, and of a search of the list.
pub fn put_marked_befores<T: MarkedMoves>(
    tier: u64,
    board: T::Board,
    list: &mut ArrayVec<u64, PARENTS>,
)
    requires { T.game.legal (T.cells board) ≡ true }
    ensures { list.new.items ≡ put_all [] (map (least_index_of (board_game T.game)) (befores T.game tier (T.cells board))) }
{
    list.clear();
    let mut marks = T::earlier_marks(tier, board);
    while let Some((number, rest)) = marks.split_first() {
        put(list, T::least_index(T::undo(tier, board, number as u32)));
        marks = rest;
    }
}
