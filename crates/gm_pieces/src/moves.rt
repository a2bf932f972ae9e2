//! The loops over the numbers of moves that are tried.
ghost use Rattle.std.specs.Prelude.{◌≡◌, ◌<◌, ◌&&◌, true, map, [], length, ◌==◌, MatchOption, None, Some};
ghost use Rattle.gm_game.specs.Ascending.{put_all};
ghost use Rattle.gm_game.specs.Boards.{least_index as least_index_of, next_images};
ghost use Rattle.gm_pieces.specs.MoveGames.{board_game, is_undecided as plays_on_of, steps, goes_on as goes_on_of, before_at, befores};

use crate::ascending::put;
use crate::boards::least_position;
use crate::rules::MoveRules;
use arrayvec::ArrayVec;
use gm_game::limits::{MOVES, PARENTS};
use gm_game::position::Position;

/// Returns whether the last move has not ended the game.
pub fn plays_on<T: MoveRules>(board: T::Board) -> bool
    requires { T.game.legal (T.cells board) ≡ true }
    ensures { result ≡ plays_on_of (T.game.end_by_last_move (T.cells board)) }
{
    T::end_by_last_move(board).is_none()
}

/// Returns the numbers of the moves that could be made if the game were not over, ascending.
pub fn list_moves<T: MoveRules>(board: T::Board) -> ArrayVec<u32, MOVES>
    requires { T.game.legal (T.cells board) ≡ true }
    ensures { result.items ≡ steps T.game (T.cells board) }
{
    let candidates = T::candidates(board);
    let mut list = ArrayVec::new();
    for place in 0..candidates.count() {
        let number = candidates.number(place);
        if T::can_move(board, number) {
            list.push(number);
        }
    }
    list
}

/// Returns whether no move could be made if the game were not over.
pub fn has_no_move<T: MoveRules>(board: T::Board) -> bool
    requires { T.game.legal (T.cells board) ≡ true }
    ensures { result ≡ (length (steps T.game (T.cells board)) == 0) }
{
    let candidates = T::candidates(board);
    for place in 0..candidates.count() {
        if T::can_move(board, candidates.number(place)) {
            return false;
        }
    }
    true
}

/// Writes the positions of the least images of the boards that the moves lead to over what the list holds, one for each move.
pub fn list_results<T: MoveRules>(
    board: T::Board,
    moves: &[u32],
    list: &mut ArrayVec<Position, MOVES>,
)
    requires legal { T.game.legal (T.cells board) ≡ true }
    requires moves { moves.now ≡ (board_game T.game).moves (T.cells board) }
    ensures { list.new.items ≡ next_images (board_game T.game) (T.cells board) }
{
    list.clear();
    for m in moves {
        list.push(least_position::<T>(T::moved(board, *m)));
    }
}

/// Returns the board of the tier from which a move with this number led to this board, if there is one.
#[tactic(auto, using(gm_board::specs::laws::Lists::and_left, crate::specs::laws::MoveLaws::before_some, crate::specs::laws::MoveLaws::before_none))]
pub fn before<T: MoveRules>(tier: u64, board: T::Board, number: u32) -> Option<T::Board>
    requires legal { T.game.legal (T.cells board) ≡ true }
    requires below { number < T.game.move_number_bound tier }
    ensures { MatchOption result
        (before_at T.game tier (T.cells board) number ≡ None)
        (λ b. (before_at T.game tier (T.cells board) number ≡ Some (T.cells b)) × (T.game.legal (T.cells b) ≡ true)) }
{
    if !T::can_have_led_here(tier, board, number) {
        return None;
    }
    let earlier = T::undo(tier, board, number);
    T::goes_on(tier, earlier, number).then_some(earlier)
}

/// Writes the least indexes of the boards of the tier from which a move leads to this one, ascending and once each, over what the list holds.
pub fn put_befores<T: MoveRules>(tier: u64, board: T::Board, list: &mut ArrayVec<u64, PARENTS>)
    requires { T.game.legal (T.cells board) ≡ true }
    ensures { list.new.items ≡ put_all [] (map (least_index_of (board_game T.game)) (befores T.game tier (T.cells board))) }
{
    list.clear();
    let candidates = T::earlier_candidates(tier, board);
    for place in 0..candidates.count() {
        match before::<T>(tier, board, candidates.number(place)) {
            Some(earlier) => put(list, T::least_index(earlier)),
            None => {}
        }
    }
}
