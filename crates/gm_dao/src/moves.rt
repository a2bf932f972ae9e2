//! Moves: a piece slides as far as it can.
ghost use Rattle.std.specs.Prelude.{◌≡◌, ◌<◌, ◌≤◌, ◌+◌, ◌*◌, ◌&&◌, ◌==◌, true, length};
ghost use Rattle.gm_dao.specs.Lower.{board_of, has_cell, steps};
ghost use Rattle.gm_board.specs.Cells.{is_mine, is_theirs, number_of};
ghost use Rattle.gm_dao.specs.DaoRules.{has_formation as has_formation_of, has_trapped as has_trapped_of, legal, can_move as can_move_of, end_by_last_move as over_of, play as play_of, dao};
ghost use Rattle.gm_dao.specs.inner.MaskSlides.{AreMovesBelow};

use crate::board::Board;
use crate::formations::{has_formation, has_trapped};
use crate::slides::{can_slide, count_goals, goals};
use arrayvec::ArrayVec;
use gm_game::limits::MOVES;
use gm_game::position::End;
use gm_pieces::step::Step;

/// The number of pieces of each side.
pub const PIECES: u32 = 4;

/// All numbers of moves are below this.
pub const NUMBERS: u32 = 256;

/// Returns whether the mover has a formation.
#[tactic(auto, using(crate::proofs::MoveSteps::own_formation))]
pub fn has_own_formation(board: Board) -> bool
    ensures { result ≡ has_formation_of is_mine (board_of 16 board.mine board.theirs) }
{
    has_formation(board.mine)
}

/// Returns whether the opponent has a formation.
#[tactic(auto, using(crate::proofs::MoveSteps::their_formation))]
pub fn has_their_formation(board: Board) -> bool
    ensures { result ≡ has_formation_of is_theirs (board_of 16 board.mine board.theirs) }
{
    has_formation(board.theirs)
}

/// Returns whether a piece of the mover's is trapped in a corner.
#[tactic(auto, using(crate::proofs::MoveSteps::trapped_is))]
pub fn is_trapped(board: Board) -> bool
    ensures { result ≡ has_trapped_of (board_of 16 board.mine board.theirs) }
{
    has_trapped(board.mine, board.theirs)
}

/// Returns whether a board is legal: each side has four pieces, and the mover has no formation.
#[tactic(auto, using(crate::proofs::MoveSteps::legal_is))]
pub fn is_legal_board(board: Board) -> bool
    ensures { result ≡ legal (board_of 16 board.mine board.theirs) }
{
    board.own_pieces() == PIECES && board.their_pieces() == PIECES && !has_own_formation(board)
}

/// Returns whether the move with this number can be made.
#[tactic(auto, using(gm_board::specs::Images::board_of, crate::proofs::MoveSteps::from_below, crate::proofs::MoveSteps::to_below, crate::proofs::MoveSteps::no_move_by))]
pub fn can_move(board: Board, number: u32) -> bool
    requires { number < 256 }
    ensures { result ≡ can_move_of (board_of 16 board.mine board.theirs) number }
{
    let step = Step::numbered(number);
    board.has_mine(step.from) && can_slide(board.free(), board.taken(), step.from, step.to)
}

/// Returns how many moves could be made if the game were not over.
#[tactic(auto, using(gm_board::specs::Images::board_of))]
pub fn count_moves(board: Board) -> usize
    ensures { result ≡ length (steps dao (board_of 16 board.mine board.theirs)) }
{
    let free = board.free();
    let mut count = 0;
    let mut rest = board.mine;
    let mut next = 0;
    while rest != 0 {
        let skipped = rest.trailing_zeros();
        next += skipped;
        count += count_goals(free, next);
        next += 1;
        rest = rest >> skipped >> 1;
    }
    count as usize
}

/// Returns whether no move can be made.
pub fn is_stuck(board: Board) -> bool
    ensures { result ≡ (length (steps dao (board_of 16 board.mine board.theirs)) == 0) }
{
    count_moves(board) == 0
}

/// Returns how the last move has ended the game, if it has: the mover loses if the opponent has a formation, which is tested first, and wins if a piece of the
/// mover's is trapped in a corner.
#[tactic(auto, unfolding(crate::specs::DaoRules::end_by_last_move))]
pub fn end_by_last_move(board: Board) -> Option<End>
    ensures { result ≡ over_of (board_of 16 board.mine board.theirs) }
{
    if has_their_formation(board) {
        Some(End::Lose)
    } else if is_trapped(board) {
        Some(End::Win)
    } else {
        None
    }
}

// Adds the numbers of the moves of the mover's piece on a cell.
fn push_moves(list: &mut ArrayVec<u32, MOVES>, board: Board, from: u32)
    requires cell { from < 16 }
    requires few { length (steps dao (board_of 16 board.mine board.theirs)) ≤ 128 }
    requires own { has_cell board.mine from ≡ true }
    requires before { AreMovesBelow (board_of 16 board.mine board.theirs) (16 * from) list.old.items }
    ensures { AreMovesBelow (board_of 16 board.mine board.theirs) (16 * from + 16) list.new.items }
{
    let reached = goals(board.free(), board.taken(), from);
    let mut rest = reached;
    let mut next = 0;
    while rest != 0 {
        let skipped = rest.trailing_zeros();
        next += skipped;
        list.push(16 * from + next);
        next += 1;
        rest = rest >> skipped >> 1;
    }
}

/// Returns the numbers of the moves that could be made if the game were not over, ascending.
#[tactic(auto, using(gm_board::specs::Images::board_of, crate::specs::laws::BoardFacts::legal_in, crate::specs::laws::MoveFacts::steps_few, crate::proofs::LoopSteps::moves_skip, crate::proofs::LoopSteps::moves_end, gm_board::specs::laws::NextCells::next_cell))]
pub fn open_moves(board: Board) -> ArrayVec<u32, MOVES>
    requires { legal (board_of 16 board.mine board.theirs) ≡ true }
    ensures { result.items ≡ steps dao (board_of 16 board.mine board.theirs) }
{
    let mut list = ArrayVec::new();
    let mut rest = board.mine;
    let mut next = 0;
    while rest != 0 {
        let skipped = rest.trailing_zeros();
        next += skipped;
        push_moves(&mut list, board, next);
        next += 1;
        rest = rest >> skipped >> 1;
    }
    list
}

/// Returns the board after a move, as the other side sees it.
#[tactic(auto, unfolding(crate::specs::DaoRules::play))]
pub fn play(board: Board, number: u32) -> Board
    requires { can_move_of (board_of 16 board.mine board.theirs) number ≡ true }
    ensures mine { result.mine ≡ board.theirs }
    ensures board { board_of 16 result.mine result.theirs ≡ play_of (board_of 16 board.mine board.theirs) number }
{
    let step = Step::numbered(number);
    board.gone(step.from, step.to)
}
