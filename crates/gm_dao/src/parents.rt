//! Moves taken back: the boards before a board.
//!
//! Each piece that may have moved is put on each cell from which it can have slid to its cell, with the roles of the sides swapped. Of these boards, those are
//! kept from which the game goes on by the move that leads back.
ghost use Rattle.std.specs.Prelude.{◌≡◌, ◌<◌, ◌≤◌, ◌+◌, ◌*◌, true, length, []};
ghost use Rattle.gm_dao.specs.Lower.{map, MatchOption, None, Some, put_all, board_of, WasStep, brought_back, Theirs, before_at, befores};
ghost use Rattle.gm_board.specs.Cells.{cell_at};
ghost use Rattle.gm_pieces.specs.MoveGames.{goes_on as goes_on_of};
ghost use Rattle.gm_dao.specs.DaoRules.{can_have_led_here as was_moved_of, undo as taken_back_of, legal, slides, least_index_of, dao};
ghost use Rattle.gm_dao.specs.inner.MaskSlides.{is_unended as is_open_of, befores_below, AreBeforesBelow};

use crate::board::{Board, least_index};
use crate::moves::{can_move, end_by_last_move, has_own_formation, is_legal_board, is_trapped};
use crate::slides::{are_in_line, sources};
use arrayvec::ArrayVec;
use gm_game::limits::PARENTS;
use gm_pieces::ascending::put;
use gm_pieces::step::Step;

/// Returns whether the move with this number can have led to the board.
#[tactic(auto, using(crate::proofs::MoveSteps::from_below, crate::proofs::MoveSteps::to_below), unfolding(crate::specs::DaoRules::can_have_led_here))]
pub fn can_have_led_here(board: Board, number: u32) -> bool
    requires { number < 256 }
    ensures { result ≡ was_moved_of (board_of 16 board.mine board.theirs) number }
{
    let step = Step::numbered(number);
    are_in_line(step.from, step.to) && board.has_theirs(step.to) && board.is_free(step.from)
}

/// Returns the board before the move with this number.
#[tactic(auto, unfolding(crate::specs::DaoRules::undo))]
pub fn undo(board: Board, number: u32) -> Board
    requires { was_moved_of (board_of 16 board.mine board.theirs) number ≡ true }
    ensures { board_of 16 result.mine result.theirs ≡ taken_back_of (board_of 16 board.mine board.theirs) number }
{
    let step = Step::numbered(number);
    board.brought_back(step.from, step.to)
}

/// Returns whether the board is a legal one of the tier from which the game goes on by this move. The move is tested before the board.
pub fn goes_on(tier: u64, board: Board, number: u32) -> bool
    requires { number < 256 }
    ensures { result ≡ goes_on_of dao tier (board_of 16 board.mine board.theirs) number }
{
    tier == 0
        && can_move(board, number)
        && is_legal_board(board)
        && end_by_last_move(board).is_none()
}

// Returns whether the mover has neither a formation nor a trapped piece.
fn is_open(board: Board) -> bool
    ensures { result ≡ is_open_of (board_of 16 board.mine board.theirs) }
{
    !has_own_formation(board) && !is_trapped(board)
}

// Returns the board of the tier before the opponent's piece slid from one cell to another, if there is one. That the board after it is legal leaves little to
// be tested: each side has its pieces, and the other side no formation.
#[tactic(auto, using(gm_board::specs::laws::Images::board_length, gm_pieces::specs::laws::MaskFacts::was_within, crate::proofs::BeforeSteps::no_before, crate::proofs::BeforeSteps::earlier_legal, crate::proofs::BeforeSteps::one_before))]
fn gone_before(tier: u64, board: Board, from: u32, to: u32) -> Option<Board>
    requires from { from < 16 }
    requires to { to < 16 }
    requires legal { legal (board_of 16 board.mine board.theirs) ≡ true }
    requires was { WasStep (board_of 16 board.mine board.theirs) from to }
    requires slid { slides (brought_back (board_of 16 board.mine board.theirs) from to) from to ≡ true }
    ensures { MatchOption result
        (before_at dao tier (board_of 16 board.mine board.theirs) (16 * from + to) ≡ None)
        (λ b. (before_at dao tier (board_of 16 board.mine board.theirs) (16 * from + to) ≡ Some (board_of 16 b.mine b.theirs))
        × (legal (board_of 16 b.mine b.theirs) ≡ true)) }
{
    let earlier = board.brought_back(from, to);
    (tier == 0 && is_open(earlier)).then_some(earlier)
}

// Puts into the list the least indexes of the boards before the moves that end on a cell.
#[tactic(auto, using(gm_board::specs::laws::NextCells::next_cell, gm_board::specs::laws::NextCells::cell_below))]
fn put_befores(list: &mut ArrayVec<u64, PARENTS>, tier: u64, board: Board, to: u32)
    requires cell { to < 16 }
    requires there { cell_at (board_of 16 board.mine board.theirs) to ≡ Theirs }
    requires legal { legal (board_of 16 board.mine board.theirs) ≡ true }
    requires few { length (befores_below tier (board_of 16 board.mine board.theirs) 256) ≤ 128 }
    requires before { AreBeforesBelow tier (board_of 16 board.mine board.theirs) (16 * to) list.old.items }
    ensures { AreBeforesBelow tier (board_of 16 board.mine board.theirs) (16 * to + 16) list.new.items }
{
    let came = sources(board.free(), board.taken(), to);
    let mut rest = came;
    let mut next = 0;
    while rest != 0 {
        let skipped = rest.trailing_zeros();
        next += skipped;
        match gone_before(tier, board, next, to) {
            Some(earlier) => put(list, least_index(earlier, None)),
            None => {}
        }
        next += 1;
        rest = rest >> skipped >> 1;
    }
}

/// Writes the least indexes of the boards of the tier from which a move leads to this one, ascending and once each, over what the list holds.
#[tactic(auto, using(crate::proofs::CameSteps::befores_room))]
pub fn fill_parents(tier: u64, board: Board, list: &mut ArrayVec<u64, PARENTS>)
    requires { legal (board_of 16 board.mine board.theirs) ≡ true }
    ensures { list.new.items ≡ put_all [] (map least_index_of (befores dao tier (board_of 16 board.mine board.theirs))) }
{
    list.clear();
    let mut rest = board.theirs;
    let mut next = 0;
    while rest != 0 {
        let skipped = rest.trailing_zeros();
        next += skipped;
        put_befores(list, tier, board, next);
        next += 1;
        rest = rest >> skipped >> 1;
    }
}
