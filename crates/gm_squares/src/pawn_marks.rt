//! Marks of the moves of king and pawn against king, made by tests of one number after the other.
ghost use Rattle.std.specs.Prelude.{◌≡◌, ◌+◌, ◌*◌, ◌<◌, ◌≤◌, ◌^◌, ℕ, true, false};
ghost use Rattle.gm_pieces.specs.inner.Tried.{run_at};
ghost use Rattle.gm_pieces.specs.laws.RunFacts.{IsRun};
ghost use Rattle.gm_pieces.specs.inner.Marking.{leads_here};
ghost use Rattle.gm_squares.specs.Kpk.{kpk, legal as legal_of, can_move as can_move_of};
ghost use Rattle.gm_squares.specs.inner.Runs.{row as row_of};
ghost use Rattle.gm_squares.specs.laws.PawnReach.{IsAmong};
ghost use Rattle.gm_squares.specs.laws.TestedPlaces.{passes_at as passes_at_of};
ghost use Rattle.gm_squares.specs.laws.PawnMarks.{passes as passes_of, bound_of, IsTested};

use crate::kpk::PawnRules;
use crate::lines::{square_below, squares_above};
use crate::pawns::{PawnBoard, tier_of};
use gm_pieces::candidates::Run;
use gm_pieces::marks::MarkedRun;
use gm_pieces::rules::MoveRules;

// Tests whether the move with this number could be made, or, with a tier, whether it led to the board from one of the tier from which the game went on.
fn passes(tier: Option<u64>, board: PawnBoard, number: u32) -> bool
    requires legal { legal_of board ≡ true }
    requires below { number < bound_of tier board }
    ensures { result ≡ passes_of tier board number }
{
    match tier {
        None => PawnRules::can_move(board, number),
        Some(tier) => {
            PawnRules::can_have_led_here(tier, board, number)
                && PawnRules::goes_on(tier, PawnRules::undo(tier, board, number), number)
        }
    }
}

// Tests whether a run has a place, and the number there passes the test.
#[tactic(auto, using(crate::specs::laws::PawnMarks::bound_small))]
fn passes_at(tier: Option<u64>, board: PawnBoard, run: Run, place: u32) -> bool
    requires legal { legal_of board ≡ true }
    requires below { (k : ℕ) → k < run.count → run_at run k < bound_of tier board }
    ensures { result ≡ passes_at_of (passes_of tier board) run place }
{
    place < run.count && passes(tier, board, run.first + run.step * place)
}

// Returns the mask of the places of a run whose numbers pass the test. Only those of `among` are tested.
#[tactic(auto, using(crate::specs::laws::PawnMarks::tested_within, crate::specs::laws::TestedPlaces::none_marked, crate::specs::laws::TestedPlaces::one_marked, crate::specs::laws::TestedPlaces::none_more, crate::specs::laws::TestedPlaces::one_fewer, crate::specs::laws::TestedPlaces::all_marked))]
fn tested_places(tier: Option<u64>, board: PawnBoard, run: Run, among: u64) -> u64
    requires legal { legal_of board ≡ true }
    requires few { run.count ≤ 64 }
    requires below { (k : ℕ) → k < run.count → run_at run k < bound_of tier board }
    requires among { IsAmong (passes_of tier board) run among }
    ensures within { result < 2 ^ run.count }
    ensures value { IsTested (passes_of tier board) run run.count result }
{
    let mut marks = 0;
    let mut left = among;
    while left != 0 {
        let place = left.trailing_zeros();
        if passes_at(tier, board, run, place) {
            marks |= 1 << place;
        }
        left &= !(1 << place);
    }
    marks
}

/// Returns a run with marks of its numbers that are moves of a board, or, with a tier, of moves that led to the board from one of the tier from which the game
/// went on. Takes the time of a test of each number whose place is in `among`, which has the places of all such moves.
#[tactic(auto, using(crate::specs::laws::PawnMarks::is_tested_run))]
pub fn tested_run(tier: Option<u64>, board: PawnBoard, run: Run, among: u64) -> MarkedRun
    requires legal { legal_of board ≡ true }
    requires few { run.count ≤ 64 }
    requires below { (k : ℕ) → k < run.count → run_at run k < bound_of tier board }
    requires among { IsAmong (passes_of tier board) run among }
    ensures { IsRun result (passes_of tier board) run.first run.step run.count }
{
    MarkedRun {
        first: run.first,
        step: run.step,
        marks: tested_places(tier, board, run, among),
    }
}

/// Returns a mask with the places of the moves of White's man that is not its king, among the numbers of its run.
pub fn second_among(board: PawnBoard, run: Run) -> u64
    requires legal { legal_of board ≡ true }
    requires few { run.count ≤ 64 }
    requires row { run.count ≡ 64 → run ≡ row_of (4096 + 64 * board.men.piece) 1 }
    ensures { IsAmong (can_move_of board) run result }
{
    if run.count == 64 && tier_of(board.kind) == 5 {
        squares_above(board.men.piece)
    } else {
        u64::MAX
    }
}

/// Returns a mask with the places of the moves by which White's man that is not its king has come, among the numbers of its run.
#[tactic(auto, using(crate::specs::laws::PawnTried::black_piece))]
pub fn earlier_among(tier: u64, board: PawnBoard) -> u64
    requires legal { legal_of board ≡ true }
    requires turn { board.men.white_moves ≡ false }
    ensures { IsAmong (leads_here kpk tier board) (row_of (4096 + board.men.piece) 64) result }
{
    let piece = board.men.piece;
    if tier == 5 {
        square_below(piece, 1) | square_below(piece, 2)
    } else {
        u64::MAX
    }
}
