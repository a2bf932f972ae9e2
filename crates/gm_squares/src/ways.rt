//! Ways of men on the dark squares, as masks. Each call takes constant time, without a loop.
ghost use Rattle.std.specs.Prelude.{◌≡◌, ℕ, ◌+◌, ◌*◌, ◌<◌, ◌/◌, ◌&&◌, not, nat_le, nat_lt, ◌||◌, true};
ghost use Rattle.gm_board.specs.Masks.{has_cell};
ghost use Rattle.gm_pieces.specs.inner.Marking.{leads_here};
ghost use Rattle.gm_squares.specs.Squares.{goes_on_board};
ghost use Rattle.gm_squares.specs.FoxHounds.{dark, way as way_of, to_square, from_square, legal, can_move as can_move_of, fox_and_hounds};
ghost use Rattle.gm_squares.specs.laws.ChaseMarks.{by_ways as by_ways_of};

use crate::chase::{Chase, toggled};
use gm_pieces::marks::{MarkedRun, Marks};

/// Returns the squares from which a way leads to a square of a mask.
#[inline(always)]
#[tactic(auto, using(crate::specs::laws::WayFacts::back_left, crate::specs::laws::WayFacts::back_right, crate::specs::laws::WayFacts::on_left, crate::specs::laws::WayFacts::on_right))]
pub fn sources(way: u32, to: u32) -> u32
    requires { way < 4 }
    ensures { (s : ℕ) → s < 32 → has_cell result s
        ≡ (goes_on_board (way_of (way + 4 * s)) (dark (from_square (way + 4 * s))) && has_cell to (to_square (way + 4 * s))) }
{
    if way == 0 {
        (to << 5 & 0x0e0e_0e00) | (to << 4 & 0xf0f0_f0f0)
    } else if way == 1 {
        (to << 4 & 0x0f0f_0f00) | (to << 3 & 0x7070_7070)
    } else if way == 2 {
        (to >> 3 & 0x0e0e_0e0e) | (to >> 4 & 0x00f0_f0f0)
    } else {
        (to >> 4 & 0x0f0f_0f0f) | (to >> 5 & 0x0070_7070)
    }
}

/// Returns the squares from which a man of the side to move can go a way, if the game is not over.
#[inline(always)]
#[tactic(auto, using(crate::specs::laws::ChaseFacts::fox_below))]
pub fn goers(board: Chase, way: u32) -> u32
    requires legal { legal board ≡ true }
    requires way { way < 4 }
    ensures { (s : ℕ) → s < 32 → has_cell result s ≡ can_move_of board (way + 4 * s) }
{
    let fox = toggled(0, board.fox);
    let from = sources(way, !(board.hounds | fox));
    if !board.hounds_move {
        fox & from
    } else if way < 2 {
        0
    } else {
        board.hounds & from
    }
}

/// Returns the marks of the numbers of the squares that four masks have, one mask for each way.
#[inline(always)]
pub fn by_ways(a: u32, b: u32, c: u32, d: u32) -> Marks
    ensures { result ≡ by_ways_of a b c d }
{
    Marks {
        a: MarkedRun {
            first: 0,
            step: 4,
            marks: u64::from(a),
        },
        b: MarkedRun {
            first: 1,
            step: 4,
            marks: u64::from(b),
        },
        c: MarkedRun {
            first: 2,
            step: 4,
            marks: u64::from(c),
        },
        d: MarkedRun {
            first: 3,
            step: 4,
            marks: u64::from(d),
        },
    }
}

// Returns the squares above a row.
#[tactic(auto, using(crate::specs::laws::ChaseBack::past))]
fn past_row(row: u32) -> u32
    requires { row < 8 }
    ensures { (s : ℕ) → s < 32 → has_cell result s ≡ not (nat_le (s / 4) row) }
{
    0xffff_fff0 << (4 * row)
}

// Returns all squares if the lowest hound's row is below the fox's row, and else the squares below the fox's row.
#[tactic(auto, using(crate::specs::laws::ChaseBack::all_below, crate::specs::laws::ChaseBack::some_below))]
fn below_row(lowest: u32, row: u32) -> u32
    requires { row < 8 }
    ensures { (s : ℕ) → s < 32 → has_cell result s ≡ (nat_lt lowest row || nat_lt s (4 * row)) }
{
    if lowest < row {
        0xffff_ffff
    } else {
        (1 << (4 * row)) - 1
    }
}

/// Returns the squares from which a man of the side that has moved came a way, from a board at which the game was not over.
#[inline(always)]
#[tactic(auto, using(crate::specs::laws::ChaseFacts::fox_below))]
pub fn comers(board: Chase, way: u32) -> u32
    requires legal { legal board ≡ true }
    requires way { way < 4 }
    ensures { (s : ℕ) → s < 32 → has_cell result s ≡ leads_here fox_and_hounds 0 board (way + 4 * s) }
{
    let fox = toggled(0, board.fox);
    let free = !(board.hounds | fox);
    let row = board.hounds.trailing_zeros() / 4;
    if board.hounds_move {
        free & past_row(row) & sources(way, fox)
    } else if way < 2 {
        0
    } else {
        free & below_row(row, board.fox / 4) & sources(way, board.hounds)
    }
}
