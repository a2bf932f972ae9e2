//! Texts of boards and of moves.
ghost use Rattle.std.specs.Prelude.{◌≡◌, ◌<◌, ◌≤◌, ◌^◌, ◌*◌, ◌==◌, true, Bool, List, length, slice_index};
ghost use Rattle.gm_tactix.specs.Segments.{is_segment};
ghost use Rattle.gm_tactix.specs.inner.CounterMasks.{counters_of};
ghost use Rattle.gm_tactix.specs.Texts.{counter_text, board_text as board_text_of, last_cell as last_cell_of, segment_text as segment_text_of};
ghost use Rattle.gm_board.specs.Masks.{has_cell};

use arrayvec::ArrayVec;
use gm_board::square::square_cell_text;
use gm_game::shown::Line;
use gm_game::text::push_text;

/// The byte of a cell with a counter.
const COUNTER: u8 = b'x';

/// Returns the text of a board: its cells in order, `x` for a counter and `.` for an empty cell (docs/GAMES.md, Tac Tix).
#[tactic(auto, using(crate::specs::laws::SegmentFacts::square_few, crate::proofs::TextSteps::text_is))]
pub fn board_text(side: u32, counters: u32) -> Line
    requires { side ≤ 5 }
    ensures { result.items ≡ board_text_of (counters_of (side * side) counters) }
{
    gm_pieces::text::board_text(side * side, counters, 0)
}

/// Returns the mask of the cells of the square at which the text has the byte of a counter. Any bytes may be given.
#[tactic(auto, using(crate::specs::laws::SegmentFacts::square_few, crate::proofs::TextSteps::read_all))]
pub fn marks(side: u32, text: &[u8]) -> u32
    requires { side ≤ 5 }
    ensures within { result < 2 ^ (side * side) }
    ensures value { (b : List Bool) → length b ≡ side * side → board_text_of b ≡ text.now → b ≡ counters_of (side * side) result }
{
    gm_pieces::text::marks(side * side, text, COUNTER)
}

// Returns the last cell of a segment.
#[tactic(auto, using(crate::specs::laws::SegmentFacts::length_bounds))]
fn last_cell(side: u32, number: u32) -> u32
    requires low { 1 ≤ side }
    requires high { side ≤ 5 }
    requires segment { is_segment side number ≡ true }
    ensures { result ≡ last_cell_of side number }
{
    let stride = if number % 2 == 1 { side } else { 1 };
    number / 16 + stride * (number % 16 / 2 - 1)
}

/// Returns the text of a segment: its first cell, and for more than one cell `-` and its last (docs/GAMES.md, Tac Tix).
#[tactic(auto, using(crate::specs::laws::SegmentFacts::first_within, crate::specs::laws::SegmentFacts::length_bounds, crate::specs::laws::SegmentFacts::last_within), unfolding(crate::specs::Texts::segment_text))]
pub fn segment_text(side: u32, number: u32) -> Line
    requires low { 1 ≤ side }
    requires high { side ≤ 5 }
    requires segment { is_segment side number ≡ true }
    ensures { result.items ≡ segment_text_of side number }
{
    let mut line = ArrayVec::new();
    push_text(&mut line, &square_cell_text(side, number / 16));
    if number % 16 / 2 > 1 {
        push_text(&mut line, b"-");
        push_text(&mut line, &square_cell_text(side, last_cell(side, number)));
    }
    line
}
