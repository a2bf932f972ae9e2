//! The segments of the square of side 5 that can be taken, found line by line.
ghost use Rattle.std.specs.Prelude.{◌≡◌, ℕ, ◌+◌, ◌*◌, ◌<◌, ◌≤◌, ◌++◌, take};
ghost use Rattle.std.specs.List.{filter};
ghost use Rattle.gm_board.specs.Masks.{has_cell};
ghost use Rattle.gm_tactix.specs.Board.{can_take};
ghost use Rattle.gm_tactix.specs.inner.CounterMasks.{counters_of};
ghost use Rattle.gm_tactix.specs.inner.Lines.{line_cell, lies_in, line_segments, segments_by_line};

/// For the first row and the first column, and each content: the numbers of its segments of that line, and zeros behind them.
static BLOCKS: [[[u16; 16]; 32]; 2] = [
    [
        [0, 0, 0, 0, 0, 0, 0, 0, 0, 0, 0, 0, 0, 0, 0, 0],
        [2, 0, 0, 0, 0, 0, 0, 0, 0, 0, 0, 0, 0, 0, 0, 0],
        [18, 0, 0, 0, 0, 0, 0, 0, 0, 0, 0, 0, 0, 0, 0, 0],
        [2, 4, 18, 0, 0, 0, 0, 0, 0, 0, 0, 0, 0, 0, 0, 0],
        [34, 0, 0, 0, 0, 0, 0, 0, 0, 0, 0, 0, 0, 0, 0, 0],
        [2, 34, 0, 0, 0, 0, 0, 0, 0, 0, 0, 0, 0, 0, 0, 0],
        [18, 20, 34, 0, 0, 0, 0, 0, 0, 0, 0, 0, 0, 0, 0, 0],
        [2, 4, 6, 18, 20, 34, 0, 0, 0, 0, 0, 0, 0, 0, 0, 0],
        [50, 0, 0, 0, 0, 0, 0, 0, 0, 0, 0, 0, 0, 0, 0, 0],
        [2, 50, 0, 0, 0, 0, 0, 0, 0, 0, 0, 0, 0, 0, 0, 0],
        [18, 50, 0, 0, 0, 0, 0, 0, 0, 0, 0, 0, 0, 0, 0, 0],
        [2, 4, 18, 50, 0, 0, 0, 0, 0, 0, 0, 0, 0, 0, 0, 0],
        [34, 36, 50, 0, 0, 0, 0, 0, 0, 0, 0, 0, 0, 0, 0, 0],
        [2, 34, 36, 50, 0, 0, 0, 0, 0, 0, 0, 0, 0, 0, 0, 0],
        [18, 20, 22, 34, 36, 50, 0, 0, 0, 0, 0, 0, 0, 0, 0, 0],
        [2, 4, 6, 8, 18, 20, 22, 34, 36, 50, 0, 0, 0, 0, 0, 0],
        [66, 0, 0, 0, 0, 0, 0, 0, 0, 0, 0, 0, 0, 0, 0, 0],
        [2, 66, 0, 0, 0, 0, 0, 0, 0, 0, 0, 0, 0, 0, 0, 0],
        [18, 66, 0, 0, 0, 0, 0, 0, 0, 0, 0, 0, 0, 0, 0, 0],
        [2, 4, 18, 66, 0, 0, 0, 0, 0, 0, 0, 0, 0, 0, 0, 0],
        [34, 66, 0, 0, 0, 0, 0, 0, 0, 0, 0, 0, 0, 0, 0, 0],
        [2, 34, 66, 0, 0, 0, 0, 0, 0, 0, 0, 0, 0, 0, 0, 0],
        [18, 20, 34, 66, 0, 0, 0, 0, 0, 0, 0, 0, 0, 0, 0, 0],
        [2, 4, 6, 18, 20, 34, 66, 0, 0, 0, 0, 0, 0, 0, 0, 0],
        [50, 52, 66, 0, 0, 0, 0, 0, 0, 0, 0, 0, 0, 0, 0, 0],
        [2, 50, 52, 66, 0, 0, 0, 0, 0, 0, 0, 0, 0, 0, 0, 0],
        [18, 50, 52, 66, 0, 0, 0, 0, 0, 0, 0, 0, 0, 0, 0, 0],
        [2, 4, 18, 50, 52, 66, 0, 0, 0, 0, 0, 0, 0, 0, 0, 0],
        [34, 36, 38, 50, 52, 66, 0, 0, 0, 0, 0, 0, 0, 0, 0, 0],
        [2, 34, 36, 38, 50, 52, 66, 0, 0, 0, 0, 0, 0, 0, 0, 0],
        [18, 20, 22, 24, 34, 36, 38, 50, 52, 66, 0, 0, 0, 0, 0, 0],
        [2, 4, 6, 8, 10, 18, 20, 22, 24, 34, 36, 38, 50, 52, 66, 0],
    ],
    [
        [0, 0, 0, 0, 0, 0, 0, 0, 0, 0, 0, 0, 0, 0, 0, 0],
        [0, 0, 0, 0, 0, 0, 0, 0, 0, 0, 0, 0, 0, 0, 0, 0],
        [0, 0, 0, 0, 0, 0, 0, 0, 0, 0, 0, 0, 0, 0, 0, 0],
        [5, 0, 0, 0, 0, 0, 0, 0, 0, 0, 0, 0, 0, 0, 0, 0],
        [0, 0, 0, 0, 0, 0, 0, 0, 0, 0, 0, 0, 0, 0, 0, 0],
        [0, 0, 0, 0, 0, 0, 0, 0, 0, 0, 0, 0, 0, 0, 0, 0],
        [85, 0, 0, 0, 0, 0, 0, 0, 0, 0, 0, 0, 0, 0, 0, 0],
        [5, 7, 85, 0, 0, 0, 0, 0, 0, 0, 0, 0, 0, 0, 0, 0],
        [0, 0, 0, 0, 0, 0, 0, 0, 0, 0, 0, 0, 0, 0, 0, 0],
        [0, 0, 0, 0, 0, 0, 0, 0, 0, 0, 0, 0, 0, 0, 0, 0],
        [0, 0, 0, 0, 0, 0, 0, 0, 0, 0, 0, 0, 0, 0, 0, 0],
        [5, 0, 0, 0, 0, 0, 0, 0, 0, 0, 0, 0, 0, 0, 0, 0],
        [165, 0, 0, 0, 0, 0, 0, 0, 0, 0, 0, 0, 0, 0, 0, 0],
        [165, 0, 0, 0, 0, 0, 0, 0, 0, 0, 0, 0, 0, 0, 0, 0],
        [85, 87, 165, 0, 0, 0, 0, 0, 0, 0, 0, 0, 0, 0, 0, 0],
        [5, 7, 9, 85, 87, 165, 0, 0, 0, 0, 0, 0, 0, 0, 0, 0],
        [0, 0, 0, 0, 0, 0, 0, 0, 0, 0, 0, 0, 0, 0, 0, 0],
        [0, 0, 0, 0, 0, 0, 0, 0, 0, 0, 0, 0, 0, 0, 0, 0],
        [0, 0, 0, 0, 0, 0, 0, 0, 0, 0, 0, 0, 0, 0, 0, 0],
        [5, 0, 0, 0, 0, 0, 0, 0, 0, 0, 0, 0, 0, 0, 0, 0],
        [0, 0, 0, 0, 0, 0, 0, 0, 0, 0, 0, 0, 0, 0, 0, 0],
        [0, 0, 0, 0, 0, 0, 0, 0, 0, 0, 0, 0, 0, 0, 0, 0],
        [85, 0, 0, 0, 0, 0, 0, 0, 0, 0, 0, 0, 0, 0, 0, 0],
        [5, 7, 85, 0, 0, 0, 0, 0, 0, 0, 0, 0, 0, 0, 0, 0],
        [245, 0, 0, 0, 0, 0, 0, 0, 0, 0, 0, 0, 0, 0, 0, 0],
        [245, 0, 0, 0, 0, 0, 0, 0, 0, 0, 0, 0, 0, 0, 0, 0],
        [245, 0, 0, 0, 0, 0, 0, 0, 0, 0, 0, 0, 0, 0, 0, 0],
        [5, 245, 0, 0, 0, 0, 0, 0, 0, 0, 0, 0, 0, 0, 0, 0],
        [165, 167, 245, 0, 0, 0, 0, 0, 0, 0, 0, 0, 0, 0, 0, 0],
        [165, 167, 245, 0, 0, 0, 0, 0, 0, 0, 0, 0, 0, 0, 0, 0],
        [85, 87, 89, 165, 167, 245, 0, 0, 0, 0, 0, 0, 0, 0, 0, 0],
        [5, 7, 9, 11, 85, 87, 89, 165, 167, 245, 0, 0, 0, 0, 0, 0],
    ],
];

/// How many segments each of these blocks has.
static COUNTS: [[u8; 32]; 2] = [
    [
        0, 1, 1, 3, 1, 2, 3, 6, 1, 2, 2, 4, 3, 4, 6, 10, 1, 2, 2, 4, 2, 3, 4, 7, 3, 4, 4, 6, 6, 7,
        10, 15,
    ],
    [
        0, 0, 0, 1, 0, 0, 1, 3, 0, 0, 0, 1, 1, 1, 3, 6, 0, 0, 0, 1, 0, 0, 1, 3, 1, 1, 1, 2, 3, 3,
        6, 10,
    ],
];

/// What the numbers of a line's segments are above those of the first row or the first column.
static SHIFTS: [u16; 10] = [0, 80, 160, 240, 320, 0, 16, 32, 48, 64];

/// Writes the numbers of the segments of the square of side 5 that can be taken, line by line. Returns their count; the numbers behind them are meaningless. No
/// branch depends on the segments, because it would be mispredicted.
pub fn list_takeable(counters: u32, numbers: &mut [u16; 132]) -> usize
    ensures numbers { take result numbers.new ≡ filter (can_take 5 (counters_of 25 counters)) segments_by_line }
    ensures count { result ≤ 125 }
{
    let mut count = 0;
    for line in 0..10 {
        count = put_line(numbers, count, line, content(counters, line));
    }
    count
}

// Returns which cells of a line have counters: bit 0 for its least cell.
#[tactic(auto, using(crate::proofs::LineContents::row_cell, crate::proofs::LineContents::column_cell))]
fn content(counters: u32, line: usize) -> usize
    requires line { line < 10 }
    ensures within { result < 32 }
    ensures cells { (place : ℕ) → place < 5 → has_cell result place ≡ has_cell counters (line_cell line place) }
{
    if line < 5 {
        return (counters >> (5 * line) & 31) as usize;
    }
    // The product gathers the cells of the first column, five apart, into five bits that follow one another.
    let column = u64::from(counters >> (line - 5) & 0x108421);
    (column * 0x111110 >> 20 & 31) as usize
}

// Puts the numbers of a line's segments that lie in its content behind the first `count` numbers. The numbers behind them are meaningless. Returns the new
// count.
#[tactic(auto, using(crate::proofs::LineTable::block, crate::proofs::LineTable::shifted, crate::proofs::LineTable::few, crate::proofs::LineTable::small, crate::proofs::LineTable::most, crate::proofs::LineTable::long, crate::proofs::LineSegments::put_more, crate::proofs::LineSegments::put_all))]
fn put_line(numbers: &mut [u16; 132], count: usize, line: usize, content: usize) -> usize
    requires line { line < 10 }
    requires content { content < 32 }
    requires room { count ≤ 116 }
    ensures numbers { take result numbers.new ≡ take count numbers.old ++ filter (lies_in line content) (line_segments line) }
    ensures row { result ≤ count + 15 }
    ensures column { 5 ≤ line → result ≤ count + 10 }
{
    let block = &BLOCKS[line / 5][content];
    let shift = SHIFTS[line];
    for place in 0..16 {
        numbers[count + place] = block[place] + shift;
    }
    count + usize::from(COUNTS[line / 5][content])
}
