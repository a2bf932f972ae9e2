//! Masks of the squares of a chess board: the lines through a square, and the squares that a man reaches along them.
//! Each call takes constant time, without a loop.
ghost use Rattle.std.specs.Prelude.{◌≡◌, ℕ, ◌+◌, ◌*◌, ◌<◌, ◌&&◌, ◌||◌, ◌==◌, not, true, false};
ghost use Rattle.gm_board.specs.Masks.{has_cell};
ghost use Rattle.gm_squares.specs.inner.Lines.{line_mask, lies_between, is_open_line};

/// The diagonals that go up from left to right, the shortest at the right end of the first row first.
pub const DIAGONALS: [u64; 15] = [
    0x0000_0000_0000_0080,
    0x0000_0000_0000_8040,
    0x0000_0000_0080_4020,
    0x0000_0000_8040_2010,
    0x0000_0080_4020_1008,
    0x0000_8040_2010_0804,
    0x0080_4020_1008_0402,
    0x8040_2010_0804_0201,
    0x4020_1008_0402_0100,
    0x2010_0804_0201_0000,
    0x1008_0402_0100_0000,
    0x0804_0201_0000_0000,
    0x0402_0100_0000_0000,
    0x0201_0000_0000_0000,
    0x0100_0000_0000_0000,
];

/// The diagonals that go down from left to right, the one of the first square first.
pub const FALLING: [u64; 15] = [
    0x0000_0000_0000_0001,
    0x0000_0000_0000_0102,
    0x0000_0000_0001_0204,
    0x0000_0000_0102_0408,
    0x0000_0001_0204_0810,
    0x0000_0102_0408_1020,
    0x0001_0204_0810_2040,
    0x0102_0408_1020_4080,
    0x0204_0810_2040_8000,
    0x0408_1020_4080_0000,
    0x0810_2040_8000_0000,
    0x1020_4080_0000_0000,
    0x2040_8000_0000_0000,
    0x4080_0000_0000_0000,
    0x8000_0000_0000_0000,
];

/// Returns the mask of a square, which is empty for a man that has been taken.
#[tactic(auto, using(crate::specs::laws::LineFacts::lone_square, crate::specs::laws::LineFacts::no_square))]
pub fn square_mask(square: u32) -> u64
    ensures { (k : ℕ) → k < 64 → has_cell result k ≡ (k == square) }
{
    if square < 64 { 1 << square } else { 0 }
}

/// Returns the squares one row and two rows above a square.
pub fn squares_above(square: u32) -> u64
    requires { square < 64 }
    ensures { (k : ℕ) → k < 64 → has_cell result k ≡ (k == square + 8 || k == square + 16) }
{
    square_mask(square + 8) | square_mask(square + 16)
}

/// Returns the square that is a number of rows below another; none if the board has no such row.
#[tactic(auto, using(crate::specs::laws::LineFacts::rows_below, crate::specs::laws::LineFacts::none_below))]
pub fn square_below(square: u32, rows: u32) -> u64
    requires square { square < 64 }
    requires rows { rows < 8 }
    ensures { (k : ℕ) → k < 64 → has_cell result k ≡ (k + 8 * rows == square) }
{
    if square >= 8 * rows {
        square_mask(square - 8 * rows)
    } else {
        0
    }
}

/// Returns whether a mask has a square.
#[tactic(auto, using(std::proofs::lemmas::Nat::Bits::shr_and_one))]
pub fn has_square(mask: u64, square: u32) -> bool
    requires { square < 64 }
    ensures { result ≡ has_cell mask square }
{
    mask >> square & 1 == 1
}

/// Returns the squares of the row of a square.
#[tactic(auto, unfolding(crate::specs::inner::Lines::line_mask))]
pub fn row(square: u32) -> u64
    requires { square < 64 }
    ensures { result ≡ line_mask 0 square }
{
    0xff << (square / 8 * 8)
}

/// Returns the squares of the file of a square.
#[tactic(auto, unfolding(crate::specs::inner::Lines::line_mask))]
pub fn file(square: u32) -> u64
    requires { square < 64 }
    ensures { result ≡ line_mask 1 square }
{
    0x0101_0101_0101_0101 << (square % 8)
}

/// Returns the squares of the diagonal of a square that goes up.
#[tactic(auto, unfolding(crate::specs::inner::Lines::line_mask))]
pub fn rising(square: u32) -> u64
    requires { square < 64 }
    ensures { result ≡ line_mask 2 square }
{
    DIAGONALS[(7 + square / 8 - square % 8) as usize]
}

/// Returns the squares of the diagonal of a square that goes down.
#[tactic(auto, unfolding(crate::specs::inner::Lines::line_mask))]
pub fn falling(square: u32) -> u64
    requires { square < 64 }
    ensures { result ≡ line_mask 3 square }
{
    FALLING[(square / 8 + square % 8) as usize]
}

// Returns the squares of a line past a man, as seen from a square that isn't the man's.
#[tactic(auto, using(crate::specs::laws::LineFacts::squares_above, crate::specs::laws::LineFacts::squares_below, crate::specs::laws::LineFacts::none_past))]
fn past(line: u64, from: u32, man: u32) -> u64
    requires from { from < 64 }
    requires apart { has_cell line from ≡ false }
    ensures { (k : ℕ) → k < 64 → has_cell result k ≡ (has_cell line man && lies_between from k man) }
{
    if man >= 64 || !has_square(line, man) {
        0
    } else if from < man {
        0xffff_ffff_ffff_fffe << man
    } else {
        (1 << man) - 1
    }
}

/// Returns the squares that a man reaches along a line from its square on it, with men on two others that stop it.
pub fn along(line: u64, from: u32, first: u32, second: u32) -> u64
    requires { from < 64 }
    ensures { (k : ℕ) → k < 64 → has_cell result k
        ≡ (has_cell line k && (not (k == from) && (is_open_line line from k first && is_open_line line from k second))) }
{
    let others = line & !square_mask(from);
    others & !past(others, from, first) & !past(others, from, second)
}

/// Returns the squares of a line whose numbers are between those of two squares.
#[tactic(auto, using(crate::specs::laws::LineFacts::squares_above, crate::specs::laws::LineFacts::squares_below, crate::specs::laws::LineFacts::part_between))]
pub fn between(line: u64, from: u32, to: u32) -> u64
    requires from { from < 64 }
    requires to { to < 64 }
    ensures { (k : ℕ) → k < 64 → has_cell result k ≡ (has_cell line k && lies_between from to k) }
{
    let (low, high) = (from.min(to), from.max(to));
    line & (0xffff_ffff_ffff_fffe << low) & ((1 << high) - 1)
}
