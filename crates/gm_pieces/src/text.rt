//! Texts of boards: a byte for each cell.
ghost use Rattle.std.specs.Prelude.{◌≡◌, ℕ, ◌<◌, ◌≤◌, ◌^◌, ◌&&◌, ◌==◌, nat_lt, bit_and, List, length, slice_index};
ghost use Rattle.gm_board.specs.Images.{board_of};
ghost use Rattle.gm_board.specs.Masks.{has_cell};
ghost use Rattle.gm_board.specs.declared.cell.Cell.{Cell as BoardCell};
ghost use Rattle.gm_pieces.specs.SideTexts.{cell_char, cells_text as board_text_of};

use arrayvec::ArrayVec;
use gm_board::cell::Cell;
use gm_game::shown::Line;

/// The byte of a piece of the player to move.
const MINE: u8 = b'x';

/// The byte of a piece of the opponent's.
const THEIRS: u8 = b'o';

/// The byte of an empty cell.
const EMPTY: u8 = b'.';

// Returns the byte of a cell.
fn cell_byte(cell: Cell) -> u8
    ensures { result ≡ cell_char cell }
{
    match cell {
        Cell::Empty => EMPTY,
        Cell::Mine => MINE,
        Cell::Theirs => THEIRS,
    }
}

/// Returns the text of a board of this many cells with these pieces: its cells in order, `x` for a piece of the mover's, `o` for one of the opponent's and `.`
/// for an empty cell (docs/GAMES.md, Common forms).
#[tactic(auto, using(crate::proofs::TextSteps::text_none, crate::proofs::TextSteps::text_more, crate::proofs::TextSteps::text_long))]
pub fn board_text(cells: u32, mine: u32, theirs: u32) -> Line
    requires { cells ≤ 25 }
    ensures { result.items ≡ board_text_of (board_of cells mine theirs) }
{
    let mut line = ArrayVec::new();
    for cell in 0..cells {
        line.push(cell_byte(Cell::at(mine, theirs, cell)));
    }
    line
}

/// Returns whether the text has this byte in the place of a cell. Any bytes may be given.
pub fn has_mark(text: &[u8], byte: u8, cell: u32) -> bool
    requires { 0 < byte }
    ensures { result ≡ (slice_index text.now cell == byte) }
{
    match text.get(cell as usize) {
        Some(found) => *found == byte,
        None => false,
    }
}

/// Returns the mask of the cells in whose places the text has this byte. Any bytes may be given.
#[tactic(auto, using(gm_board::specs::laws::Marks::read_in, gm_board::specs::laws::Marks::read_out, gm_board::specs::laws::Marks::read_start, gm_board::specs::laws::MaskChanges::with_within))]
pub fn marks(cells: u32, text: &[u8], byte: u8) -> u32
    requires few { cells ≤ 25 }
    requires some { 0 < byte }
    ensures within { result < 2 ^ cells }
    ensures value { (k : ℕ) → has_cell result k ≡ (nat_lt k cells && (slice_index text.now k == byte)) }
{
    let mut marks = 0;
    for cell in 0..cells {
        if has_mark(text, byte, cell) {
            marks |= 1 << cell;
        }
    }
    marks
}

/// Returns the masks of the mover's and of the opponent's pieces on the board of this many cells that has this text, if there is one. Any bytes may be given.
#[tactic(auto, using(crate::proofs::TextSteps::read_all))]
pub fn masks_in(cells: u32, text: &[u8]) -> (u32, u32)
    requires { cells ≤ 25 }
    ensures mine_within { result.0 < 2 ^ cells }
    ensures theirs_within { result.1 < 2 ^ cells }
    ensures apart { bit_and result.0 result.1 ≡ 0 }
    ensures board { (b : List BoardCell) → length b ≡ cells → board_text_of b ≡ text.now → b ≡ board_of cells result.0 result.1 }
{
    (marks(cells, text, MINE), marks(cells, text, THEIRS))
}
