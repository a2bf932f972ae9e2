//! The board of chess: its squares, and the men that a position's text puts on them.
ghost use Rattle.std.specs.Prelude.{◌≡◌, ◌≤◌, [], ◌∷◌, length};
ghost use Rattle.gm_draw.specs.Chessboards.{chess_byte, chess_drawing, is_dark as is_dark_spec, man_on as man_on_spec, man_at as man_at_spec, chess_board as chess_board_of, chess_points};
ghost use Rattle.gm_draw.specs.Pictures.{texts};
ghost use Rattle.gm_draw.specs.Templates.{spread};

use crate::drawn::{DRAWING, Drawing};
use crate::svg::{next_x, next_y};
use arrayvec::ArrayVec;

/// The board, a template with a slot for each square.
const BOARD: &[u8] =
    b"    a b c d e f g h\n8   A A A A A A A A\n7   A A A A A A A A\n6   A A A A A A A A\n5   A A A A A A A A\n4   A A A A A A A A\n3   A A A A A A A A\n2   A A A A A A A A\n1   A A A A A A A A";

/// The names of the squares, from the eighth rank down.
const SQUARES: &[&[u8]] = &[
    b"a8", b"b8", b"c8", b"d8", b"e8", b"f8", b"g8", b"h8", b"a7", b"b7", b"c7", b"d7", b"e7",
    b"f7", b"g7", b"h7", b"a6", b"b6", b"c6", b"d6", b"e6", b"f6", b"g6", b"h6", b"a5", b"b5",
    b"c5", b"d5", b"e5", b"f5", b"g5", b"h5", b"a4", b"b4", b"c4", b"d4", b"e4", b"f4", b"g4",
    b"h4", b"a3", b"b3", b"c3", b"d3", b"e3", b"f3", b"g3", b"h3", b"a2", b"b2", b"c2", b"d2",
    b"e2", b"f2", b"g2", b"h2", b"a1", b"b1", b"c1", b"d1", b"e1", b"f1", b"g1", b"h1",
];

/// Returns the board of chess, a template with a slot for each square.
#[tactic(auto, unfolding(crate::specs::Chessboards::chess_board))]
pub fn chess_board() -> &'static [u8]
    ensures { result.now ≡ chess_board_of }
{
    BOARD
}

/// Returns the names of its squares, from the eighth rank down.
#[tactic(auto, unfolding(crate::specs::Chessboards::chess_points))]
pub fn chess_squares() -> &'static [&'static [u8]]
    ensures { texts result.now ≡ chess_points }
{
    SQUARES
}

/// Tests whether the square at a point is dark.
pub(crate) fn is_dark(x: u64, y: u64) -> bool
    ensures { result ≡ is_dark_spec x y }
{
    (x / 40 + y / 40) % 2 == 0
}

// Returns the letter of the man on the square of a file and a rank, or 0 if there is none.
#[tactic(auto, unfolding(crate::specs::Chessboards::man_on))]
fn man_on(file: u64, rank: u64, text: &[u8]) -> u8
    ensures { result ≡ man_on_spec file rank text.now }
{
    match text {
        [man, f, r, _, rest @ ..] => {
            if u64::from(*f) == file && u64::from(*r) == rank {
                *man
            } else {
                man_on(file, rank, rest)
            }
        }
        _ => 0,
    }
}

/// Returns the letter of the man on the square at a point, by a position's text, or 0 if there is none.
pub(crate) fn man_at(text: &[u8], x: u64, y: u64) -> u8
    requires { x ≤ 16000 }
    ensures { result ≡ man_at_spec text.now x y }
{
    man_on(94 + x / 40, 58_u64.saturating_sub(y / 40), text)
}

// Returns the byte of a drawing for a byte of the board at a point.
fn byte_for(text: &[u8], x: u64, y: u64, byte: u8) -> u8
    requires { x ≤ 16000 }
    ensures { chess_byte text.now x y byte ≡ result ∷ [] }
{
    if !byte.is_ascii_uppercase() {
        return byte;
    }
    match man_at(text, x, y) {
        0 if is_dark(x, y) => b':',
        0 => b'.',
        man => man,
    }
}

// Returns a board with the men of a position's text.
fn filled(board: &[u8], text: &[u8]) -> Drawing
    requires { length board.now ≤ DRAWING }
    ensures { result.items ≡ spread (chess_byte text.now) 40 40 board.now }
{
    let mut drawing = ArrayVec::new();
    let mut x = 40;
    let mut y = 40;
    for byte in board {
        drawing.push(byte_for(text, x, y, *byte));
        x = next_x(x, *byte);
        y = next_y(y, *byte);
    }
    drawing
}

/// Returns the board of chess with the men of a position's text.
#[tactic(auto, unfolding(crate::specs::Chessboards::chess_drawing, crate::specs::Chessboards::chess_board))]
pub(crate) fn draw(text: &[u8]) -> Drawing
    ensures { result.items ≡ chess_drawing text.now }
{
    filled(BOARD, text)
}
