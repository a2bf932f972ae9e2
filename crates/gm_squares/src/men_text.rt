//! Texts of boards and moves.
ghost use Rattle.std.specs.Prelude.{◌≡◌, ◌+◌, ◌<◌, ◌≤◌, ◌/◌, ◌%◌, ℕ, slice_index, true, if◌then◌else◌};
ghost use Rattle.gm_squares.specs.Kpk.{men_text};
ghost use Rattle.gm_squares.specs.Chess.{step_text as step_text_of, piece_char as piece_char_of, man_char as man_char_of, told};

use crate::attacks::TAKEN;
use crate::men::Men;
use crate::text::{byte_at, push_square, square_in};
use arrayvec::ArrayVec;
use gm_game::shown::Line;
use gm_game::text::push_text;

/// Returns the letter of the rook or queen.
pub fn piece_byte(queen: bool) -> u8
    ensures { result ≡ piece_char_of queen }
{
    if queen { b'Q' } else { b'R' }
}

// Returns the letter of a man.
fn man_byte(queen: bool, man: u32) -> u8
    ensures { result ≡ man_char_of queen man }
{
    match man {
        0 => b'K',
        1 => piece_byte(queen),
        _ => b'k',
    }
}

// Returns the byte of the side to move.
fn side_byte(white_moves: bool) -> u8
    ensures { result ≡ (if white_moves then 119 else 98) }
{
    if white_moves { b'w' } else { b'b' }
}

/// Returns the text of a board, with the letter of White's rook or queen.
#[tactic(auto, using(crate::specs::laws::MenTexts::bare_is, crate::specs::laws::MenTexts::armed_is))]
pub fn board_text(letter: u8, b: Men) -> Line
    requires king { b.king < 64 }
    requires foe { b.foe < 64 }
    requires piece { b.piece ≤ 64 }
    ensures { result.items ≡ men_text letter b }
{
    let mut line = ArrayVec::new();
    push_square(&mut line, b"K", b.king);
    if b.piece != TAKEN {
        push_square(&mut line, &[b' ', letter], b.piece);
    }
    push_square(&mut line, b" k", b.foe);
    push_text(&mut line, &[b' ', side_byte(b.white_moves)]);
    line
}

/// Returns the board with this text, if there is one.
#[tactic(auto, unfolding(crate::specs::Chess::told))]
pub fn board_in(text: &[u8]) -> Men
    ensures { result ≡ told text.now }
{
    if text.len() == 13 {
        Men {
            white_moves: byte_at(text, 12) == b'w',
            king: square_in(text, 1),
            piece: square_in(text, 5),
            foe: square_in(text, 9),
        }
    } else {
        Men {
            white_moves: true,
            king: square_in(text, 1),
            piece: TAKEN,
            foe: square_in(text, 5),
        }
    }
}

/// Returns the text of a move.
#[tactic(auto, unfolding(crate::specs::Chess::step_text, crate::specs::Chess::man, crate::specs::Chess::from_square, crate::specs::Chess::to_square))]
pub fn step_text(queen: bool, number: u32) -> Line
    requires { number < 12288 }
    ensures { result.items ≡ step_text_of queen number }
{
    let man = [man_byte(queen, number / 4096)];
    let mut line = ArrayVec::new();
    push_square(&mut line, &man, number / 64 % 64);
    push_square(&mut line, b"-", number % 64);
    line
}
