//! The dark squares of a chess board, numbered from 0, four in a row, from a1 to h8; the squares of a move.
ghost use Rattle.std.specs.Prelude.{◌≡◌, ◌<◌, true};
ghost use Rattle.gm_squares.specs.Squares.{goes_on_board};
ghost use Rattle.gm_squares.specs.FoxHounds.{dark as dark_of, dark_in as dark_in_of, from_square, way, to_square as to_square_of, leads as leads_of};

use crate::text::square_in;

/// The ways forwards are from this one on.
const FORWARDS: u32 = 2;

/// The square that each move leads to, by its number: 32 for a move off the board.
const TO: [u32; 128] = [
    32, 32, 32, 4, 32, 32, 4, 5, 32, 32, 5, 6, 32, 32, 6, 7, 0, 1, 8, 9, 1, 2, 9, 10, 2, 3, 10, 11,
    3, 32, 11, 32, 32, 4, 32, 12, 4, 5, 12, 13, 5, 6, 13, 14, 6, 7, 14, 15, 8, 9, 16, 17, 9, 10,
    17, 18, 10, 11, 18, 19, 11, 32, 19, 32, 32, 12, 32, 20, 12, 13, 20, 21, 13, 14, 21, 22, 14, 15,
    22, 23, 16, 17, 24, 25, 17, 18, 25, 26, 18, 19, 26, 27, 19, 32, 27, 32, 32, 20, 32, 28, 20, 21,
    28, 29, 21, 22, 29, 30, 22, 23, 30, 31, 24, 25, 32, 32, 25, 26, 32, 32, 26, 27, 32, 32, 27, 32,
    32, 32,
];

/// Returns the square of the chess board that a dark square is.
pub fn dark(square: u32) -> u32
    requires { square < 32 }
    ensures value { result ≡ dark_of square }
    ensures small { result < 64 }
{
    2 * square + square / 4 % 2
}

/// Returns the dark square with this text, if there is one. Any bytes may be given.
pub fn dark_in(text: &[u8], place: usize) -> u32
    requires { place < 100 }
    ensures value { result ≡ dark_in_of text.now place }
    ensures small { result < 32 }
{
    square_in(text, place) / 2 % 32
}

/// Returns the square that a move leads to.
#[tactic(auto, using(crate::specs::laws::DarkFacts::to_is, crate::specs::laws::DarkFacts::to_small))]
pub fn to_square(number: u32) -> u32
    requires below { number < 128 }
    requires on { goes_on_board (way number) (dark_of (from_square number)) ≡ true }
    ensures value { result ≡ to_square_of number }
    ensures small { result < 32 }
{
    TO[number as usize]
}

// Returns whether a move stays on the board.
#[tactic(auto, using(crate::specs::laws::DarkFacts::known))]
fn stays(number: u32) -> bool
    requires { number < 128 }
    ensures { result ≡ goes_on_board (way number) (dark_of (from_square number)) }
{
    TO[number as usize] < 32
}

/// Returns whether a move of a side stays on the board, and goes forwards if it is a hound's.
pub fn leads(hounds: bool, number: u32) -> bool
    requires { number < 128 }
    ensures { result ≡ leads_of hounds number }
{
    stays(number) && (!hounds || FORWARDS <= number % 4)
}
