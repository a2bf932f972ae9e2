//! Texts of squares, written and read.
ghost use Rattle.std.specs.Prelude.{◌≡◌, ◌+◌, ◌<◌, ◌≤◌, ◌++◌, length, slice_index};
ghost use Rattle.arrayvec.specs.ArrayVec.{array_vec_len};
ghost use Rattle.gm_squares.specs.Squares.{square_text, square_in as square_in_of};

use gm_game::limits::LINE;
use gm_game::shown::Line;
use gm_game::text::push_text;

/// Appends some bytes and the text of a square, for which there is room.
#[tactic(auto, using(std::proofs::lemmas::List::append_assoc))]
pub fn push_square(line: &mut Line, before: &[u8], square: u32)
    requires square { square < 64 }
    requires room { array_vec_len line.old + (length before.now + 2) ≤ LINE }
    ensures { line.new.items ≡ line.old.items ++ (before.now ++ square_text square) }
{
    push_text(line, before);
    push_text(
        line,
        &[b'a' + (square % 8) as u8, b'1' + (square / 8) as u8],
    );
}

/// Returns the byte at a place of a text, or 0 past its end.
pub fn byte_at(text: &[u8], place: usize) -> u8
    ensures { result ≡ slice_index text.now place }
{
    match text.get(place) {
        Some(byte) => *byte,
        None => 0,
    }
}

/// Returns the square with this text, if there is one. Any bytes may be given.
pub fn square_in(text: &[u8], place: usize) -> u32
    requires { place < 100 }
    ensures { result ≡ square_in_of text.now place }
{
    8 * u32::from(byte_at(text, place + 1).saturating_sub(b'1'))
        + u32::from(byte_at(text, place).saturating_sub(b'a'))
}
