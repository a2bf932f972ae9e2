//! Drawings of positions.
ghost use Rattle.std.specs.Prelude.{◌≡◌, ◌≤◌, ◌-◌, [], length, slice_index, slice_index_or, true};
ghost use Rattle.gm_draw.specs.Drawn.{IsDrawn};
ghost use Rattle.gm_draw.specs.Pictures.{drawn, mover_of, texts};
ghost use Rattle.gm_draw.specs.Templates.{drawn_byte, filled};

use crate::chessboard;
use crate::pictured::{Layout, Mover, Pictured};
use arrayvec::ArrayVec;
use gm_game::position::Position;

/// The most bytes of a drawing.
pub const DRAWING: usize = 256;

/// A drawing: lines separated by line ends.
pub type Drawing = ArrayVec<u8, DRAWING>;

/// Has no effect; its contract states that drawings fit, and that positions with the same drawing and the same side to move are
/// equal.
pub fn drawings<G: Pictured>()
    ensures { IsDrawn G.Game.rules (drawn G.picture G.shown) G.picture.mover }
{}

/// Returns the drawing of a legal position.
pub fn draw<G: Pictured>(p: Position) -> Drawing
    requires { G.Game.rules.is_legal p ≡ true }
    ensures { result.items ≡ drawn G.picture G.shown p }
{
    let picture = G::picture();
    match picture.style.layout() {
        Layout::Template => fill(picture.board, G::show(p).as_slice()),
        Layout::Rows => row(picture.rows, p.index),
        Layout::Squares => chessboard::draw(G::show(p).as_slice()),
    }
}

/// Returns the name of the side to move in a legal position.
pub fn mover<G: Pictured>(p: Position) -> &'static [u8]
    requires { G.Game.rules.is_legal p ≡ true }
    ensures { result.now ≡ G.picture.mover p }
{
    name_of(G::picture().mover, G::show(p).as_slice())
}

// Returns the name of the side to move in the position with this text.
fn name_of(mover: Mover, text: &[u8]) -> &'static [u8]
    ensures { result.now ≡ mover_of mover text.now }
{
    match mover {
        Mover::Same(name) => name,
        Mover::ByLast { byte, name, other } => {
            if last_byte(text) == byte { name } else { other }
        }
    }
}

// Returns the last byte of a text, or 0 if it is empty.
fn last_byte(text: &[u8]) -> u8
    ensures { result ≡ slice_index text.now (length text.now - 1) }
{
    match text.last() {
        Some(byte) => *byte,
        None => 0,
    }
}

// Returns the row with this number, which is empty if there is none.
fn row(rows: &[&[u8]], index: u64) -> Drawing
    requires { length (slice_index_or (texts rows.now) index []) ≤ DRAWING }
    ensures { result.items ≡ slice_index_or (texts rows.now) index [] }
{
    let mut drawing = ArrayVec::new();
    if let Some(row) = rows.get(index as usize) {
        let _fits = drawing.try_extend_from_slice(row);
    }
    drawing
}

/// Returns the byte of a drawing for a byte of its template.
pub(crate) fn byte_for(byte: u8, text: &[u8]) -> u8
    ensures { result ≡ drawn_byte text.now byte }
{
    if !byte.is_ascii_uppercase() {
        return byte;
    }
    match text.get(usize::from(byte - b'A')) {
        Some(found) => *found,
        None => 0,
    }
}

/// Returns a template with its slots filled from a text. The slots are the capital letters: `A` stands for the first byte.
#[tactic(auto, unfolding(crate::specs::Templates::filled))]
pub fn fill(template: &[u8], text: &[u8]) -> Drawing
    requires { length template.now ≤ DRAWING }
    ensures { result.items ≡ filled template.now text.now }
{
    let mut drawing = ArrayVec::new();
    for byte in template {
        drawing.push(byte_for(*byte, text));
    }
    drawing
}
