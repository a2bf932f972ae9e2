//! The mark of a move on a board.
ghost use Rattle.std.specs.Prelude.{◌≡◌, ◌≤◌, ◌<◌, ◌+◌, ◌*◌, ◌-◌, ◌==◌, [], length, take, drop, slice_index_or, IfSome};
ghost use Rattle.std.specs.List.{position};
ghost use Rattle.gm_draw.specs.Marks.{has_squares as has_squares_spec, has_letter as has_letter_spec, is_square as is_square_spec, is_named as is_named_spec, named_from as named_from_spec, named_place as named_place_spec, ring_at as ring_at_spec, arrow_at as arrow_at_spec, mark_by, mark_of as mark_of_spec};
ghost use Rattle.gm_draw.specs.Pictures.{texts};

use crate::drawn::DRAWING;
use crate::pictured::Style;
use crate::svg::{next_x, next_y};

/// A place in a diagram: the distances from the left and from the top.
#[derive(Clone, Copy)]
pub(crate) struct Place {
    pub(crate) x: u64,
    pub(crate) y: u64,
}

/// The mark of a move.
#[derive(Clone, Copy)]
pub(crate) enum Mark {
    Nothing,
    /// A ring round the only point of the move.
    Ring(Place),
    /// An arrow from the first point of the move to the second.
    Arrow(Place, Place),
}

/// Tests whether men are on the squares of a chess board.
pub(crate) fn has_squares(style: Style) -> bool
    ensures { result ≡ has_squares_spec style }
{
    matches!(style, Style::Chess | Style::Figures | Style::Hounds)
}

// Tests whether the text of a move begins with a man's letter.
fn has_letter(style: Style) -> bool
    ensures { result ≡ has_letter_spec style }
{
    matches!(style, Style::Chess | Style::Figures)
}

// Tests whether this is the name of the square at a point.
#[tactic(auto, unfolding(crate::specs::Marks::is_square))]
fn is_square(x: u64, y: u64, name: &[u8]) -> bool
    requires { x ≤ 16000 }
    ensures { result ≡ is_square_spec x y name.now }
{
    match name {
        [file, rank] => {
            u64::from(*file) == 94 + x / 40 && u64::from(*rank) == 58_u64.saturating_sub(y / 40)
        }
        _ => false,
    }
}

// Returns the name with this number, which is empty if there is none.
fn name_of<'a>(points: &[&'a [u8]], number: u8) -> &'a [u8]
    ensures { result.now ≡ slice_index_or (texts points.now) number [] }
{
    match points.get(usize::from(number)) {
        Some(name) => name,
        None => b"",
    }
}

// Tests whether this is the name of the point whose slot is at a place.
fn is_named(style: Style, points: &[&[u8]], name: &[u8], x: u64, y: u64, byte: u8) -> bool
    requires { x ≤ 16000 }
    ensures { result ≡ is_named_spec style (texts points.now) name.now x y byte }
{
    if !byte.is_ascii_uppercase() {
        return false;
    }
    if has_squares(style) {
        is_square(x, y, name)
    } else {
        *name_of(points, byte - b'A') == *name
    }
}

// Returns the place of the point with this name, if the first byte of the board is at x and y.
#[tactic(auto, unfolding(crate::specs::Marks::named_from))]
fn named_from(
    style: Style,
    points: &[&[u8]],
    name: &[u8],
    x: u64,
    y: u64,
    board: &[u8],
) -> Option<Place>
    requires right { 40 ≤ x }
    requires near { x + y + 60 * length board.now ≤ 16000 }
    ensures { result ≡ named_from_spec style (texts points.now) name.now x y board.now }
{
    match board {
        [byte, rest @ ..] => {
            if is_named(style, points, name, x, y, *byte) {
                Some(Place { x, y })
            } else {
                named_from(
                    style,
                    points,
                    name,
                    next_x(x, *byte),
                    next_y(y, *byte),
                    rest,
                )
            }
        }
        _ => None,
    }
}

// Returns the place of the point with this name.
fn named_place(style: Style, points: &[&[u8]], board: &[u8], name: &[u8]) -> Option<Place>
    requires { length board.now ≤ DRAWING }
    ensures { result ≡ named_place_spec style (texts points.now) board.now name.now }
{
    named_from(style, points, name, 40, 40, board)
}

// Returns a ring round a place.
fn ring_at(place: Option<Place>) -> Mark
    ensures { result ≡ ring_at_spec place }
{
    match place {
        Some(place) => Mark::Ring(place),
        None => Mark::Nothing,
    }
}

// Returns an arrow from a place to another.
fn arrow_at(from: Option<Place>, to: Option<Place>) -> Mark
    ensures { result ≡ arrow_at_spec from to }
{
    match (from, to) {
        (Some(from), Some(to)) => Mark::Arrow(from, to),
        _ => Mark::Nothing,
    }
}

// Returns the index of the first `-`.
fn dash(text: &[u8]) -> Option<usize>
    ensures value { result ≡ position (λ c. c == 45) text.now }
    ensures within { IfSome result (λ k. k < length text.now) }
{
    text.iter().position(|byte| *byte == b'-')
}

// Returns the mark of a text that is a name, or two names with `-` between them.
fn mark_of_word(style: Style, points: &[&[u8]], board: &[u8], word: &[u8]) -> Mark
    requires { length board.now ≤ DRAWING }
    ensures { result ≡ mark_by style (texts points.now) board.now word.now (position (λ c. c == 45) word.now) }
{
    match dash(word) {
        None => ring_at(named_place(style, points, board, word)),
        Some(k) => {
            arrow_at(
                named_place(style, points, board, &word[..k]),
                named_place(style, points, board, &word[k + 1..]),
            )
        }
    }
}

/// Returns the mark of the move with this text, on a board whose points have these names. There is none if the text is empty.
pub(crate) fn mark_of(style: Style, points: &[&[u8]], board: &[u8], text: &[u8]) -> Mark
    requires { length board.now ≤ DRAWING }
    ensures { result ≡ mark_of_spec style (texts points.now) board.now text.now }
{
    match text {
        [] => Mark::Nothing,
        [_, rest @ ..] => {
            if has_letter(style) {
                mark_of_word(style, points, board, rest)
            } else {
                mark_of_word(style, points, board, text)
            }
        }
    }
}
