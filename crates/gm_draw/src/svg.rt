//! The elements of a diagram.
ghost use Rattle.std.specs.Prelude.{◌≡◌, ◌≤◌, ◌++◌, ◌+◌, ◌-◌, length, true, OnOk};
ghost use Rattle.std.specs.Fmt.{decimal};
ghost use Rattle.gm_draw.specs.Diagrams.{at_point, svg_path, circle, words_at, stroke_of, has_cells as has_cells_spec, has_points as has_points_spec, is_stroke as is_stroke_spec, square_of, slot_byte as slot_byte_spec, under_at, over_at, part_at, point_of, label_x as label_x_spec, label_y as label_y_spec, label_of};
ghost use Rattle.gm_draw.specs.Templates.{is_slot, next_x as next_x_spec, next_y as next_y_spec, spread};

use crate::chessboard::{is_dark, man_at};
use crate::drawn::{DRAWING, byte_for};
use crate::marks::has_squares;
use crate::markup::push_escaped;
use crate::men::push_man;
use crate::pictured::Style;
use gm_game::shown::Line;
use gm_game::text::push_decimal;
use std::alloc::AllocError;

/// Appends a number in decimal.
pub(crate) fn push_number(text: &mut Vec<u8>, number: u64) -> Result<(), AllocError>
    ensures { OnOk result (text.new.items ≡ text.old.items ++ decimal number) }
{
    let mut line = Line::new();
    push_decimal(&mut line, number);
    text.extend_from_slice(line.as_slice())
}

/// Appends two numbers, with the texts before, between and after them.
pub(crate) fn push_at(
    text: &mut Vec<u8>,
    front: &[u8],
    x: u64,
    middle: &[u8],
    y: u64,
    back: &[u8],
) -> Result<(), AllocError>
    ensures { OnOk result (text.new.items ≡ text.old.items ++ at_point front.now x middle.now y back.now) }
{
    text.extend_from_slice(front)?;
    push_number(text, x)?;
    text.extend_from_slice(middle)?;
    push_number(text, y)?;
    text.extend_from_slice(back)
}

/// Appends a path that begins at a point.
pub(crate) fn push_path(text: &mut Vec<u8>, x: u64, y: u64, back: &[u8]) -> Result<(), AllocError>
    ensures { OnOk result (text.new.items ≡ text.old.items ++ svg_path x y back.now) }
{
    push_at(text, b"<path d=\"M", x, b" ", y, back)
}

/// Appends a circle around a point.
pub(crate) fn push_circle(text: &mut Vec<u8>, x: u64, y: u64, back: &[u8]) -> Result<(), AllocError>
    ensures { OnOk result (text.new.items ≡ text.old.items ++ circle x y back.now) }
{
    push_at(text, b"<circle cx=\"", x, b"\" cy=\"", y, back)
}

/// Appends words at a point, after the attributes of their look.
pub(crate) fn push_words(
    text: &mut Vec<u8>,
    x: u64,
    y: u64,
    look: &[u8],
    plain: &[u8],
) -> Result<(), AllocError>
    ensures { OnOk result (text.new.items ≡ text.old.items ++ words_at x y look.now plain.now) }
{
    push_at(text, b"<text x=\"", x, b"\" y=\"", y, look)?;
    push_escaped(text, plain)?;
    text.extend_from_slice(b"</text>\n")
}

// Appends the stroke of a byte of the board, if it is one.
#[tactic(auto, unfolding(crate::specs::Diagrams::stroke_of))]
fn push_stroke(text: &mut Vec<u8>, x: u64, y: u64, byte: u8) -> Result<(), AllocError>
    requires right { 40 ≤ x }
    requires down { 40 ≤ y }
    requires near { x + y ≤ 16000 }
    ensures { OnOk result (text.new.items ≡ text.old.items ++ stroke_of x y byte) }
{
    match byte {
        b'-' => push_path(text, x - 20, y, b"h40\"/>\n"),
        b'|' => push_path(text, x, y - 40, b"v80\"/>\n"),
        b'/' => push_path(text, x - 40, y + 40, b"l80-80\"/>\n"),
        b'\\' => push_path(text, x - 40, y - 40, b"l80 80\"/>\n"),
        b'+' => {
            push_path(text, x - 20, y, b"h40\"/>\n")?;
            push_path(text, x, y - 40, b"v80\"/>\n")
        }
        _ => Ok(()),
    }
}

/// Tests whether men are drawn in cells, which are squares.
pub(crate) fn has_cells(style: Style) -> bool
    ensures { result ≡ has_cells_spec style }
{
    matches!(
        style,
        Style::Counters | Style::Stones | Style::Chess | Style::Figures | Style::Hounds
    )
}

/// Tests whether men are drawn on points.
pub(crate) fn has_points(style: Style) -> bool
    ensures { result ≡ has_points_spec style }
{
    matches!(style, Style::Discs | Style::Letters)
}

// Appends the stroke or the square of a byte of the board, under the men.
#[tactic(auto, unfolding(crate::specs::Diagrams::under_at, crate::specs::Diagrams::square_of))]
fn push_under(text: &mut Vec<u8>, style: Style, x: u64, y: u64, byte: u8) -> Result<(), AllocError>
    requires right { 40 ≤ x }
    requires down { 40 ≤ y }
    requires near { x + y ≤ 16000 }
    ensures { OnOk result (text.new.items ≡ text.old.items ++ under_at style x y byte) }
{
    if !byte.is_ascii_uppercase() {
        return push_stroke(text, x, y, byte);
    }
    if !has_cells(style) {
        return Ok(());
    }
    if has_squares(style) && is_dark(x, y) {
        push_path(text, x - 20, y - 20, b"h40v40h-40z\" fill=\"#ccc\"/>\n")
    } else {
        push_path(text, x - 20, y - 20, b"h40v40h-40z\"/>\n")
    }
}

// Appends a point of the net.
fn push_point(text: &mut Vec<u8>, style: Style, x: u64, y: u64) -> Result<(), AllocError>
    ensures { OnOk result (text.new.items ≡ text.old.items ++ point_of style x y) }
{
    if has_points(style) {
        push_circle(text, x, y, b"\" r=\"5\" fill=\"#fff\"/>\n")
    } else {
        Ok(())
    }
}

/// Returns the distance of the name of a row or a column from the left.
pub(crate) fn label_x(style: Style, x: u64) -> u64
    ensures { result ≡ label_x_spec style x }
{
    if has_cells(style) && x == 40 { 70 } else { x }
}

/// Returns the distance of the name of a row or a column from the top.
pub(crate) fn label_y(style: Style, y: u64) -> u64
    requires { y ≤ 16000 }
    ensures { result ≡ label_y_spec style y }
{
    if has_points(style) && y == 40 {
        38
    } else {
        y + 6
    }
}

// Appends the name of a row or a column.
fn push_label(text: &mut Vec<u8>, style: Style, x: u64, y: u64, byte: u8) -> Result<(), AllocError>
    requires { y ≤ 16000 }
    ensures { OnOk result (text.new.items ≡ text.old.items ++ label_of style x y byte) }
{
    push_words(
        text,
        label_x(style, x),
        label_y(style, y),
        b"\" stroke=\"none\">",
        &[byte],
    )
}

/// Tests whether a byte is a stroke of the net, a space or the end of a line.
pub(crate) fn is_stroke(byte: u8) -> bool
    ensures { result ≡ is_stroke_spec byte }
{
    matches!(byte, b'-' | b'|' | b'/' | b'\\' | b'+' | b' ' | b'\n')
}

// Appends the part of a byte of the board over strokes and squares: a man in its place, or the name of a row or a column.
#[tactic(auto, unfolding(crate::specs::Diagrams::over_at))]
fn push_over(
    text: &mut Vec<u8>,
    style: Style,
    bytes: &[u8],
    x: u64,
    y: u64,
    byte: u8,
) -> Result<(), AllocError>
    requires right { 40 ≤ x }
    requires down { 40 ≤ y }
    requires near { x + y ≤ 16000 }
    ensures { OnOk result (text.new.items ≡ text.old.items ++ over_at style bytes.now x y byte) }
{
    if byte.is_ascii_uppercase() {
        push_point(text, style, x, y)?;
        push_man(text, style, x, y, slot_byte(style, bytes, x, y, byte))
    } else if is_stroke(byte) {
        Ok(())
    } else {
        push_label(text, style, x, y, byte)
    }
}

/// Returns the byte of the man in a slot of the board.
pub(crate) fn slot_byte(style: Style, bytes: &[u8], x: u64, y: u64, letter: u8) -> u8
    requires near { x + y ≤ 16000 }
    requires slot { is_slot letter ≡ true }
    ensures { result ≡ slot_byte_spec style bytes.now x y letter }
{
    if has_squares(style) {
        man_at(bytes, x, y)
    } else {
        byte_for(letter, bytes)
    }
}

/// Returns the distance of the next byte of the board from the left.
pub(crate) fn next_x(x: u64, byte: u8) -> u64
    requires right { 40 ≤ x }
    requires near { x ≤ 16000 }
    ensures value { result ≡ next_x_spec x byte }
    ensures right { 40 ≤ result }
    ensures near { result ≤ x + 20 }
{
    if byte == b'\n' { 40 } else { x + 20 }
}

/// Returns the distance of the next byte of the board from the top.
pub(crate) fn next_y(y: u64, byte: u8) -> u64
    requires { y ≤ 16000 }
    ensures value { result ≡ next_y_spec y byte }
    ensures down { y ≤ result }
    ensures near { result ≤ y + 40 }
{
    if byte == b'\n' { y + 40 } else { y }
}

// Appends the part of a byte of the board: under the men, or over it for the men of a text.
fn push_part(
    text: &mut Vec<u8>,
    style: Style,
    men: Option<&[u8]>,
    x: u64,
    y: u64,
    byte: u8,
) -> Result<(), AllocError>
    requires right { 40 ≤ x }
    requires down { 40 ≤ y }
    requires near { x + y ≤ 16000 }
    ensures { OnOk result (text.new.items ≡ text.old.items ++ part_at style men.entry x y byte) }
{
    match men {
        None => push_under(text, style, x, y, byte),
        Some(bytes) => push_over(text, style, bytes, x, y, byte),
    }
}

/// Appends the strokes and squares under the men of a board; or with the text of a position its men in their places, and the names
/// of rows and columns.
pub(crate) fn push_board(
    text: &mut Vec<u8>,
    style: Style,
    board: &[u8],
    men: Option<&[u8]>,
) -> Result<(), AllocError>
    requires { length board.now ≤ DRAWING }
    ensures { OnOk result (text.new.items ≡ text.old.items ++ spread (part_at style men.entry) 40 40 board.now) }
{
    let mut x = 40;
    let mut y = 40;
    for byte in board {
        push_part(text, style, men, x, y, *byte)?;
        x = next_x(x, *byte);
        y = next_y(y, *byte);
    }
    Ok(())
}
