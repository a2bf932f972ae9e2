//! The sizes of diagrams.
ghost use Rattle.std.specs.Prelude.{◌≡◌, ◌<◌, ◌≤◌, ◌==◌, ◌+◌, ◌*◌, ◌-◌, length, max};
ghost use Rattle.gm_draw.specs.Diagrams.{next_length as next_length_spec, widest as widest_spec, end_by, left_edge_of, middle_of as middle_spec, width_of, margin_of, height_of};

use crate::drawn::DRAWING;
use crate::pictured::Style;
use crate::svg::has_cells;

/// The size of a diagram, the left edge of its board, the width of the paper that is added before it, and the middle of the board
/// from left to right, in SVG units.
#[derive(Clone, Copy)]
pub(crate) struct Frame {
    pub(crate) left: u64,
    pub(crate) margin: u64,
    pub(crate) width: u64,
    pub(crate) height: u64,
    pub(crate) middle: u64,
}

// Returns the length of the longest line.
#[tactic(auto, using(crate::proofs::Spreading::widest_next, crate::proofs::Spreading::widest_all))]
fn widest(drawing: &[u8]) -> u64
    requires { length drawing.now ≤ DRAWING }
    ensures value { result ≡ widest_spec 0 0 drawing.now }
    ensures fits { result ≤ DRAWING }
{
    let mut longest = 0;
    let mut n = 0;
    for byte in drawing {
        n = next_length(n, *byte);
        longest = greater(longest, n);
    }
    longest
}

// Returns the greater of two numbers.
fn greater(a: u64, b: u64) -> u64
    ensures { result ≡ max a b }
{
    if a < b { b } else { a }
}

// Returns the length of a line so far, after this byte.
fn next_length(n: u64, byte: u8) -> u64
    requires { n < DRAWING }
    ensures value { result ≡ next_length_spec n byte }
    ensures near { result ≤ n + 1 }
{
    if byte == b'\n' { 0 } else { n + 1 }
}

/// Returns the frame of a drawing. It is wide enough for the caption.
pub(crate) fn frame_of(style: Style, drawing: &[u8]) -> Frame
    requires { length drawing.now ≤ DRAWING }
    ensures left { result.left ≡ left_edge_of style }
    ensures margin { result.margin ≡ margin_of style drawing.now }
    ensures width { result.width ≡ width_of style drawing.now }
    ensures height { result.height ≡ height_of drawing.now }
    ensures middle { result.middle ≡ middle_spec style drawing.now }
{
    let left = if has_cells(style) { 40 } else { 0 };
    let end = end(style, widest(drawing));
    let wide = greater(end, 300);
    Frame {
        left,
        margin: (wide - end) / 2,
        width: wide - left,
        height: 40 * drawing.iter().filter(|b| **b == b'\n').count() as u64 + 130,
        middle: (end + left) / 2,
    }
}

// Returns the right edge of a board whose longest line has this length.
fn end(style: Style, longest: u64) -> u64
    requires { longest ≤ DRAWING }
    ensures value { result ≡ end_by style longest }
    ensures fits { result ≤ 20 * DRAWING + 60 }
{
    match style {
        Style::Row => 11 * longest + 30,
        _ => 20 * longest + 60,
    }
}
