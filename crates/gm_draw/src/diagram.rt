//! Diagrams of positions for print: SVG documents.
ghost use Rattle.std.specs.Prelude.{◌≡◌, ◌≤◌, ◌++◌, length, true, OnOk, IfOk};
ghost use Rattle.gm_draw.specs.Diagrams.{start_of, svg_box, svg_size, svg_title, svg_paper, svg_front, svg_net, svg_men, svg_back, svg_of, over_all, under_all, caption_of, caption_words, ring_back as ring_back_spec, svg_arrow, svg_mark, diagram_of, diagram_with as diagram_with_spec};
ghost use Rattle.gm_draw.specs.Looks.{style_by};
ghost use Rattle.gm_draw.specs.Marks.{mark_of as mark_of_spec};
ghost use Rattle.gm_draw.specs.Pictures.{drawn};
ghost use Rattle.gm_draw.specs.Spots.{IsEachOnce};

use crate::drawn::{DRAWING, draw, mover};
use crate::frame::{Frame, frame_of};
use crate::look::Look;
use crate::marks::{Mark, Place, mark_of};
use crate::markup::push_escaped;
use crate::pictured::{Pictured, Style};
use crate::svg::{has_cells, push_at, push_board, push_circle, push_number, push_path, push_words};
use gm_game::position::{Position, Solved};
use gm_game::text::value_text;
use std::alloc::{AllocError, Global};

/// Returns the SVG document of a legal position of this value: its board with the men in their places, and under it the side to
/// move. If `valued` is set, the value follows.
pub fn diagram<G: Pictured>(
    alloc: Global,
    p: Position,
    value: Solved,
    valued: bool,
) -> Result<Vec<u8>, AllocError>
    requires { G.Game.rules.is_legal p ≡ true }
    ensures { IfOk result (λ v. v.items ≡ diagram_of G.picture G.shown valued p value) }
{
    let look = Look {
        valued,
        figures: false,
    };
    diagram_with::<G>(alloc, p, value, look, b"")
}

/// Returns the SVG document of a legal position of this value with this look. The move with this text is marked, unless it is
/// empty.
pub fn diagram_with<G: Pictured>(
    alloc: Global,
    p: Position,
    value: Solved,
    look: Look,
    move_text: &[u8],
) -> Result<Vec<u8>, AllocError>
    requires { G.Game.rules.is_legal p ≡ true }
    ensures { IfOk result (λ v. v.items ≡ diagram_with_spec G.picture G.shown look move_text.now p value) }
{
    let caption = caption_text::<G>(alloc, p, value, look.valued)?;
    let mut text = Vec::new(alloc);
    push_svg::<G>(&mut text, p, look, move_text, caption.as_slice())?;
    Ok(text)
}

/// Returns the caption: the side to move, and if `valued` is set the value.
pub(crate) fn caption_text<G: Pictured>(
    alloc: Global,
    p: Position,
    value: Solved,
    valued: bool,
) -> Result<Vec<u8>, AllocError>
    requires { G.Game.rules.is_legal p ≡ true }
    ensures { IfOk result (λ v. v.items ≡ caption_of (G.picture.mover p) value valued) }
{
    let mut caption = Vec::new(alloc);
    caption.extend_from_slice(mover::<G>(p))?;
    caption.extend_from_slice(b" to move")?;
    if valued {
        caption.extend_from_slice(b": ")?;
        caption.extend_from_slice(value_text(value).as_slice())?;
    }
    Ok(caption)
}

/// Has no effect; its contract states that a diagram draws each man once. Over the net of the board, the man of each byte of a
/// position's text is drawn once, at a point of its own.
pub fn each_once<G: Pictured>(bytes: &[u8])
    ensures { IsEachOnce G.picture.style bytes.now G.picture.board }
{}

// Appends the SVG document of a legal position with this look, the mark of a move and this caption.
#[tactic(auto, unfolding(crate::specs::Diagrams::svg_of))]
fn push_svg<G: Pictured>(
    text: &mut Vec<u8>,
    p: Position,
    look: Look,
    move_text: &[u8],
    caption: &[u8],
) -> Result<(), AllocError>
    requires { G.Game.rules.is_legal p ≡ true }
    ensures { OnOk result (text.new.items ≡ text.old.items ++ svg_of (style_by look.figures G.picture.style) G.picture.title G.picture.board (G.shown p) (drawn G.picture G.shown p)
        (mark_of_spec G.picture.style G.picture.points G.picture.board move_text.now) caption.now) }
{
    let picture = G::picture();
    let bytes = G::show(p);
    let drawing = draw::<G>(p);
    let style = look.style(picture.style);
    let mark = mark_of(picture.style, picture.points, picture.board, move_text);
    let frame = frame_of(style, drawing.as_slice());
    push_front(text, frame, picture.title, bytes.as_slice(), caption)?;
    push_net_group(text, style, picture.board)?;
    push_men_group(
        text,
        style,
        picture.board,
        bytes.as_slice(),
        drawing.as_slice(),
        frame.middle,
    )?;
    push_mark(text, style, mark)?;
    push_back(text, frame, caption)
}

// Appends the part of the document up to the paper.
#[tactic(auto, unfolding(crate::specs::Diagrams::svg_front))]
fn push_front(
    text: &mut Vec<u8>,
    frame: Frame,
    title: &[u8],
    bytes: &[u8],
    caption: &[u8],
) -> Result<(), AllocError>
    ensures { OnOk result (text.new.items ≡ text.old.items ++ svg_front frame.left frame.margin frame.width frame.height title.now bytes.now caption.now) }
{
    push_box(text, frame)?;
    push_size(text, frame)?;
    push_title(text, title, bytes, caption)?;
    push_paper(text, frame)
}

// Appends the group of the strokes and squares under the men.
#[tactic(auto, unfolding(crate::specs::Diagrams::svg_net))]
fn push_net_group(text: &mut Vec<u8>, style: Style, board: &[u8]) -> Result<(), AllocError>
    requires { length board.now ≤ DRAWING }
    ensures { OnOk result (text.new.items ≡ text.old.items ++ svg_net style board.now) }
{
    text.extend_from_slice(b"<g fill=\"none\" stroke=\"#777\" stroke-width=\"2\">\n")?;
    push_under_all(text, style, board)?;
    text.extend_from_slice(b"</g>\n")
}

// Appends the group of the men, which the last part of the document closes.
#[tactic(auto, unfolding(crate::specs::Diagrams::svg_men))]
fn push_men_group(
    text: &mut Vec<u8>,
    style: Style,
    board: &[u8],
    bytes: &[u8],
    drawing: &[u8],
    middle: u64,
) -> Result<(), AllocError>
    requires { length board.now ≤ DRAWING }
    ensures { OnOk result (text.new.items ≡ text.old.items ++ svg_men style board.now bytes.now drawing.now middle) }
{
    text.extend_from_slice(b"<g stroke=\"#000\" stroke-width=\"2\">\n")?;
    push_over_all(text, style, board, bytes, drawing, middle)
}

// Returns the radius of a ring round a point, and what follows it.
fn ring_back(style: Style) -> &'static [u8]
    ensures { result.now ≡ ring_back_spec style }
{
    if has_cells(style) {
        b"\" r=\"18\" fill=\"none\" stroke=\"#c00\" stroke-width=\"4\"/>\n"
    } else {
        b"\" r=\"31\" fill=\"none\" stroke=\"#c00\" stroke-width=\"4\"/>\n"
    }
}

// Appends an arrow from a place to another.
fn push_arrow(text: &mut Vec<u8>, from: Place, to: Place) -> Result<(), AllocError>
    ensures { OnOk result (text.new.items ≡ text.old.items ++ svg_arrow from to) }
{
    text.extend_from_slice(
        b"<defs><marker id=\"head\" viewBox=\"0 0 6 6\" refX=\"4\" refY=\"3\" markerWidth=\"4\" markerHeight=\"4\" orient=\"auto\"><path d=\"M0 0l6 3-6 3z\" fill=\"#c00\" stroke=\"none\"/></marker></defs>\n",
    )?;
    push_path(text, from.x, from.y, b"L")?;
    push_at(
        text,
        b"",
        to.x,
        b" ",
        to.y,
        b"\" fill=\"none\" stroke=\"#c00\" stroke-width=\"4\" marker-end=\"url(#head)\"/>\n",
    )
}

// Appends the mark of a move.
#[tactic(auto, unfolding(crate::specs::Diagrams::svg_mark))]
fn push_mark(text: &mut Vec<u8>, style: Style, mark: Mark) -> Result<(), AllocError>
    ensures { OnOk result (text.new.items ≡ text.old.items ++ svg_mark style mark) }
{
    match mark {
        Mark::Nothing => Ok(()),
        Mark::Ring(place) => push_circle(text, place.x, place.y, ring_back(style)),
        Mark::Arrow(from, to) => push_arrow(text, from, to),
    }
}

// Appends the last part of the document, with the caption.
#[tactic(auto, unfolding(crate::specs::Diagrams::svg_back))]
fn push_back(text: &mut Vec<u8>, frame: Frame, caption: &[u8]) -> Result<(), AllocError>
    requires { 14 ≤ frame.height }
    ensures { OnOk result (text.new.items ≡ text.old.items ++ svg_back frame.middle frame.height caption.now) }
{
    push_caption_words(text, frame, caption)?;
    text.extend_from_slice(b"</g>\n</svg>\n")
}

// Appends the origin of the paper.
fn push_start(text: &mut Vec<u8>, frame: Frame) -> Result<(), AllocError>
    ensures { OnOk result (text.new.items ≡ text.old.items ++ start_of frame.left frame.margin) }
{
    if frame.left < frame.margin {
        text.extend_from_slice(b"-")?;
        push_number(text, frame.margin - frame.left)
    } else {
        push_number(text, frame.left - frame.margin)
    }
}

// Appends the beginning of the document's element, with its view box.
#[tactic(auto, unfolding(crate::specs::Diagrams::svg_box))]
fn push_box(text: &mut Vec<u8>, frame: Frame) -> Result<(), AllocError>
    ensures { OnOk result (text.new.items ≡ text.old.items ++ svg_box frame.left frame.margin frame.width frame.height) }
{
    text.extend_from_slice(b"<svg xmlns=\"http://www.w3.org/2000/svg\" viewBox=\"")?;
    push_start(text, frame)?;
    push_at(text, b" 0 ", frame.width, b" ", frame.height, b"")
}

// Appends the size of the document, and the style of its lines and letters.
#[tactic(auto, unfolding(crate::specs::Diagrams::svg_size))]
fn push_size(text: &mut Vec<u8>, frame: Frame) -> Result<(), AllocError>
    ensures { OnOk result (text.new.items ≡ text.old.items ++ svg_size frame.width frame.height) }
{
    push_at(
        text,
        b"\" width=\"",
        frame.width,
        b"\" height=\"",
        frame.height,
        b"\" role=\"img\" font-family=\"sans-serif\" font-size=\"18\" text-anchor=\"middle\" stroke-linecap=\"round\">\n",
    )
}

// Appends the title: the game, the position's text and the caption.
#[tactic(auto, unfolding(crate::specs::Diagrams::svg_title))]
fn push_title(
    text: &mut Vec<u8>,
    title: &[u8],
    bytes: &[u8],
    caption: &[u8],
) -> Result<(), AllocError>
    ensures { OnOk result (text.new.items ≡ text.old.items ++ svg_title title.now bytes.now caption.now) }
{
    text.extend_from_slice(b"<title>")?;
    push_escaped(text, title)?;
    text.extend_from_slice(b" ")?;
    push_escaped(text, bytes)?;
    text.extend_from_slice(b" ")?;
    push_escaped(text, caption)?;
    text.extend_from_slice(b"</title>\n")
}

// Appends the paper.
#[tactic(auto, unfolding(crate::specs::Diagrams::svg_paper))]
fn push_paper(text: &mut Vec<u8>, frame: Frame) -> Result<(), AllocError>
    ensures { OnOk result (text.new.items ≡ text.old.items ++ svg_paper frame.left frame.margin frame.width frame.height) }
{
    text.extend_from_slice(b"<rect x=\"")?;
    push_start(text, frame)?;
    push_at(
        text,
        b"\" width=\"",
        frame.width,
        b"\" height=\"",
        frame.height,
        b"\" fill=\"#fff\"/>\n",
    )
}

// Appends the strokes and squares under the men.
fn push_under_all(text: &mut Vec<u8>, style: Style, board: &[u8]) -> Result<(), AllocError>
    requires { length board.now ≤ DRAWING }
    ensures { OnOk result (text.new.items ≡ text.old.items ++ under_all style board.now) }
{
    match style {
        Style::Row => Ok(()),
        _ => push_board(text, style, board, None),
    }
}

// Appends the men and the names of rows and columns, or a row of numbers in the middle.
fn push_over_all(
    text: &mut Vec<u8>,
    style: Style,
    board: &[u8],
    bytes: &[u8],
    drawing: &[u8],
    middle: u64,
) -> Result<(), AllocError>
    requires { length board.now ≤ DRAWING }
    ensures { OnOk result (text.new.items ≡ text.old.items ++ over_all style board.now bytes.now drawing.now middle) }
{
    match style {
        Style::Row => push_words(
            text,
            middle,
            45,
            b"\" font-family=\"monospace\" stroke=\"none\" xml:space=\"preserve\">",
            drawing,
        ),
        _ => push_board(text, style, board, Some(bytes)),
    }
}

// Appends the caption, centered under a board.
fn push_caption_words(text: &mut Vec<u8>, frame: Frame, caption: &[u8]) -> Result<(), AllocError>
    requires { 14 ≤ frame.height }
    ensures { OnOk result (text.new.items ≡ text.old.items ++ caption_words frame.middle frame.height caption.now) }
{
    push_words(
        text,
        frame.middle,
        frame.height - 14,
        b"\" stroke=\"none\">",
        caption,
    )
}
