//! Diagrams of positions for LaTeX: pictures of TikZ.
ghost use Rattle.std.specs.Prelude.{◌≡◌, ◌≤◌, ◌++◌, ◌+◌, length, true, OnOk, IfOk};
ghost use Rattle.gm_draw.specs.Diagrams.{middle_of};
ghost use Rattle.gm_draw.specs.Looks.{style_by};
ghost use Rattle.gm_draw.specs.Marks.{mark_of as mark_of_spec};
ghost use Rattle.gm_draw.specs.Pictures.{drawn};
ghost use Rattle.gm_draw.specs.Templates.{spread};
ghost use Rattle.gm_draw.specs.Tikz.{stroke, under, point, over, tikz_part, tikz_under_all, tikz_over_all, tikz_arrow, tikz_mark, tikz_front, tikz_back, tikz_of, tikz_with};

use crate::chessboard::is_dark;
use crate::diagram::caption_text;
use crate::drawn::{DRAWING, draw};
use crate::frame::{Frame, frame_of};
use crate::look::Look;
use crate::marks::{Mark, Place, has_squares, mark_of};
use crate::pictured::{Pictured, Style};
use crate::svg::{has_cells, has_points, is_stroke, label_x, label_y, next_x, next_y, slot_byte};
use crate::tex::{push_gray, push_node, push_tikz};
use crate::tikz_men::push_man;
use gm_game::position::{Position, Solved};
use std::alloc::{AllocError, Global};

/// Returns the TikZ picture of a legal position of this value with this look. The move with this text is marked, unless it is
/// empty.
pub fn tikz<G: Pictured>(
    alloc: Global,
    p: Position,
    value: Solved,
    look: Look,
    move_text: &[u8],
) -> Result<Vec<u8>, AllocError>
    requires { G.Game.rules.is_legal p ≡ true }
    ensures { IfOk result (λ v. v.items ≡ tikz_with G.picture G.shown look move_text.now p value) }
{
    let caption = caption_text::<G>(alloc, p, value, look.valued)?;
    let mut text = Vec::new(alloc);
    push_picture::<G>(&mut text, p, look, move_text, caption.as_slice())?;
    Ok(text)
}

// Appends the picture of a legal position with this look, the mark of a move and this caption.
#[tactic(auto, unfolding(crate::specs::Tikz::tikz_of))]
fn push_picture<G: Pictured>(
    text: &mut Vec<u8>,
    p: Position,
    look: Look,
    move_text: &[u8],
    caption: &[u8],
) -> Result<(), AllocError>
    requires { G.Game.rules.is_legal p ≡ true }
    ensures { OnOk result (text.new.items ≡ text.old.items ++ tikz_of (style_by look.figures G.picture.style) G.picture.board (G.shown p) (drawn G.picture G.shown p)
        (mark_of_spec G.picture.style G.picture.points G.picture.board move_text.now) caption.now) }
{
    let picture = G::picture();
    let bytes = G::show(p);
    let drawing = draw::<G>(p);
    let style = look.style(picture.style);
    let mark = mark_of(picture.style, picture.points, picture.board, move_text);
    let frame = frame_of(style, drawing.as_slice());
    push_front(text, style, picture.board)?;
    push_over_all(
        text,
        style,
        picture.board,
        bytes.as_slice(),
        drawing.as_slice(),
        frame.middle,
    )?;
    push_mark(text, style, mark)?;
    push_back(text, frame, caption)
}

// Appends the beginning of the picture, with the strokes and squares under the men.
#[tactic(auto, unfolding(crate::specs::Tikz::tikz_front))]
fn push_front(text: &mut Vec<u8>, style: Style, board: &[u8]) -> Result<(), AllocError>
    requires { length board.now ≤ DRAWING }
    ensures { OnOk result (text.new.items ≡ text.old.items ++ tikz_front style board.now) }
{
    text.extend_from_slice(
        b"\\begin{tikzpicture}[x=.75pt,y=-.75pt,line width=1.5pt,line cap=round,line join=round,every node/.style={anchor=base,inner sep=0pt,font=\\sffamily\\large}]\n",
    )?;
    push_under_all(text, style, board)
}

// Appends the caption, centered under a board, and the end of the picture.
#[tactic(auto, unfolding(crate::specs::Tikz::tikz_back))]
fn push_back(text: &mut Vec<u8>, frame: Frame, caption: &[u8]) -> Result<(), AllocError>
    requires { 14 ≤ frame.height }
    ensures { OnOk result (text.new.items ≡ text.old.items ++ tikz_back frame.middle frame.height caption.now) }
{
    push_node(
        text,
        b"\\node at (",
        frame.middle,
        frame.height - 14,
        caption,
    )?;
    text.extend_from_slice(b"\\end{tikzpicture}\n")
}

// Appends the stroke of a byte of the board, if it is one.
#[tactic(auto, unfolding(crate::specs::Tikz::stroke))]
fn push_stroke(text: &mut Vec<u8>, x: u64, y: u64, byte: u8) -> Result<(), AllocError>
    requires right { 40 ≤ x }
    requires down { 40 ≤ y }
    requires near { x + y ≤ 16000 }
    ensures { OnOk result (text.new.items ≡ text.old.items ++ stroke x y byte) }
{
    match byte {
        b'-' => push_gray(text, x - 20, y, b")--++(40,0);\n"),
        b'|' => push_gray(text, x, y - 40, b")--++(0,80);\n"),
        b'/' => push_gray(text, x - 40, y + 40, b")--++(80,-80);\n"),
        b'\\' => push_gray(text, x - 40, y - 40, b")--++(80,80);\n"),
        b'+' => {
            push_gray(text, x - 20, y, b")--++(40,0);\n")?;
            push_gray(text, x, y - 40, b")--++(0,80);\n")
        }
        _ => Ok(()),
    }
}

// Appends the stroke or the square of a byte of the board, under the men.
#[tactic(auto, unfolding(crate::specs::Tikz::under))]
fn push_under(text: &mut Vec<u8>, style: Style, x: u64, y: u64, byte: u8) -> Result<(), AllocError>
    requires right { 40 ≤ x }
    requires down { 40 ≤ y }
    requires near { x + y ≤ 16000 }
    ensures { OnOk result (text.new.items ≡ text.old.items ++ under style x y byte) }
{
    if !byte.is_ascii_uppercase() {
        return push_stroke(text, x, y, byte);
    }
    if !has_cells(style) {
        return Ok(());
    }
    if has_squares(style) && is_dark(x, y) {
        push_tikz(
            text,
            b"\\filldraw[draw=gray,fill=black!20] (",
            x - 20,
            y - 20,
            b")rectangle++(40,40);\n",
        )
    } else {
        push_tikz(
            text,
            b"\\draw[gray] (",
            x - 20,
            y - 20,
            b")rectangle++(40,40);\n",
        )
    }
}

// Appends a point of the net.
fn push_point(text: &mut Vec<u8>, style: Style, x: u64, y: u64) -> Result<(), AllocError>
    ensures { OnOk result (text.new.items ≡ text.old.items ++ point style x y) }
{
    if has_points(style) {
        push_tikz(
            text,
            b"\\filldraw[fill=white] (",
            x,
            y,
            b")circle[radius=5];\n",
        )
    } else {
        Ok(())
    }
}

// Appends the part of a byte of the board over strokes and squares: a man in its place, or the name of a row or a column.
#[tactic(auto, unfolding(crate::specs::Tikz::over))]
fn push_over(
    text: &mut Vec<u8>,
    style: Style,
    bytes: &[u8],
    x: u64,
    y: u64,
    byte: u8,
) -> Result<(), AllocError>
    requires right { 40 ≤ x }
    requires down { 40 ≤ y }
    requires near { x + y ≤ 16000 }
    ensures { OnOk result (text.new.items ≡ text.old.items ++ over style bytes.now x y byte) }
{
    if byte.is_ascii_uppercase() {
        push_point(text, style, x, y)?;
        push_man(text, style, x, y, slot_byte(style, bytes, x, y, byte))
    } else if is_stroke(byte) {
        Ok(())
    } else {
        push_node(
            text,
            b"\\node at (",
            label_x(style, x),
            label_y(style, y),
            &[byte],
        )
    }
}

// Appends the part of a byte of the board: under the men, or over it for the men of a text.
fn push_part(
    text: &mut Vec<u8>,
    style: Style,
    men: Option<&[u8]>,
    x: u64,
    y: u64,
    byte: u8,
) -> Result<(), AllocError>
    requires right { 40 ≤ x }
    requires down { 40 ≤ y }
    requires near { x + y ≤ 16000 }
    ensures { OnOk result (text.new.items ≡ text.old.items ++ tikz_part style men.entry x y byte) }
{
    match men {
        None => push_under(text, style, x, y, byte),
        Some(bytes) => push_over(text, style, bytes, x, y, byte),
    }
}

// Appends the strokes and squares under the men of a board; or with the text of a position its men in their places, and the names
// of rows and columns.
fn push_board(
    text: &mut Vec<u8>,
    style: Style,
    board: &[u8],
    men: Option<&[u8]>,
) -> Result<(), AllocError>
    requires { length board.now ≤ DRAWING }
    ensures { OnOk result (text.new.items ≡ text.old.items ++ spread (tikz_part style men.entry) 40 40 board.now) }
{
    let mut x = 40;
    let mut y = 40;
    for byte in board {
        push_part(text, style, men, x, y, *byte)?;
        x = next_x(x, *byte);
        y = next_y(y, *byte);
    }
    Ok(())
}

// Appends the strokes and squares under the men.
#[tactic(auto, unfolding(crate::specs::Tikz::tikz_under_all))]
fn push_under_all(text: &mut Vec<u8>, style: Style, board: &[u8]) -> Result<(), AllocError>
    requires { length board.now ≤ DRAWING }
    ensures { OnOk result (text.new.items ≡ text.old.items ++ tikz_under_all style board.now) }
{
    match style {
        Style::Row => Ok(()),
        _ => push_board(text, style, board, None),
    }
}

// Appends the men and the names of rows and columns, or a row of numbers in the middle.
#[tactic(auto, unfolding(crate::specs::Tikz::tikz_over_all))]
fn push_over_all(
    text: &mut Vec<u8>,
    style: Style,
    board: &[u8],
    bytes: &[u8],
    drawing: &[u8],
    middle: u64,
) -> Result<(), AllocError>
    requires { length board.now ≤ DRAWING }
    ensures { OnOk result (text.new.items ≡ text.old.items ++ tikz_over_all style board.now bytes.now drawing.now middle) }
{
    match style {
        Style::Row => push_node(
            text,
            b"\\node[font=\\ttfamily\\large] at (",
            middle,
            45,
            drawing,
        ),
        _ => push_board(text, style, board, Some(bytes)),
    }
}

// Appends an arrow from a place to another.
fn push_arrow(text: &mut Vec<u8>, from: Place, to: Place) -> Result<(), AllocError>
    ensures { OnOk result (text.new.items ≡ text.old.items ++ tikz_arrow from to) }
{
    push_tikz(
        text,
        b"\\draw[red!80!black,line width=3pt,->] (",
        from.x,
        from.y,
        b")",
    )?;
    push_tikz(text, b"--(", to.x, to.y, b");\n")
}

// Appends the mark of a move.
#[tactic(auto, unfolding(crate::specs::Tikz::tikz_mark))]
fn push_mark(text: &mut Vec<u8>, style: Style, mark: Mark) -> Result<(), AllocError>
    ensures { OnOk result (text.new.items ≡ text.old.items ++ tikz_mark style mark) }
{
    match mark {
        Mark::Nothing => Ok(()),
        Mark::Ring(place) => {
            if has_cells(style) {
                push_tikz(
                    text,
                    b"\\draw[red!80!black,line width=3pt] (",
                    place.x,
                    place.y,
                    b")circle[radius=18];\n",
                )
            } else {
                push_tikz(
                    text,
                    b"\\draw[red!80!black,line width=3pt] (",
                    place.x,
                    place.y,
                    b")circle[radius=31];\n",
                )
            }
        }
        Mark::Arrow(from, to) => push_arrow(text, from, to),
    }
}
