//! The men of a TikZ picture, each at its point.
ghost use Rattle.std.specs.Prelude.{◌≡◌, ◌≤◌, ◌++◌, ◌+◌, ◌==◌, OnOk};
ghost use Rattle.gm_draw.specs.Tikz.{cross, counter, ringed, man_by, lettered, tikz_letter, chessman, figure, tikz_digit, tikz_man};

use crate::figures::{has_figure, outline_tikz};
use crate::men::is_first;
use crate::pictured::Style;
use crate::tex::{push_node, push_tikz};
use std::alloc::AllocError;

// Appends a cross or a nought.
#[tactic(auto, unfolding(crate::specs::Tikz::cross))]
fn push_cross(text: &mut Vec<u8>, x: u64, y: u64, byte: u8) -> Result<(), AllocError>
    requires right { 40 ≤ x }
    requires down { 40 ≤ y }
    ensures { OnOk result (text.new.items ≡ text.old.items ++ cross x y byte) }
{
    match byte {
        b'x' => push_tikz(
            text,
            b"\\draw[line width=4.5pt] (",
            x - 21,
            y - 21,
            b")--++(42,42)++(-42,0)--++(42,-42);\n",
        ),
        b'o' => push_tikz(
            text,
            b"\\draw[line width=4.5pt] (",
            x,
            y,
            b")circle[radius=21];\n",
        ),
        _ => Ok(()),
    }
}

// Appends a counter.
#[tactic(auto, unfolding(crate::specs::Tikz::counter))]
fn push_counter(text: &mut Vec<u8>, x: u64, y: u64, byte: u8) -> Result<(), AllocError>
    ensures { OnOk result (text.new.items ≡ text.old.items ++ counter x y byte) }
{
    match byte {
        b'x' => push_tikz(
            text,
            b"\\filldraw[fill=black!40] (",
            x,
            y,
            b")circle[radius=14];\n",
        ),
        _ => Ok(()),
    }
}

// Appends a white man with this outline, and a ring in it.
fn push_ringed(
    text: &mut Vec<u8>,
    x: u64,
    y: u64,
    disc: &[u8],
    ring: &[u8],
) -> Result<(), AllocError>
    ensures { OnOk result (text.new.items ≡ text.old.items ++ ringed x y disc.now ring.now) }
{
    push_tikz(text, b"\\filldraw[fill=white] (", x, y, disc)?;
    push_tikz(text, b"\\draw[line width=.75pt] (", x, y, ring)
}

// Appends a black or a white man with this outline. The white one has an inner ring.
#[tactic(auto, unfolding(crate::specs::Tikz::man_by))]
fn push_man_by(
    text: &mut Vec<u8>,
    x: u64,
    y: u64,
    byte: u8,
    disc: &[u8],
    ring: &[u8],
) -> Result<(), AllocError>
    ensures { OnOk result (text.new.items ≡ text.old.items ++ man_by x y byte disc.now ring.now) }
{
    match byte {
        b'x' => push_tikz(text, b"\\filldraw[fill=black] (", x, y, disc),
        b'o' => push_ringed(text, x, y, disc, ring),
        _ => Ok(()),
    }
}

// Appends a man with his letter: black on white for the first side, white on black for the other.
fn push_lettered(
    text: &mut Vec<u8>,
    x: u64,
    y: u64,
    byte: u8,
    first: bool,
    disc: &[u8],
) -> Result<(), AllocError>
    requires { y ≤ 16000 }
    ensures { OnOk result (text.new.items ≡ text.old.items ++ lettered x y byte first disc.now) }
{
    if first {
        push_tikz(text, b"\\filldraw[fill=white] (", x, y, disc)?;
        push_node(text, b"\\node at (", x, y + 7, &[byte])
    } else {
        push_tikz(text, b"\\filldraw[fill=black] (", x, y, disc)?;
        push_node(text, b"\\node[text=white] at (", x, y + 7, &[byte])
    }
}

// Appends a man with a letter on a point.
#[tactic(auto, unfolding(crate::specs::Tikz::tikz_letter))]
fn push_letter(text: &mut Vec<u8>, x: u64, y: u64, byte: u8) -> Result<(), AllocError>
    requires { y ≤ 16000 }
    ensures { OnOk result (text.new.items ≡ text.old.items ++ tikz_letter x y byte) }
{
    if byte == b'd' || byte == b'h' {
        push_lettered(text, x, y, byte, byte == b'd', b")circle[radius=27];\n")
    } else {
        Ok(())
    }
}

// Appends a man with his letter on a square.
#[tactic(auto, unfolding(crate::specs::Tikz::chessman))]
fn push_chessman(
    text: &mut Vec<u8>,
    style: Style,
    x: u64,
    y: u64,
    byte: u8,
) -> Result<(), AllocError>
    requires { y ≤ 16000 }
    ensures { OnOk result (text.new.items ≡ text.old.items ++ chessman style x y byte) }
{
    if byte == 0 {
        Ok(())
    } else {
        push_lettered(
            text,
            x,
            y,
            byte,
            is_first(style, byte),
            b")circle[radius=16];\n",
        )
    }
}

// Appends the figure of a chess man.
#[tactic(auto, unfolding(crate::specs::Tikz::figure))]
fn push_figure(text: &mut Vec<u8>, x: u64, y: u64, byte: u8) -> Result<(), AllocError>
    requires right { 40 ≤ x }
    requires down { y ≤ 16000 }
    ensures { OnOk result (text.new.items ≡ text.old.items ++ figure x y byte) }
{
    if byte.is_ascii_uppercase() {
        push_tikz(
            text,
            b"\\filldraw[fill=white] (",
            x - 11,
            y + 14,
            outline_tikz(byte),
        )
    } else {
        push_tikz(
            text,
            b"\\filldraw[fill=black] (",
            x - 11,
            y + 14,
            outline_tikz(byte),
        )
    }
}

// Appends a digit.
#[tactic(auto, unfolding(crate::specs::Tikz::tikz_digit))]
fn push_digit(text: &mut Vec<u8>, x: u64, y: u64, byte: u8) -> Result<(), AllocError>
    requires { y ≤ 16000 }
    ensures { OnOk result (text.new.items ≡ text.old.items ++ tikz_digit x y byte) }
{
    if byte.is_ascii_digit() {
        push_node(
            text,
            b"\\node[font=\\sffamily\\bfseries\\large] at (",
            x,
            y + 6,
            &[byte],
        )
    } else {
        Ok(())
    }
}

/// Appends the man or the digit of a byte of the position's text, if there is one.
pub(crate) fn push_man(
    text: &mut Vec<u8>,
    style: Style,
    x: u64,
    y: u64,
    byte: u8,
) -> Result<(), AllocError>
    requires right { 40 ≤ x }
    requires down { 40 ≤ y }
    requires near { x + y ≤ 16000 }
    ensures { OnOk result (text.new.items ≡ text.old.items ++ tikz_man style x y byte) }
{
    match style {
        Style::Row => Ok(()),
        Style::Crosses => push_cross(text, x, y, byte),
        Style::Counters => push_counter(text, x, y, byte),
        Style::Stones => push_man_by(
            text,
            x,
            y,
            byte,
            b")circle[radius=14];\n",
            b")circle[radius=7];\n",
        ),
        Style::Discs => push_man_by(
            text,
            x,
            y,
            byte,
            b")circle[radius=27];\n",
            b")circle[radius=13];\n",
        ),
        Style::Letters => push_letter(text, x, y, byte),
        Style::Figures if has_figure(byte) => push_figure(text, x, y, byte),
        Style::Chess | Style::Figures | Style::Hounds => push_chessman(text, style, x, y, byte),
        Style::Digits => push_digit(text, x, y, byte),
    }
}
