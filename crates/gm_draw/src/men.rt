//! The men of a diagram, each at its point.
ghost use Rattle.std.specs.Prelude.{◌≡◌, ◌≤◌, ◌++◌, ◌+◌, OnOk};
ghost use Rattle.gm_draw.specs.Diagrams.{circle, words_at, cross_of, counter_of, digit_of, stone_of, disc_of, letter_of, is_first as is_first_spec, chessman_of, figure_fill as figure_fill_spec, figure_of, man_of};

use crate::figures::{has_figure, outline};
use crate::pictured::Style;
use crate::svg::{push_circle, push_path, push_words};
use std::alloc::AllocError;

// Appends two circles around a point.
fn push_ringed(
    text: &mut Vec<u8>,
    x: u64,
    y: u64,
    disc: &[u8],
    ring: &[u8],
) -> Result<(), AllocError>
    ensures { OnOk result (text.new.items ≡ text.old.items ++ (circle x y disc.now ++ circle x y ring.now)) }
{
    push_circle(text, x, y, disc)?;
    push_circle(text, x, y, ring)
}

// Appends a circle around a point, and a letter below it.
fn push_lettered(
    text: &mut Vec<u8>,
    x: u64,
    y: u64,
    disc: &[u8],
    look: &[u8],
    letter: &[u8],
) -> Result<(), AllocError>
    requires { y ≤ 16000 }
    ensures { OnOk result (text.new.items ≡ text.old.items ++ (circle x y disc.now ++ words_at x (y + 7) look.now letter.now)) }
{
    push_circle(text, x, y, disc)?;
    push_words(text, x, y + 7, look, letter)
}

// Appends a black or a white man on a cell.
#[tactic(auto, unfolding(crate::specs::Diagrams::stone_of))]
fn push_stone(text: &mut Vec<u8>, x: u64, y: u64, byte: u8) -> Result<(), AllocError>
    ensures { OnOk result (text.new.items ≡ text.old.items ++ stone_of x y byte) }
{
    match byte {
        b'x' => push_circle(text, x, y, b"\" r=\"14\" fill=\"#000\"/>\n"),
        b'o' => {
            push_ringed(
                text,
                x,
                y,
                b"\" r=\"14\" fill=\"#fff\"/>\n",
                b"\" r=\"7\" fill=\"none\" stroke-width=\"1\"/>\n",
            )
        }
        _ => Ok(()),
    }
}

// Appends a black or a white man on a point.
#[tactic(auto, unfolding(crate::specs::Diagrams::disc_of))]
fn push_disc(text: &mut Vec<u8>, x: u64, y: u64, byte: u8) -> Result<(), AllocError>
    ensures { OnOk result (text.new.items ≡ text.old.items ++ disc_of x y byte) }
{
    match byte {
        b'x' => push_circle(text, x, y, b"\" r=\"27\" fill=\"#000\"/>\n"),
        b'o' => {
            push_ringed(
                text,
                x,
                y,
                b"\" r=\"27\" fill=\"#fff\"/>\n",
                b"\" r=\"13\" fill=\"none\" stroke-width=\"1\"/>\n",
            )
        }
        _ => Ok(()),
    }
}

// Appends a man with a letter.
#[tactic(auto, unfolding(crate::specs::Diagrams::letter_of))]
fn push_letter(text: &mut Vec<u8>, x: u64, y: u64, byte: u8) -> Result<(), AllocError>
    requires { y ≤ 16000 }
    ensures { OnOk result (text.new.items ≡ text.old.items ++ letter_of x y byte) }
{
    match byte {
        b'h' => {
            push_lettered(
                text,
                x,
                y,
                b"\" r=\"27\" fill=\"#000\"/>\n",
                b"\" font-size=\"20\" stroke=\"none\" fill=\"#fff\">",
                b"h",
            )
        }
        b'd' => {
            push_lettered(
                text,
                x,
                y,
                b"\" r=\"27\" fill=\"#fff\"/>\n",
                b"\" font-size=\"20\" stroke=\"none\" fill=\"#000\">",
                b"d",
            )
        }
        _ => Ok(()),
    }
}

/// Tests whether a letter is of the side that is drawn white.
pub(crate) fn is_first(style: Style, byte: u8) -> bool
    ensures { result ≡ is_first_spec style byte }
{
    match style {
        Style::Hounds => byte == b'f',
        _ => byte.is_ascii_uppercase(),
    }
}

// Appends a man of chess or of Fox and Hounds, with its letter: black on white for the first side, white on black for the other.
#[tactic(auto, unfolding(crate::specs::Diagrams::chessman_of))]
fn push_chessman(
    text: &mut Vec<u8>,
    style: Style,
    x: u64,
    y: u64,
    byte: u8,
) -> Result<(), AllocError>
    requires { y ≤ 16000 }
    ensures { OnOk result (text.new.items ≡ text.old.items ++ chessman_of style x y byte) }
{
    if byte == 0 {
        Ok(())
    } else if is_first(style, byte) {
        push_lettered(
            text,
            x,
            y,
            b"\" r=\"16\" fill=\"#fff\"/>\n",
            b"\" stroke=\"none\" fill=\"#000\">",
            &[byte],
        )
    } else {
        push_lettered(
            text,
            x,
            y,
            b"\" r=\"16\" fill=\"#000\"/>\n",
            b"\" stroke=\"none\" fill=\"#fff\">",
            &[byte],
        )
    }
}

// Returns the end of a figure: white for capitals, black for small letters.
fn figure_fill(byte: u8) -> &'static [u8]
    ensures { result.now ≡ figure_fill_spec byte }
{
    if byte.is_ascii_uppercase() {
        b"\" fill=\"#fff\"/>\n"
    } else {
        b"\" fill=\"#000\"/>\n"
    }
}

// Appends the figure of a chess man.
#[tactic(auto, unfolding(crate::specs::Diagrams::figure_of))]
fn push_figure(text: &mut Vec<u8>, x: u64, y: u64, byte: u8) -> Result<(), AllocError>
    requires right { 40 ≤ x }
    requires down { y ≤ 16000 }
    ensures { OnOk result (text.new.items ≡ text.old.items ++ figure_of x y byte) }
{
    push_path(text, x - 11, y + 14, outline(byte))?;
    text.extend_from_slice(figure_fill(byte))
}

// Appends a digit.
#[tactic(auto, unfolding(crate::specs::Diagrams::digit_of))]
fn push_digit(text: &mut Vec<u8>, x: u64, y: u64, byte: u8) -> Result<(), AllocError>
    requires { y ≤ 16000 }
    ensures { OnOk result (text.new.items ≡ text.old.items ++ digit_of x y byte) }
{
    if byte.is_ascii_digit() {
        push_words(
            text,
            x,
            y + 6,
            b"\" font-weight=\"bold\" stroke=\"none\">",
            &[byte],
        )
    } else {
        Ok(())
    }
}

/// Appends the man or the digit of a byte of the position's text, if there is one.
#[tactic(auto, unfolding(crate::specs::Diagrams::cross_of, crate::specs::Diagrams::counter_of))]
pub(crate) fn push_man(
    text: &mut Vec<u8>,
    style: Style,
    x: u64,
    y: u64,
    byte: u8,
) -> Result<(), AllocError>
    requires right { 40 ≤ x }
    requires down { 40 ≤ y }
    requires near { x + y ≤ 16000 }
    ensures { OnOk result (text.new.items ≡ text.old.items ++ man_of style x y byte) }
{
    match (style, byte) {
        (Style::Crosses, b'x') => push_path(
            text,
            x - 21,
            y - 21,
            b"l42 42m-42 0l42-42\" stroke-width=\"6\"/>\n",
        ),
        (Style::Crosses, b'o') => push_circle(
            text,
            x,
            y,
            b"\" r=\"21\" fill=\"none\" stroke-width=\"6\"/>\n",
        ),
        (Style::Counters, b'x') => push_circle(text, x, y, b"\" r=\"14\" fill=\"#999\"/>\n"),
        (Style::Stones, _) => push_stone(text, x, y, byte),
        (Style::Discs, _) => push_disc(text, x, y, byte),
        (Style::Letters, _) => push_letter(text, x, y, byte),
        (Style::Figures, _) if has_figure(byte) => push_figure(text, x, y, byte),
        (Style::Chess | Style::Figures | Style::Hounds, _) => push_chessman(
            text, style, x, y, byte,
        ),
        (Style::Digits, _) => push_digit(text, x, y, byte),
        _ => Ok(()),
    }
}
