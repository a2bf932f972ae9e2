//! A position for people: the text with its board, the side to move and the value, and its diagram.
ghost use Rattle.std.specs.Prelude.{◌≡◌, ◌++◌, codes, true, OnOk, IfOk};
ghost use Rattle.gm_page.specs.ShowTexts.{naming_text, first_move, marked_text, IsShowText, IsDiagram, IsSvg, IsTikz};
ghost use Rattle.gm_play.specs.BestMoves.{IsBestMove};

use gm_draw::diagram::{diagram, diagram_with};
use gm_draw::drawn::{draw, mover};
use gm_draw::look::Look;
use gm_draw::pictured::Pictured;
use gm_draw::tikz::tikz;
use gm_game::position::Position;
use gm_game::shown::Line;
use gm_game::text::value_text;
use gm_play::known::Known;
use std::alloc::{AllocError, Global};

/// Returns the board of a position, and a line with the side to move and the true value. If `explained` is set, a description of
/// how cells, positions and moves are written follows.
pub fn show_text<G: Pictured>(
    alloc: Global,
    known: &Known<'_, G>,
    explained: bool,
) -> Result<Vec<u8>, AllocError>
    ensures { IfOk result (λ v. IsShowText G.Game.rules G.shown G.move_shown G.picture explained (G.shown known.now.position) v.items) }
{
    let p = known.position;
    let mut text = Vec::new(alloc);
    text.extend_from_slice(draw::<G>(p).as_slice())?;
    text.extend_from_slice(b"\n")?;
    text.extend_from_slice(mover::<G>(p))?;
    push_line(
        &mut text,
        b" to move: ",
        value_text(known.value()).as_slice(),
    )?;
    if explained {
        push_naming::<G>(&mut text, p)?;
    }
    Ok(text)
}

/// Returns the SVG document of a position: its board with the men in their places, and under it the side to move. If `valued` is
/// set, the true value follows.
pub fn diagram_text<G: Pictured>(
    alloc: Global,
    known: &Known<'_, G>,
    valued: bool,
) -> Result<Vec<u8>, AllocError>
    ensures { IfOk result (λ v. IsDiagram G.Game.rules G.shown G.move_shown G.picture valued
        (G.shown known.now.position) v.items) }
{
    diagram::<G>(alloc, known.position, known.value(), valued)
}

/// Returns the SVG document of a position with this look. If `arrow` is set, its best move is marked.
pub fn svg_text<G: Pictured>(
    alloc: Global,
    known: &Known<'_, G>,
    look: Look,
    arrow: bool,
) -> Result<Vec<u8>, AllocError>
    ensures { IfOk result (λ v. IsSvg G.Game.rules G.shown G.move_shown G.picture look arrow
        (G.shown known.now.position) v.items) }
{
    let marked = marked_move::<G>(known.position, known.best_move(), arrow);
    diagram_with::<G>(
        alloc,
        known.position,
        known.value(),
        look,
        marked.as_slice(),
    )
}

/// Returns the TikZ picture of a position with this look. If `arrow` is set, its best move is marked.
pub fn tikz_text<G: Pictured>(
    alloc: Global,
    known: &Known<'_, G>,
    look: Look,
    arrow: bool,
) -> Result<Vec<u8>, AllocError>
    ensures { IfOk result (λ v. IsTikz G.Game.rules G.shown G.move_shown G.picture look arrow
        (G.shown known.now.position) v.items) }
{
    let marked = marked_move::<G>(known.position, known.best_move(), arrow);
    tikz::<G>(
        alloc,
        known.position,
        known.value(),
        look,
        marked.as_slice(),
    )
}

// Returns the text of the best move, if it is to be marked, and otherwise an empty one.
fn marked_move<G: Pictured>(p: Position, best: Option<u32>, arrow: bool) -> Line
    requires legal { G.Game.rules.is_legal p ≡ true }
    requires best { IsBestMove G.Game.rules p best }
    ensures { result.items ≡ marked_text G.Game.rules G.shown G.move_shown G.picture arrow p best }
{
    match best {
        Some(number) if arrow => G::move_text(p, number),
        _ => Line::new(),
    }
}

// Appends a line of two texts.
fn push_line(text: &mut Vec<u8>, front: &[u8], back: &[u8]) -> Result<(), AllocError>
    ensures { OnOk result (text.new.items ≡ text.old.items ++ front.now ++ back.now ++ codes "\n") }
{
    text.extend_from_slice(front)?;
    text.extend_from_slice(back)?;
    text.extend_from_slice(b"\n")
}

// Appends the description of how cells, positions and moves are written.
fn push_naming<G: Pictured>(text: &mut Vec<u8>, p: Position) -> Result<(), AllocError>
    requires { G.Game.rules.is_legal p ≡ true }
    ensures { OnOk result (text.new.items ≡ text.old.items ++ naming_text G.Game.rules G.shown G.move_shown G.picture p) }
{
    text.extend_from_slice(b"\n")?;
    text.extend_from_slice(G::picture().naming)?;
    push_line(text, b"This position: ", G::show(p).as_slice())?;
    push_first_move::<G>(text, p)
}

// Appends the first move, if there is one.
fn push_first_move<G: Pictured>(text: &mut Vec<u8>, p: Position) -> Result<(), AllocError>
    requires { G.Game.rules.is_legal p ≡ true }
    ensures { OnOk result (text.new.items ≡ text.old.items ++ first_move G.Game.rules G.shown G.move_shown G.picture p (G.Game.rules.moves p)) }
{
    match G::moves(p).as_slice().first() {
        Some(number) => push_line(text, b"A move here: ", G::move_text(p, *number).as_slice()),
        None => Ok(()),
    }
}
