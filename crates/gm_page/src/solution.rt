//! The solutions of a sheet: the best move of a position, and best play from it.
ghost use Rattle.std.specs.Prelude.{◌≡◌, ◌++◌, true, IfOk, OnOk};
ghost use Rattle.std.specs.List.{Contains};
ghost use Rattle.gm_find.specs.Founds.{IsFound};
ghost use Rattle.gm_play.specs.BestLines.{AreBest};
ghost use Rattle.gm_page.specs.Solutions.{choice_words, end_words, steps_text, best_words, line_words, IsSolution};

use crate::defences::push_others;
use gm_draw::markup::push_escaped;
use gm_find::found::Found;
use gm_game::position::Position;
use gm_game::shown::{Line, Shown};
use gm_game::text::push_decimal;
use gm_play::best_line::{BestLine, LineEnd, best_line};
use gm_play::known::Known;
use std::alloc::{AllocError, Global};

/// The most moves of the line of a solution.
pub const SOLUTION_MOVES: usize = 40;

/// Returns the solution of a found position: its best move, the number of its moves, and the line of best play from it, of at most
/// `SOLUTION_MOVES` moves.
pub(crate) fn solution_text<G: Shown>(
    alloc: Global,
    known: &Known<'_, G>,
    x: Found,
) -> Result<Vec<u8>, AllocError>
    requires found { IsFound G.Game.rules x }
    requires here { known.now.position ≡ x.position }
    ensures { IfOk result (λ v. IsSolution G.Game.rules G.move_shown x v.items) }
{
    let line = best_line(alloc, known, SOLUTION_MOVES)?;
    let mut text = Vec::new(alloc);
    match x.best {
        Some(m) => {
            push_move::<G>(&mut text, x.position, m, x.moves)?;
            push_line::<G>(&mut text, x.position, &line)?;
            push_others(&mut text, known, x, m)?;
        }
        None => text.extend_from_slice(b"The game has ended.")?,
    }
    Ok(text)
}

// Appends the best move and the number of moves.
#[tactic(auto, unfolding(crate::specs::Solutions::best_words))]
fn push_move<G: Shown>(
    text: &mut Vec<u8>,
    p: Position,
    m: u32,
    count: usize,
) -> Result<(), AllocError>
    requires legal { G.Game.rules.is_legal p ≡ true }
    requires listed { Contains (G.Game.rules.moves p) m }
    ensures { OnOk result (text.new.items ≡ text.old.items ++ best_words G.Game.rules G.move_shown p m count) }
{
    text.extend_from_slice(b"<b>")?;
    push_escaped(text, G::move_text(p, m).as_slice())?;
    text.extend_from_slice(b"</b>")?;
    push_choice(text, count)
}

// Appends the line of best play.
#[tactic(auto, unfolding(crate::specs::Solutions::line_words))]
fn push_line<G: Shown>(text: &mut Vec<u8>, p: Position, line: &BestLine) -> Result<(), AllocError>
    requires legal { G.Game.rules.is_legal p ≡ true }
    requires best { AreBest G.Game.rules p line.now.moves.items }
    ensures { OnOk result (text.new.items ≡ text.old.items ++ line_words G.Game.rules G.move_shown p line.now) }
{
    text.extend_from_slice(b". Best play:")?;
    push_steps::<G>(text, p, line.moves.as_slice())?;
    push_end(text, line.end)
}

// Appends the number of moves that the best one is chosen from.
#[tactic(auto, unfolding(crate::specs::Solutions::choice_words))]
fn push_choice(text: &mut Vec<u8>, count: usize) -> Result<(), AllocError>
    ensures { OnOk result (text.new.items ≡ text.old.items ++ choice_words count) }
{
    if count == 1 {
        return text.extend_from_slice(b", the only move");
    }
    let mut number = Line::new();
    push_decimal(&mut number, count as u64);
    text.extend_from_slice(b", one of ")?;
    text.extend_from_slice(number.as_slice())?;
    text.extend_from_slice(b" moves")
}

// Appends the best moves of a line.
fn push_steps<G: Shown>(
    text: &mut Vec<u8>,
    start: Position,
    moves: &[u32],
) -> Result<(), AllocError>
    requires legal { G.Game.rules.is_legal start ≡ true }
    requires best { AreBest G.Game.rules start moves.now }
    ensures { OnOk result (text.new.items ≡ text.old.items ++ steps_text G.Game.rules G.move_shown start moves.now) }
{
    let mut p = start;
    for number in moves {
        text.extend_from_slice(b" ")?;
        push_escaped(text, G::move_text(p, *number).as_slice())?;
        p = G::play(p, *number);
    }
    Ok(())
}

// Appends how the line of best play ends.
fn push_end(text: &mut Vec<u8>, end: LineEnd) -> Result<(), AllocError>
    ensures { OnOk result (text.new.items ≡ text.old.items ++ end_words end) }
{
    match end {
        LineEnd::Over => text.extend_from_slice(b"."),
        LineEnd::Again { .. } => text.extend_from_slice(b" and so on."),
        LineEnd::Cut => text.extend_from_slice(b" ..."),
    }
}
