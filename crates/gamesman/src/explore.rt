//! The answers to questions about a position: the values of its moves, and best play from it.
ghost use Rattle.std.specs.Prelude.{◌≡◌, ◌++◌, codes, IfOk};
ghost use Rattle.gamesman.specs.Games.{spec};
ghost use Rattle.gamesman.specs.Texts.{IsQueryLine, IsValueLine, IsPlacedText, IsMovesText, IsBoardLine, IsDiagramText, IsTextFor};

use gm_command::requests::{DiagramForm, DiagramRequest, Question};
use gm_draw::drawn::{draw, mover};
use gm_draw::look::Look;
use gm_draw::pictured::Pictured;
use gm_game::shown::Shown;
use gm_game::text::value_text;
use gm_json::answer::position_json;
use gm_json::asked::{Asked, With};
use gm_json::board::board_json;
use gm_json::line::line_json;
use gm_json::moves::moves_json;
use gm_json::replies::replies_json;
use gm_json::why::why_json;
use gm_page::show::{show_text, svg_text, tikz_text};
use gm_play::known::Known;
use gm_play::place_texts::position_text;
use gm_play::replies::replies_text;
use gm_play::texts::{line_text, moves_text};
use gm_play::why::why_text;
use std::alloc::{AllocError, Global};

/// Returns the answer to a question about a position.
pub fn text_for<G: Pictured>(
    alloc: Global,
    known: &Known<'_, G>,
    question: Question,
) -> Result<Vec<u8>, AllocError>
    ensures { IfOk result (λ v. IsTextFor (spec G.Pictured) question (G.shown known.now.position) v.items) }
{
    match question {
        Question::Value { json: true } => value_json(alloc, known, false),
        Question::Value { .. } => value_line(alloc, known),
        Question::Moves { distinct, json } => moves_for(alloc, known, distinct, json),
        Question::Replies {
            distinct,
            json: true,
        } => replies_json(alloc, known, distinct),
        Question::Replies { distinct, .. } => replies_text(alloc, known, distinct),
        Question::Why { json: true } => why_json(alloc, known),
        Question::Why { .. } => why_text(alloc, known),
        Question::Line { limit, json: true } => line_json(alloc, known, limit),
        Question::Line { limit, .. } => line_text(alloc, known, limit),
        Question::Show { explained } => show_text(alloc, known, explained),
        Question::Board => board_line(alloc, known),
        Question::Diagram(asked) => diagram_for(alloc, known, asked),
    }
}

// Returns the moves of a position, as a line of JSON or as rows.
fn moves_for<G: Shown>(
    alloc: Global,
    known: &Known<'_, G>,
    distinct: bool,
    json: bool,
) -> Result<Vec<u8>, AllocError>
    ensures { IfOk result (λ v. IsMovesText G.Game.rules G.shown G.move_shown (G.shown known.now.position) distinct json v.items) }
{
    if json {
        ended(moves_json(alloc, known, distinct)?)
    } else {
        moves_text(alloc, known, distinct)
    }
}

/// Returns a text with the end of a line.
pub fn ended(text: Vec<u8>) -> Result<Vec<u8>, AllocError>
    ensures { IfOk result (λ v. v.items ≡ text.items ++ codes "\n") }
{
    let mut line = text;
    line.extend_from_slice(b"\n")?;
    Ok(line)
}

// Returns the value of a position as a line of JSON; on request, also its canonical position.
fn value_json<G: Shown>(
    alloc: Global,
    known: &Known<'_, G>,
    canonical: bool,
) -> Result<Vec<u8>, AllocError>
    ensures { IfOk result (λ v. IsValueLine G.Game.rules G.shown G.move_shown canonical (G.shown known.now.position) v.items) }
{
    let asked = Asked {
        values: true,
        with: With {
            canonical,
            ..Asked::PLAIN.with
        },
        ..Asked::PLAIN
    };
    ended(position_json(alloc, known, &[], asked)?)
}

/// Returns the value of a position at a place, as a line of JSON or as a row.
pub fn placed_text<G: Shown>(
    alloc: Global,
    known: &Known<'_, G>,
    json: bool,
) -> Result<Vec<u8>, AllocError>
    ensures { IfOk result (λ v. IsPlacedText G.Game.rules G.shown G.move_shown known.now.position json v.items) }
{
    if json {
        value_json(alloc, known, true)
    } else {
        position_text(alloc, known)
    }
}

// Returns the diagram of a position, as the request has it.
fn diagram_for<G: Pictured>(
    alloc: Global,
    known: &Known<'_, G>,
    asked: DiagramRequest,
) -> Result<Vec<u8>, AllocError>
    ensures { IfOk result (λ v. IsDiagramText (spec G.Pictured) asked (G.shown known.now.position) v.items) }
{
    let look = Look {
        valued: asked.valued,
        figures: asked.figures,
    };
    match asked.form {
        DiagramForm::Svg => svg_text(alloc, known, look, asked.arrow),
        DiagramForm::Tikz => tikz_text(alloc, known, look, asked.arrow),
    }
}

// Returns the board and the value of a position as a line of JSON.
fn board_line<G: Pictured>(alloc: Global, known: &Known<'_, G>) -> Result<Vec<u8>, AllocError>
    ensures { IfOk result (λ v. IsBoardLine (spec G.Pictured) (G.shown known.now.position) v.items) }
{
    let p = known.position;
    ended(board_json(alloc, known, draw::<G>(p).as_slice(), mover::<G>(p))?)
}

// Returns the value of a position as a line.
fn value_line<G: Shown>(alloc: Global, known: &Known<'_, G>) -> Result<Vec<u8>, AllocError>
    ensures { IfOk result (λ v. IsQueryLine G.Game.rules G.shown G.move_shown (G.shown known.now.position) v.items) }
{
    line_of(alloc, value_text(known.value()).as_slice())
}

fn line_of(alloc: Global, text: &[u8]) -> Result<Vec<u8>, AllocError>
    ensures { IfOk result (λ v. v.items ≡ text.now ++ codes "\n") }
{
    let mut line = Vec::new(alloc);
    line.extend_from_slice(text)?;
    line.extend_from_slice(b"\n")?;
    Ok(line)
}
