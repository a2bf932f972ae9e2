//! The texts of answers: values, moves and lines of play.
ghost use Rattle.std.specs.Prelude.{◌≡◌, ◌++◌, IfOk, OnOk};
ghost use Rattle.gm_game.specs.Texts.{text_of};
ghost use Rattle.gm_play.specs.BestLines.{AreBest};
ghost use Rattle.gm_play.specs.PlayTexts.{row_of_three, value_word, end_row, after_best, IsMoveOf, move_row, AreMoveRows, rows_from, IsLineText};

use crate::best_line::{LineEnd, best_line};
use crate::best_moves::wanted;
use crate::firsts::moves_of;
use crate::known::Known;
use crate::move_values::MoveValue;
use gm_game::position::{Solved, Value};
use gm_game::shown::{Line, Shown};
use gm_game::text::{push_decimal, value_text};
use std::alloc::{AllocError, Global};

/// Returns the rows of the moves of a position, the best first: the text of the move, its worth, and its result, separated by tabs.
/// If `distinct` is set, only the first of several moves to the same canonical position is kept.
pub fn moves_text<G: Shown>(
    alloc: Global,
    known: &Known<'_, G>,
    distinct: bool,
) -> Result<Vec<u8>, AllocError>
    ensures { IfOk result (λ v. AreMoveRows G.Game.rules G.shown G.move_shown distinct (G.shown known.now.position) v.items) }
{
    let list = moves_of(known, distinct);
    let mut rows = Vec::new(alloc);
    for x in list.as_slice() {
        push_move(&mut rows, known, *x)?;
    }
    Ok(rows)
}

fn push_move<G: Shown>(
    rows: &mut Vec<u8>,
    known: &Known<'_, G>,
    x: MoveValue,
) -> Result<(), AllocError>
    requires { IsMoveOf G.Game.rules known.now.position x }
    ensures { OnOk result (rows.new.items ≡ rows.old.items ++ move_row G.Game.rules G.shown G.move_shown known.now.position x) }
{
    push_row(
        rows,
        G::move_text(known.position, x.number).as_slice(),
        value_text(x.worth).as_slice(),
        G::show(x.position).as_slice(),
    )
}

/// Appends a row of three fields, separated by tabs.
pub(crate) fn push_row(rows: &mut Vec<u8>, a: &[u8], b: &[u8], c: &[u8]) -> Result<(), AllocError>
    ensures { OnOk result (rows.new.items ≡ rows.old.items ++ row_of_three a.now b.now c.now) }
{
    push_field(rows, a, b"\t")?;
    push_field(rows, b, b"\t")?;
    push_field(rows, c, b"\n")
}

/// Appends a field and its end. After an error the field may have been appended without its end.
pub fn push_field(rows: &mut Vec<u8>, field: &[u8], end: &[u8]) -> Result<(), AllocError>
    ensures { OnOk result (rows.new.items ≡ rows.old.items ++ (field.now ++ end.now)) }
{
    rows.extend_from_slice(field)?;
    rows.extend_from_slice(end)
}

/// Returns the word of a value: `win`, `tie`, `draw` or `lose`.
pub fn word_of(value: Value) -> &'static str
    ensures { result.now ≡ value_word value }
{
    match value {
        Value::Lose => "lose",
        Value::Draw => "draw",
        Value::Tie => "tie",
        Value::Win => "win",
    }
}

/// Returns the rows of the line of best play from a position, of at most `limit` moves: the text of a move (empty in the first
/// row), the position, and its value, separated by tabs. If the last position has occurred before, a final row `again N` has the
/// number of its earlier row, from 0.
pub fn line_text<G: Shown>(
    alloc: Global,
    start: &Known<'_, G>,
    limit: usize,
) -> Result<Vec<u8>, AllocError>
    ensures { IfOk result (λ v. IsLineText G.Game.rules G.shown G.move_shown (G.shown start.now.position) limit v.items) }
{
    let line = best_line(alloc, start, limit)?;
    let mut rows = Vec::new(alloc);
    let value = start.value();
    push_place(&mut rows, b"", start, value)?;
    push_steps(&mut rows, start, value, line.moves.as_slice())?;
    push_end(&mut rows, line.end)?;
    Ok(rows)
}

/// Returns the value of the result of a best move, from the value of its position.
pub fn value_after(value: Solved) -> Solved
    ensures { result ≡ after_best value }
{
    Solved {
        value: wanted(value.value),
        remoteness: value.remoteness.saturating_sub(1),
    }
}

// Appends the rows of best moves from a position of this value.
fn push_steps<G: Shown>(
    rows: &mut Vec<u8>,
    start: &Known<'_, G>,
    value: Solved,
    moves: &[u32],
) -> Result<(), AllocError>
    requires { AreBest G.Game.rules start.now.position moves.now }
    ensures { OnOk result (rows.new.items ≡ rows.old.items ++ rows_from G.Game.rules G.shown G.move_shown start.now.position value moves.now) }
{
    let mut here = *start;
    let mut value = value;
    for number in moves {
        let text = G::move_text(here.position, *number);
        here = here.play(*number);
        value = value_after(value);
        push_place(rows, text.as_slice(), &here, value)?;
    }
    Ok(())
}

// Appends a row: the text of a move, which may be empty, the position that it leads to, and the position's value.
fn push_place<G: Shown>(
    rows: &mut Vec<u8>,
    text: &[u8],
    known: &Known<'_, G>,
    value: Solved,
) -> Result<(), AllocError>
    ensures { OnOk result (rows.new.items ≡ rows.old.items ++ row_of_three text.now (G.shown known.now.position) (text_of value)) }
{
    push_row(
        rows,
        text,
        G::show(known.position).as_slice(),
        value_text(value).as_slice(),
    )
}

// Appends the row that refers to the earlier row of the last position, if the line ends with a repetition.
fn push_end(rows: &mut Vec<u8>, end: LineEnd) -> Result<(), AllocError>
    ensures { OnOk result (rows.new.items ≡ rows.old.items ++ end_row end) }
{
    let LineEnd::Again { first } = end else {
        return Ok(());
    };
    let mut number = Line::new();
    push_decimal(&mut number, first as u64);
    rows.extend_from_slice(b"again ")?;
    push_field(rows, number.as_slice(), b"\n")
}
