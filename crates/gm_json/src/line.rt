//! Lines of best play, in JSON.
ghost use Rattle.std.specs.Prelude.{◌≡◌, ◌++◌, [], true, false, IfOk, OnOk};
ghost use Rattle.serde_json.specs.Data.{null, object};
ghost use Rattle.serde_json.specs.View.{view, members_view};
ghost use Rattle.serde_json.specs.Written.{has_float};
ghost use Rattle.gm_json.specs.Words.{line_of};
ghost use Rattle.gm_json.specs.Lines.{again_tree, end_line, step_tree, IsLineJson};

use crate::words::{push_line, put_text, put_word, text_value};
use gm_game::position::{Position, Solved};
use gm_game::shown::Shown;
use gm_play::best_line::{LineEnd, best_line};
use gm_play::known::Known;
use gm_play::texts::{value_after, word_of};
use serde_json::{Map, Value as Json, json, put};
use std::alloc::{AllocError, Global};

/// Returns the line of best play from a position as lines of compact JSON, each with its end: the move (`null` at first), the position, its remoteness and its
/// value, the members in alphabetical order; and at the end of a draw `{"again":K}` with the number of the line, from 0, in which the last position stood
/// before. At most `limit` moves are made.
pub fn line_json<G: Shown>(
    alloc: Global,
    start: &Known<'_, G>,
    limit: usize,
) -> Result<Vec<u8>, AllocError>
    ensures { IfOk result (λ v. IsLineJson G.Game.rules G.shown G.move_shown (G.shown start.now.position) limit v.items) }
{
    let line = best_line(alloc, start, limit)?;
    let mut lines = Vec::new(alloc);
    let mut p = start.position;
    let mut value = start.value();
    push_step::<G>(alloc, &mut lines, Json::Null, p, value)?;
    for number in line.moves.as_slice() {
        let name = text_value(alloc, G::move_text(p, *number).as_slice())?;
        p = G::play(p, *number);
        value = value_after(value);
        push_step::<G>(alloc, &mut lines, name, p, value)?;
    }
    push_end(alloc, &mut lines, line.end)?;
    Ok(lines)
}

// Appends a legal position with what leads to it.
fn push_step<G: Shown>(
    alloc: Global,
    lines: &mut Vec<u8>,
    name: Json,
    p: Position,
    value: Solved,
) -> Result<(), AllocError>
    requires legal { G.Game.rules.is_legal p ≡ true }
    requires name { has_float (view name) ≡ false }
    ensures { OnOk result (lines.new.items ≡ lines.old.items ++ line_of (step_tree G.shown (view name) p value)) }
{
    let tree = step_value::<G>(alloc, name, p, value)?;
    push_line(alloc, lines, tree)
}

fn step_value<G: Shown>(
    alloc: Global,
    name: Json,
    p: Position,
    value: Solved,
) -> Result<Json, AllocError>
    requires { G.Game.rules.is_legal p ≡ true }
    ensures { IfOk result (λ v. view v ≡ step_tree G.shown (view name) p value) }
{
    let mut members = Map::new(alloc);
    put_step::<G>(alloc, &mut members, name, p, value)?;
    Ok(Json::Object(members))
}

// Puts the members of a position and what leads to it into an empty object.
fn put_step<G: Shown>(
    alloc: Global,
    members: &mut Map<String, Json>,
    name: Json,
    p: Position,
    value: Solved,
) -> Result<(), AllocError>
    requires empty { members.old.entries ≡ [] }
    requires legal { G.Game.rules.is_legal p ≡ true }
    ensures { OnOk result (object (members_view members.new.entries) ≡ step_tree G.shown (view name) p value) }
{
    put(members, alloc, "move", name)?;
    put_text(alloc, members, "position", G::show(p).as_slice())?;
    put(members, alloc, "remoteness", Json::from(value.remoteness))?;
    put_word(alloc, members, "value", word_of(value.value))
}

// Appends the earlier line of the last position of a line that comes again.
fn push_end(alloc: Global, lines: &mut Vec<u8>, end: LineEnd) -> Result<(), AllocError>
    ensures { OnOk result (lines.new.items ≡ lines.old.items ++ end_line end) }
{
    if let LineEnd::Again { first } = end {
        let tree = again_value(alloc, first)?;
        push_line(alloc, lines, tree)?;
    }
    Ok(())
}

fn again_value(alloc: Global, first: usize) -> Result<Json, AllocError>
    ensures { IfOk result (λ v. view v ≡ again_tree first) }
{
    json!(in alloc; {"again": first as u64})
}
