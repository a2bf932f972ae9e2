//! What the moves of a position are worth, in JSON.
ghost use Rattle.std.specs.Prelude.{◌≡◌, ◌++◌, true, false, codes, IfOk, OnOk};
ghost use Rattle.std.specs.List.{All};
ghost use Rattle.serde_json.specs.Data.{Members};
ghost use Rattle.serde_json.specs.Written.{compact_text, members_text};
ghost use Rattle.gm_play.specs.PlayTexts.{IsMoveOf};
ghost use Rattle.gm_json.specs.inner.Parts.{member_text};
ghost use Rattle.gm_json.specs.Moves.{move_members, move_tree, move_trees, position_members, IsMovesJson};

use crate::parts::{
    push_bytes, push_comma, push_key, push_number_member, push_text_member, push_value_member,
};
use gm_game::position::{Position, Solved};
use gm_game::shown::Shown;
use gm_play::firsts::moves_of;
use gm_play::known::Known;
use gm_play::move_values::MoveValue;
use std::alloc::{AllocError, Global};

/// Returns a position as one line of compact JSON, without its end: its value and remoteness, and its moves, the best first, each with its worth, its result,
/// the result's value and remoteness, and the remoteness counted from before the move. If `distinct` is set, only the first of several moves that lead to one
/// canonical position is kept.
pub fn moves_json<G: Shown>(
    alloc: Global,
    known: &Known<'_, G>,
    distinct: bool,
) -> Result<Vec<u8>, AllocError>
    ensures { IfOk result (λ line. IsMovesJson G.Game.rules G.shown G.move_shown distinct (G.shown known.now.position) line.items) }
{
    let list = moves_of(known, distinct);
    let mut line = Vec::new(alloc);
    push_bytes(&mut line, b"{")?;
    push_moves::<G>(alloc, &mut line, known.position, list.as_slice())?;
    push_value::<G>(alloc, &mut line, true, known.position, known.value())?;
    push_bytes(&mut line, b"}")?;
    Ok(line)
}

/// Appends the members that have a position, its value and its remoteness.
pub(crate) fn push_value<G: Shown>(
    alloc: Global,
    out: &mut Vec<u8>,
    later: bool,
    p: Position,
    value: Solved,
) -> Result<(), AllocError>
    requires { G.Game.rules.is_legal p ≡ true }
    ensures { OnOk result ((more : Members) → out.new.items ++ members_text true more ≡ out.old.items ++ members_text later
        (position_members G.Game.rules G.shown G.move_shown p value more)) }
{
    push_text_member(alloc, out, later, "position", G::show(p).as_slice())?;
    push_value_member(out, true, "positionValue", value.value)?;
    push_number_member(out, true, "remoteness", u64::from(value.remoteness))
}

/// Appends the member that has the moves, which is the first.
pub(crate) fn push_moves<G: Shown>(
    alloc: Global,
    out: &mut Vec<u8>,
    p: Position,
    list: &[MoveValue],
) -> Result<(), AllocError>
    requires legal { G.Game.rules.is_legal p ≡ true }
    requires each { All (IsMoveOf G.Game.rules p) list.now }
    ensures { OnOk result (out.new.items ≡ out.old.items ++ member_text false (codes "moves") (move_trees G.Game.rules G.shown G.move_shown p list.now)) }
{
    push_key(out, false, "moves")?;
    push_bytes(out, b"[")?;
    let mut later = false;
    for x in list {
        push_comma(out, later)?;
        push_move::<G>(alloc, out, p, *x)?;
        later = true;
    }
    push_bytes(out, b"]")
}

// Appends a move as an object.
fn push_move<G: Shown>(
    alloc: Global,
    out: &mut Vec<u8>,
    p: Position,
    x: MoveValue,
) -> Result<(), AllocError>
    requires legal { G.Game.rules.is_legal p ≡ true }
    requires each { IsMoveOf G.Game.rules p x }
    ensures { OnOk result (out.new.items ≡ out.old.items ++ compact_text (move_tree G.Game.rules G.shown G.move_shown p x)) }
{
    push_bytes(out, b"{")?;
    push_move_members::<G>(alloc, out, p, x)?;
    push_bytes(out, b"}")
}

/// Appends the members that have a move, its worth and its result, which are the first.
pub(crate) fn push_move_members<G: Shown>(
    alloc: Global,
    out: &mut Vec<u8>,
    p: Position,
    x: MoveValue,
) -> Result<(), AllocError>
    requires legal { G.Game.rules.is_legal p ≡ true }
    requires each { IsMoveOf G.Game.rules p x }
    ensures { OnOk result ((more : Members) → out.new.items ++ members_text true more ≡ out.old.items ++ members_text false
        (move_members G.Game.rules G.shown G.move_shown p x more)) }
{
    push_text_member(
        alloc,
        out,
        false,
        "move",
        G::move_text(p, x.number).as_slice(),
    )?;
    push_value_member(out, true, "moveValue", x.worth.value)?;
    push_text_member(alloc, out, true, "position", G::show(x.position).as_slice())?;
    push_value_member(out, true, "positionValue", x.result.value)?;
    push_number_member(out, true, "remoteness", u64::from(x.result.remoteness))?;
    push_number_member(out, true, "moveRemoteness", u64::from(x.worth.remoteness))
}
