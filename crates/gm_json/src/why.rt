//! Why a position has its value, in JSON: its moves, the best answer to each, and the position after that.
ghost use Rattle.std.specs.Prelude.{◌≡◌, ◌++◌, ℕ, List, true, codes, IfOk, OnOk};
ghost use Rattle.gm_game.specs.declared.position.Solved.{Solved};
ghost use Rattle.gm_game.specs.Values.{IsTrueValue};
ghost use Rattle.gm_play.specs.BestMoves.{IsBestMove};
ghost use Rattle.gm_play.specs.MoveValues.{IsMoveValue};
ghost use Rattle.gm_play.specs.PlayTexts.{IsMoveOf};
ghost use Rattle.gm_play.specs.Why.{left_after};
ghost use Rattle.gm_json.specs.inner.Parts.{member_text};
ghost use Rattle.gm_json.specs.Words.{move_or_null};
ghost use Rattle.gm_json.specs.Whys.{after_tree, IsReplyLine, IsWhyJson};

use crate::moves::{push_move_members, push_value};
use crate::parts::{push_bytes, push_key, push_text};
use gm_game::game::Game;
use gm_game::position::Position;
use gm_game::shown::Shown;
use gm_play::firsts::moves_of;
use gm_play::known::Known;
use gm_play::move_values::MoveValue;
use std::alloc::{AllocError, Global};

/// Returns the moves of a position, the best first, as lines of compact JSON, each with its end: the members that `moves_json` has for a move, the best answer
/// (`null` if the move ends the game), and the position after that with its value and remoteness.
pub fn why_json<G: Shown>(alloc: Global, known: &Known<'_, G>) -> Result<Vec<u8>, AllocError>
    ensures { IfOk result (λ v. IsWhyJson G.Game.rules G.shown G.move_shown (G.shown known.now.position) v.items) }
{
    let list = moves_of(known, false);
    let mut lines = Vec::new(alloc);
    for x in list.as_slice() {
        push_reply(alloc, &mut lines, known, *x)?;
    }
    Ok(lines)
}

// Appends the line of a move.
fn push_reply<G: Shown>(
    alloc: Global,
    out: &mut Vec<u8>,
    known: &Known<'_, G>,
    x: MoveValue,
) -> Result<(), AllocError>
    requires each { IsMoveOf G.Game.rules known.now.position x }
    requires value { IsMoveValue G.Game.rules known.now.position x }
    ensures { OnOk result ((line : List ℕ) × IsReplyLine G.Game.rules G.shown G.move_shown known.now.position x line
        × (out.new.items ≡ out.old.items ++ line)) }
{
    let after = known.play(x.number);
    let answer = after.best_move();
    push_bytes(out, b"{")?;
    push_move_members::<G>(alloc, out, known.position, x)?;
    push_answer::<G>(alloc, out, after.position, answer)?;
    push_after(alloc, out, &left(after, answer))?;
    push_bytes(out, b"}\n")
}

// Returns the position after a best answer; if there is none, the position itself.
fn left<'t, G: Game>(known: Known<'t, G>, answer: Option<u32>) -> Known<'t, G>
    requires { IsBestMove G.rules known.position answer }
    ensures { result.position ≡ left_after G.rules known.entry.position answer }
{
    match answer {
        Some(number) => known.play(number),
        None => known,
    }
}

// Appends the member that has a best answer; null at an end.
fn push_answer<G: Shown>(
    alloc: Global,
    out: &mut Vec<u8>,
    p: Position,
    answer: Option<u32>,
) -> Result<(), AllocError>
    requires legal { G.Game.rules.is_legal p ≡ true }
    requires best { IsBestMove G.Game.rules p answer }
    ensures { OnOk result (out.new.items ≡ out.old.items ++ member_text true (codes "bestMove") (move_or_null G.move_shown p answer)) }
{
    push_key(out, true, "bestMove")?;
    match answer {
        Some(number) => push_text(alloc, out, G::move_text(p, number).as_slice()),
        None => push_bytes(out, b"null"),
    }
}

// Appends the member that has a position with its value.
fn push_after<G: Shown>(
    alloc: Global,
    out: &mut Vec<u8>,
    known: &Known<'_, G>,
) -> Result<(), AllocError>
    ensures { OnOk result ((s : Solved) × IsTrueValue G.Game.rules known.now.position s
        × (out.new.items ≡ out.old.items ++ member_text true (codes "after") (after_tree G.Game.rules G.shown G.move_shown known.now.position s))) }
{
    push_key(out, true, "after")?;
    push_bytes(out, b"{")?;
    push_value::<G>(alloc, out, false, known.position, known.value())?;
    push_bytes(out, b"}")
}
