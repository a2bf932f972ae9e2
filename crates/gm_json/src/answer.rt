//! The answer to one line that should ask about a position, or be an object that stands for such lines.
ghost use Rattle.std.specs.Prelude.{◌≡◌, ◌++◌, ◌∷◌, ◌⊎◌, true, false, IfOk, IfErr, OnOk, IsErrOf};
ghost use Rattle.std.specs.List.{All};
ghost use Rattle.gm_game.specs.declared.position.Position.{Position};
ghost use Rattle.serde_json.specs.Data.{Members};
ghost use Rattle.serde_json.specs.Written.{members_text};
ghost use Rattle.gm_play.specs.Refusals.{IsNotHeld};
ghost use Rattle.gm_play.specs.PlayTexts.{IsMoveOf};
ghost use Rattle.gm_play.specs.Dialogue.{without_return as without_return_spec};
ghost use Rattle.gm_json.specs.Answers.{IsAnswer, IsOtherAnswer, IsPositionJson, IsReported, answer_members, IsAskedWithin};
ghost use Rattle.gm_json.specs.Asking.{IsOfLine};
ghost use Rattle.gm_json.specs.Places.{IsAskedAs};

use crate::ask_error::AskError;
use crate::asked::Asked;
use crate::extras::push_extras;
use crate::moves::{push_moves, push_value};
use crate::object::object_of;
use crate::object_answer::{no_position, object_answer, position_answer};
use crate::parts::push_bytes;
use crate::place::asked_about;
use gm_game::position::{Position, Solved};
use gm_game::shown::Shown;
use gm_play::closed::Closed;
use gm_play::firsts::moves_of;
use gm_play::known::Known;
use gm_play::move_values::MoveValue;
use gm_play::streams::without_return;
use std::alloc::{AllocError, Global};

/// Returns the answer to the line with this number: the answer for the position with this text, or with the tier and the index of a line `@TIER INDEX`; the answers
/// to the texts that an object stands for, each on its own line; or the error that there is no such position, with the first 64 bytes of the line. A carriage return at
/// the end of the line is no part of it. Parents are looked for in these tiers. `NotHeld` comes if the tier of a position has no table.
pub fn ask_line<G: Shown>(
    alloc: Global,
    tables: &Closed<'_, G>,
    tiers: &[u64],
    asked: Asked,
    line: &[u8],
    number: u64,
) -> Result<Vec<u8>, AskError>
    ensures answer { IfOk result (λ out. IsAnswer G.Game.rules G.shown G.move_shown asked tiers.now line.now number out.items) }
    ensures kind { IfErr result IsOfLine }
    ensures not_held { IsErrOf result AskError.NotHeld → ((p : Position) × (IsAskedAs G.Game.rules G.shown G.move_shown (without_return_spec line.now) p
        ⊎ IsAskedWithin G.Game.rules G.shown G.move_shown (without_return_spec line.now) p) × IsNotHeld G.Game.rules tables.now.tables.now p) }
    ensures unheld { (p : Position) → IsAskedAs G.Game.rules G.shown G.move_shown (without_return_spec line.now) p
        → IsNotHeld G.Game.rules tables.now.tables.now p → IsErrOf result AskError.NotHeld }
{
    let text = without_return(line);
    match asked_about::<G>(text) {
        Some(p) => position_answer(alloc, tables, tiers, asked, p),
        None => other_answer(alloc, tables, tiers, asked, text, number),
    }
}

// Returns the answer to a line that asks about no position itself.
fn other_answer<G: Shown>(
    alloc: Global,
    tables: &Closed<'_, G>,
    tiers: &[u64],
    asked: Asked,
    line: &[u8],
    number: u64,
) -> Result<Vec<u8>, AskError>
    ensures answer { IfOk result (λ out. IsOtherAnswer G.Game.rules G.shown G.move_shown asked tiers.now line.now number out.items) }
    ensures kind { IfErr result IsOfLine }
    ensures not_held { IsErrOf result AskError.NotHeld → ((p : Position) × IsAskedWithin G.Game.rules G.shown G.move_shown line.now p
        × IsNotHeld G.Game.rules tables.now.tables.now p) }
{
    match object_of(alloc, line) {
        Ok(Some(tree)) => {
            let answer = object_answer(alloc, tables, tiers, asked, &tree, line, number);
            drop(tree);
            answer
        }
        Ok(None) => no_position(alloc, number, line),
        Err(_) => Err(AskError::OutOfMemory),
    }
}

/// Returns a position as one line of compact JSON, without its end, as `ask_line` answers its text.
pub fn position_json<G: Shown>(
    alloc: Global,
    known: &Known<'_, G>,
    tiers: &[u64],
    asked: Asked,
) -> Result<Vec<u8>, AllocError>
    ensures { IfOk result (λ out. IsPositionJson G.Game.rules G.shown G.move_shown asked tiers.now (G.shown known.now.position) out.items) }
{
    if asked.values {
        return whole_json(alloc, known, tiers, asked, &[]);
    }
    let list = moves_of(known, asked.distinct);
    whole_json(alloc, known, tiers, asked, list.as_slice())
}

// Returns a position with some of its moves, and with what else is asked for.
fn whole_json<G: Shown>(
    alloc: Global,
    known: &Known<'_, G>,
    tiers: &[u64],
    asked: Asked,
    list: &[MoveValue],
) -> Result<Vec<u8>, AllocError>
    requires { All (IsMoveOf G.Game.rules known.now.position) list.now }
    ensures { IfOk result (λ out. IsReported G.Game.rules G.shown G.move_shown asked tiers.now known.now.position list.now out.items) }
{
    let mut out = Vec::new(alloc);
    push_front::<G>(alloc, &mut out, asked, known.position, known.value(), list)?;
    push_extras(alloc, known, tiers, asked.with, &mut out)?;
    push_bytes(&mut out, b"}")?;
    Ok(out)
}

// Appends the first members: the moves unless the value alone is asked for, the position, its value and its remoteness.
fn push_front<G: Shown>(
    alloc: Global,
    out: &mut Vec<u8>,
    asked: Asked,
    p: Position,
    value: Solved,
    list: &[MoveValue],
) -> Result<(), AllocError>
    requires legal { G.Game.rules.is_legal p ≡ true }
    requires each { All (IsMoveOf G.Game.rules p) list.now }
    ensures { OnOk result ((more : Members) → out.new.items ++ members_text true more ≡ out.old.items ++ 123 ∷ members_text false
        (answer_members G.Game.rules G.shown G.move_shown asked p value list.now more)) }
{
    push_bytes(out, b"{")?;
    if asked.values {
        return push_value::<G>(alloc, out, false, p, value);
    }
    push_moves::<G>(alloc, out, p, list)?;
    push_value::<G>(alloc, out, true, p, value)
}
