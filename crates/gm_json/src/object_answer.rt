//! The answers to a text, and to an object that stands for some texts.
ghost use Rattle.std.specs.Prelude.{◌≡◌, ◌++◌, ℕ, List, Some, true, take, codes, map, IfOk, IfErr, IfSome, OnOk, IsErrOf, option_map, ◌↔◌};
ghost use Rattle.std.specs.List.{Contains, list_all};
ghost use Rattle.gm_game.specs.declared.position.Position.{Position};
ghost use Rattle.serde_json.specs.View.{view};
ghost use Rattle.serde_json.specs.Written.{compact_text};
ghost use Rattle.gm_play.specs.Refusals.{IsNotHeld};
ghost use Rattle.gm_json.specs.Answers.{IsPositionJson, IsTextAnswer, AreTextAnswers, AreObjectAnswers, read_bytes, unread_tree, error_tree, no_question_tree};
ghost use Rattle.gm_json.specs.Asking.{IsOfLine};
ghost use Rattle.gm_json.specs.Objects.{id_in, lines_in, is_id, with_id};
ghost use Rattle.gm_json.specs.Places.{IsAskedAs};
ghost use Rattle.gm_json.specs.inner.Parts.{is_clear};

use crate::answer::position_json;
use crate::ask_error::AskError;
use crate::asked::Asked;
use crate::object::{id_of, lines_of, push_with_id};
use crate::parts::{push_bytes, push_number_member, push_text_member};
use crate::place::asked_about;
use gm_game::position::Position;
use gm_game::shown::Shown;
use gm_play::closed::Closed;
use serde_json::Value as Json;
use std::alloc::{AllocError, Global};

// The number of bytes that are repeated of a line that can't be answered.
const READ: usize = 64;

/// Returns the answer for a position. `NotHeld` comes exactly if its tier has no table.
pub(crate) fn position_answer<G: Shown>(
    alloc: Global,
    tables: &Closed<'_, G>,
    tiers: &[u64],
    asked: Asked,
    p: Position,
) -> Result<Vec<u8>, AskError>
    requires legal { G.Game.rules.is_legal p ≡ true }
    ensures answer { IfOk result (λ out. IsPositionJson G.Game.rules G.shown G.move_shown asked tiers.now (G.shown p) out.items) }
    ensures kind { IfErr result IsOfLine }
    ensures not_held { IsErrOf result AskError.NotHeld ↔ IsNotHeld G.Game.rules tables.now.tables.now p }
{
    let Some(known) = tables.known(p) else {
        return Err(AskError::NotHeld);
    };
    match position_json(alloc, &known, tiers, asked) {
        Ok(out) => Ok(out),
        Err(_) => Err(AskError::OutOfMemory),
    }
}

/// Returns the answer to a text in the line with this number.
fn text_answer<G: Shown>(
    alloc: Global,
    tables: &Closed<'_, G>,
    tiers: &[u64],
    asked: Asked,
    text: &[u8],
    number: u64,
) -> Result<Vec<u8>, AskError>
    ensures answer { IfOk result (λ out. IsTextAnswer G.Game.rules G.shown G.move_shown asked tiers.now text.now number out.items) }
    ensures kind { IfErr result IsOfLine }
    ensures not_held { IsErrOf result AskError.NotHeld → ((p : Position) × IsAskedAs G.Game.rules G.shown G.move_shown text.now p
        × IsNotHeld G.Game.rules tables.now.tables.now p) }
{
    match asked_about::<G>(text) {
        Some(p) => position_answer(alloc, tables, tiers, asked, p),
        None => no_position(alloc, number, text),
    }
}

/// Returns the answer to a line that asks about no position.
pub(crate) fn no_position(alloc: Global, number: u64, line: &[u8]) -> Result<Vec<u8>, AskError>
    ensures answer { IfOk result (λ out. out.items ≡ compact_text (error_tree number line.now)) }
    ensures error { IfErr result (λ e. e ≡ AskError.OutOfMemory) }
{
    match refusal(alloc, "no such position", number, line) {
        Ok(out) => Ok(out),
        Err(_) => Err(AskError::OutOfMemory),
    }
}

/// Returns the answer to a line that can't be answered for this reason.
pub(crate) fn refusal(
    alloc: Global,
    why: &str,
    number: u64,
    line: &[u8],
) -> Result<Vec<u8>, AllocError>
    requires { list_all is_clear why.now ≡ true }
    ensures { IfOk result (λ out. out.items ≡ compact_text (unread_tree why.now number (take read_bytes line.now))) }
{
    let mut out = Vec::new(alloc);
    push_bytes(&mut out, b"{")?;
    push_text_member(alloc, &mut out, false, "error", why.as_bytes())?;
    push_number_member(&mut out, true, "line", number)?;
    push_text_member(alloc, &mut out, true, "read", first_bytes(line))?;
    push_bytes(&mut out, b"}")?;
    Ok(out)
}

// Returns the first bytes of a line.
fn first_bytes(line: &[u8]) -> &[u8]
    ensures { result.now ≡ take read_bytes line.now }
{
    if line.len() <= READ {
        line
    } else {
        &line[..READ]
    }
}

// Appends the answer to a text, with the id of its object.
fn push_text_answer<G: Shown>(
    alloc: Global,
    tables: &Closed<'_, G>,
    tiers: &[u64],
    asked: Asked,
    id: Option<&Json>,
    text: &[u8],
    number: u64,
    all: &mut Vec<u8>,
) -> Result<(), AskError>
    requires { IfSome id (λ v. is_id (view v.now) ≡ true) }
    ensures answer { OnOk result ((out : List ℕ) × IsTextAnswer G.Game.rules G.shown G.move_shown asked tiers.now text.now number out
        × (all.new.items ≡ all.old.items ++ with_id (option_map (λ v. view v.now) id.entry) out)) }
    ensures kind { IfErr result IsOfLine }
    ensures not_held { IsErrOf result AskError.NotHeld → ((p : Position) × IsAskedAs G.Game.rules G.shown G.move_shown text.now p
        × IsNotHeld G.Game.rules tables.now.tables.now p) }
{
    let out = text_answer(alloc, tables, tiers, asked, text, number)?;
    match push_with_id(alloc, all, id, out.as_slice()) {
        Ok(()) => Ok(()),
        Err(_) => Err(AskError::OutOfMemory),
    }
}

// Appends the answers to some texts after that to a first one, each on its own line.
fn push_more_answers<G: Shown>(
    alloc: Global,
    tables: &Closed<'_, G>,
    tiers: &[u64],
    asked: Asked,
    id: Option<&Json>,
    texts: &[Vec<u8>],
    number: u64,
    all: &mut Vec<u8>,
) -> Result<(), AskError>
    requires { IfSome id (λ v. is_id (view v.now) ≡ true) }
    ensures answers { (before : List (List ℕ)) → AreTextAnswers G.Game.rules G.shown G.move_shown asked tiers.now (option_map (λ v. view v.now) id.entry)
        number before (all.old.items ++ codes "\n")
        → OnOk result (AreTextAnswers G.Game.rules G.shown G.move_shown asked tiers.now (option_map (λ v. view v.now) id.entry) number
        (before ++ map (λ t. t.items) texts.now) (all.new.items ++ codes "\n")) }
    ensures kind { IfErr result IsOfLine }
    ensures not_held { IsErrOf result AskError.NotHeld → ((text : List ℕ) × (p : Position) × Contains (map (λ t. t.items) texts.now) text
        × IsAskedAs G.Game.rules G.shown G.move_shown text p × IsNotHeld G.Game.rules tables.now.tables.now p) }
{
    for text in texts {
        push_line_end(all)?;
        push_text_answer(
            alloc,
            tables,
            tiers,
            asked,
            id,
            text.as_slice(),
            number,
            all,
        )?;
    }
    Ok(())
}

// Appends the end of a line.
fn push_line_end(all: &mut Vec<u8>) -> Result<(), AskError>
    ensures ok { OnOk result (all.new.items ≡ all.old.items ++ codes "\n") }
    ensures error { IfErr result (λ e. e ≡ AskError.OutOfMemory) }
{
    match push_bytes(all, b"\n") {
        Ok(()) => Ok(()),
        Err(_) => Err(AskError::OutOfMemory),
    }
}

// Returns the answer to an object that asks nothing.
fn no_question(
    alloc: Global,
    id: Option<&Json>,
    number: u64,
    line: &[u8],
) -> Result<Vec<u8>, AllocError>
    requires { IfSome id (λ v. is_id (view v.now) ≡ true) }
    ensures { IfOk result (λ out. out.items ≡ with_id (option_map (λ v. view v.now) id.entry) (compact_text (no_question_tree number line.now))) }
{
    let answer = refusal(alloc, "no such question", number, line)?;
    let mut out = Vec::new(alloc);
    push_with_id(alloc, &mut out, id, answer.as_slice())?;
    Ok(out)
}

// Returns the answers to the texts that an object stands for, each on its own line.
fn texts_answer<G: Shown>(
    alloc: Global,
    tables: &Closed<'_, G>,
    tiers: &[u64],
    asked: Asked,
    id: Option<&Json>,
    texts: &[Vec<u8>],
    line: &[u8],
    number: u64,
) -> Result<Vec<u8>, AskError>
    requires { IfSome id (λ v. is_id (view v.now) ≡ true) }
    ensures answer { IfOk result (λ out. AreObjectAnswers G.Game.rules G.shown G.move_shown asked tiers.now (option_map (λ v. view v.now) id.entry) number
        line.now (Some (map (λ t. t.items) texts.now)) out.items) }
    ensures kind { IfErr result IsOfLine }
    ensures not_held { IsErrOf result AskError.NotHeld → ((text : List ℕ) × (p : Position) × Contains (map (λ t. t.items) texts.now) text
        × IsAskedAs G.Game.rules G.shown G.move_shown text p × IsNotHeld G.Game.rules tables.now.tables.now p) }
{
    let Some((first, rest)) = texts.split_first() else {
        return match no_question(alloc, id, number, line) {
            Ok(out) => Ok(out),
            Err(_) => Err(AskError::OutOfMemory),
        };
    };
    let mut all = Vec::new(alloc);
    push_text_answer(
        alloc,
        tables,
        tiers,
        asked,
        id,
        first.as_slice(),
        number,
        &mut all,
    )?;
    push_more_answers(alloc, tables, tiers, asked, id, rest, number, &mut all)?;
    Ok(all)
}

/// Returns the answers to an object, each on its own line, without the last line's end.
pub(crate) fn object_answer<G: Shown>(
    alloc: Global,
    tables: &Closed<'_, G>,
    tiers: &[u64],
    asked: Asked,
    tree: &Json,
    line: &[u8],
    number: u64,
) -> Result<Vec<u8>, AskError>
    ensures answer { IfOk result (λ out. AreObjectAnswers G.Game.rules G.shown G.move_shown asked tiers.now (id_in (view tree.now)) number line.now
        (lines_in (view tree.now)) out.items) }
    ensures kind { IfErr result IsOfLine }
    ensures not_held { IsErrOf result AskError.NotHeld → ((texts : List (List ℕ)) × (text : List ℕ) × (p : Position) × (lines_in (view tree.now) ≡ Some texts)
        × Contains texts text × IsAskedAs G.Game.rules G.shown G.move_shown text p × IsNotHeld G.Game.rules tables.now.tables.now p) }
{
    let id = id_of(tree);
    match lines_of(alloc, tree) {
        Ok(Some(texts)) => texts_answer(
            alloc,
            tables,
            tiers,
            asked,
            id,
            texts.as_slice(),
            line,
            number,
        ),
        Ok(None) => match no_question(alloc, id, number, line) {
            Ok(out) => Ok(out),
            Err(_) => Err(AskError::OutOfMemory),
        },
        Err(_) => Err(AskError::OutOfMemory),
    }
}
