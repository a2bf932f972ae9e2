//! Lines that name a game: a service goes on with it.
ghost use Rattle.std.specs.Prelude.{◌≡◌, ◌++◌, true, None, Some, codes, IfOk, IfSome, OnOk, option_map, string_bytes};
ghost use Rattle.serde_json.specs.View.{view};
ghost use Rattle.serde_json.specs.Written.{compact_text};
ghost use Rattle.gm_json.specs.Objects.{is_id, with_id};
ghost use Rattle.gm_json.specs.Turns.{IsTurnIn, IsTurnOf, IsNoTurn, game_of_object, turn_tree};

use crate::ask_error::AskError;
use crate::object::{id_of, is_named, object_of, push_with_id};
use crate::object_answer::refusal;
use crate::parts::{push_bytes, push_text_member};
use gm_play::streams::without_return;
use serde_json::Value as Json;
use std::alloc::{AllocError, Global};

/// A line that names a game.
#[derive(Drop)]
pub struct Turn {
    /// The name.
    pub name: String,
    /// The answer if a game has this name, with its end.
    pub there: Vec<u8>,
    /// The answer if no game has it, with its end.
    pub unknown: Vec<u8>,
}

/// Why a service stops before the end of its input: at a line that names a game, or by an error.
#[derive(Drop)]
pub enum Stop {
    Turn(Turn),
    Error(AskError),
}

// Returns the name of the game that an object names.
fn game_of(tree: &Json) -> Option<&str>
    ensures { option_map (λ s. s.now) result ≡ game_of_object (view tree.now) }
{
    if is_named(tree) {
        tree.get("game").and_then(Json::as_str)
    } else {
        None
    }
}

// Returns an answer with the id of its object and the end of a line.
fn whole_line(alloc: Global, id: Option<&Json>, answer: &[u8]) -> Result<Vec<u8>, AllocError>
    requires { IfSome id (λ v. is_id (view v.now) ≡ true) }
    ensures { IfOk result (λ v. v.items ≡ with_id (option_map (λ v. view v.now) id.entry) answer.now ++ codes "\n") }
{
    let mut out = Vec::new(alloc);
    push_with_id(alloc, &mut out, id, answer)?;
    push_bytes(&mut out, b"\n")?;
    Ok(out)
}

// Returns an object whose one member is the name of a game.
fn game_object(alloc: Global, name: &[u8]) -> Result<Vec<u8>, AllocError>
    ensures { IfOk result (λ v. v.items ≡ compact_text (turn_tree name.now)) }
{
    let mut out = Vec::new(alloc);
    push_bytes(&mut out, b"{")?;
    push_text_member(alloc, &mut out, false, "game", name)?;
    push_bytes(&mut out, b"}")?;
    Ok(out)
}

// Returns the turn that an object with this name of a game is.
fn turn_to(
    alloc: Global,
    tree: &Json,
    name: &str,
    line: &[u8],
    number: u64,
) -> Result<Turn, AllocError>
    requires { game_of_object (view tree.now) ≡ Some name.now }
    ensures { IfOk result (λ turn. IsTurnIn (view tree.now) line.now number turn) }
{
    let id = id_of(tree);
    let answer = game_object(alloc, name.as_bytes())?;
    let there = whole_line(alloc, id, answer.as_slice())?;
    let answer = refusal(alloc, "no such game", number, line)?;
    let unknown = whole_line(alloc, id, answer.as_slice())?;
    let name = String::from_str(alloc, name)?;
    Ok(Turn {
        name,
        there,
        unknown,
    })
}

// Returns the turn that an object is, if it names a game.
fn turn_in(alloc: Global, tree: &Json, line: &[u8], number: u64) -> Result<Option<Turn>, AllocError>
    ensures is { IfOk result (λ o. IfSome o (λ turn. IsTurnIn (view tree.now) line.now number turn)) }
    ensures none { IfOk result (λ o. o ≡ None → game_of_object (view tree.now) ≡ None) }
{
    match game_of(tree) {
        Some(name) => match turn_to(alloc, tree, name, line, number) {
            Ok(turn) => Ok(Some(turn)),
            Err(error) => Err(error),
        },
        None => Ok(None),
    }
}

/// Returns the turn that the line with this number is, if it names a game.
pub(crate) fn turn_of(alloc: Global, line: &[u8], number: u64) -> Result<Option<Turn>, AllocError>
    ensures is { IfOk result (λ o. IfSome o (λ turn. IsTurnOf line.now number turn)) }
    ensures none { IfOk result (λ o. o ≡ None → IsNoTurn line.now) }
{
    let text = without_return(line);
    match object_of(alloc, text) {
        Ok(Some(tree)) => {
            let turn = turn_in(alloc, &tree, text, number);
            drop(tree);
            turn
        }
        Ok(None) => Ok(None),
        Err(error) => Err(error),
    }
}
