//! The answer to a line of a service, with its end.
ghost use Rattle.std.specs.Prelude.{◌≡◌, ◌++◌, List, ℕ, codes, IfOk, OnOk, IfErr, OnErr, IsErrOf};
ghost use Rattle.gm_game.specs.declared.position.Position.{Position};
ghost use Rattle.gm_play.specs.Refusals.{IsNotHeld};
ghost use Rattle.gm_json.specs.Answers.{IsAnswer};
ghost use Rattle.gm_json.specs.Asking.{IsOfLine};

use crate::answer::ask_line;
use crate::ask_error::AskError;
use crate::asked::Asked;
use gm_game::shown::Shown;
use gm_play::closed::Closed;
use std::alloc::Global;

/// Appends the answer to a line, with its end.
pub(crate) fn push_answer<G: Shown>(
    alloc: Global,
    tables: &Closed<'_, G>,
    tiers: &[u64],
    asked: Asked,
    line: &[u8],
    number: u64,
    answers: &mut Vec<u8>,
) -> Result<(), AskError>
    ensures ok { OnOk result ((out : List ℕ) × IsAnswer G.Game.rules G.shown G.move_shown asked tiers.now line.now number out
        × (answers.new.items ≡ answers.old.items ++ (out ++ codes "\n"))) }
    ensures err { OnErr result (answers.new.items ≡ answers.old.items) }
    ensures kind { IfErr result IsOfLine }
    ensures not_held { IsErrOf result AskError.NotHeld → ((p : Position) × IsNotHeld G.Game.rules tables.now.tables.now p) }
{
    let text = answer_line(alloc, tables, tiers, asked, line, number)?;
    match answers.extend_from_slice(text.as_slice()) {
        Ok(()) => Ok(()),
        Err(_) => Err(AskError::OutOfMemory),
    }
}

// Returns the answer to a line, with its end.
fn answer_line<G: Shown>(
    alloc: Global,
    tables: &Closed<'_, G>,
    tiers: &[u64],
    asked: Asked,
    line: &[u8],
    number: u64,
) -> Result<Vec<u8>, AskError>
    ensures ok { IfOk result (λ v. (out : List ℕ) × IsAnswer G.Game.rules G.shown G.move_shown asked tiers.now line.now number out
        × (v.items ≡ out ++ codes "\n")) }
    ensures kind { IfErr result IsOfLine }
    ensures not_held { IsErrOf result AskError.NotHeld → ((p : Position) × IsNotHeld G.Game.rules tables.now.tables.now p) }
{
    let mut text = ask_line(alloc, tables, tiers, asked, line, number)?;
    match text.extend_from_slice(b"\n") {
        Ok(()) => Ok(text),
        Err(_) => Err(AskError::OutOfMemory),
    }
}
