//! What a service has at hand: the line that has begun and the answers that are not written yet.
ghost use Rattle.std.specs.Prelude.{◌≡◌, ◌+◌, ◌++◌, [], List, ℕ, true, codes, OnOk, OnErr, IfErr, IsErrOf, ◌<◌, ◌^◌};
ghost use Rattle.std.specs.Io.KnownBytes.{Appends};
ghost use Rattle.gm_game.specs.declared.position.Position.{Position};
ghost use Rattle.gm_play.specs.Sessions.{AppendsPart};
ghost use Rattle.gm_play.specs.Refusals.{IsNotHeld};
ghost use Rattle.gm_json.specs.Answers.{IsAnswer};
ghost use Rattle.gm_json.specs.Turns.{IsNoTurn, answers_after};
ghost use Rattle.gm_json.specs.inner.Stops.{IfTurn, IsOutputStop, IsLineStop};

use crate::ask_error::AskError;
use crate::asked::Asked;
use crate::feed::BLOCK;
use crate::line_answer::push_answer;
use crate::object::LONGEST;
use crate::turn::{Stop, turn_of};
use arrayvec::ArrayVec;
use gm_game::shown::Shown;
use gm_play::closed::Closed;
use gm_play::streams::write_text;
use std::alloc::Global;
use std::io::{ErrorKind, Write};

/// How much of a line is kept: the longest object, its return, and a byte that marks a longer line.
pub(crate) const KEPT: usize = LONGEST + 2;

/// What a service has at hand: the line that has begun, its number, and the answers that are not written yet.
#[derive(Drop)]
pub(crate) struct Hand {
    pub(crate) line: ArrayVec<u8, KEPT>,
    pub(crate) number: u64,
    pub(crate) answers: Vec<u8>,
}

/// How many lines come before those of a service, and whether it stops at a line that names a game.
#[derive(Clone, Copy)]
pub(crate) struct Course {
    pub(crate) before: u64,
    pub(crate) turns: bool,
}

/// Returns what is at hand at the start: nothing, before the first line.
pub(crate) fn new_hand(alloc: Global) -> Hand
    ensures line { result.line.items ≡ [] }
    ensures number { result.number ≡ 1 }
    ensures answers { result.answers.items ≡ [] }
{
    Hand {
        line: ArrayVec::new(),
        number: 1,
        answers: Vec::new(alloc),
    }
}

/// Begins the next line. What is answered is written once it is as long as a block.
pub(crate) fn next_line<W: Write>(hand: &mut Hand, output: &mut W) -> Result<(), Stop>
    requires few { hand.old.number + 1 < 2 ^ 64 }
    ensures ok { OnOk result ((done : List ℕ) × (hand.old.answers.items ≡ done ++ hand.new.answers.items)
        × Appends (W.contents output.old) (W.contents output.new) done) }
    ensures line { OnOk result (hand.new.line.items ≡ []) }
    ensures number { OnOk result (hand.new.number ≡ hand.old.number + 1) }
    ensures err { OnErr result (AppendsPart (W.contents output.old) (W.contents output.new) hand.old.answers.items) }
    ensures kind { IfErr result IsOutputStop }
{
    hand.line.clear();
    hand.number += 1;
    if hand.answers.len() < BLOCK {
        return Ok(());
    }
    flush(&mut hand.answers, output)
}

/// Appends the answer to the line at hand to the answers, unless the service stops at it.
pub(crate) fn take_answer<G: Shown>(
    alloc: Global,
    tables: &Closed<'_, G>,
    tiers: &[u64],
    asked: Asked,
    course: Course,
    hand: &mut Hand,
) -> Result<(), Stop>
    requires few { course.before + hand.old.number + 1 < 2 ^ 64 }
    ensures ok { OnOk result ((out : List ℕ) × (answers_after course.turns course.before (IsAnswer G.Game.rules G.shown G.move_shown asked tiers.now)) hand.old.line.items hand.old.number out
        × (hand.new.answers.items ≡ hand.old.answers.items ++ (out ++ codes "\n"))) }
    ensures err { OnErr result (hand.new.answers.items ≡ hand.old.answers.items) }
    ensures kind { IfErr result (IsLineStop hand.old.line.items (course.before + hand.old.number)) }
    ensures number { hand.new.number ≡ hand.old.number }
    ensures turns { IfErr result (λ s. IfTurn s (course.turns ≡ true)) }
    ensures not_held { IsErrOf result (Stop.Error AskError.NotHeld) → ((p : Position) × IsNotHeld G.Game.rules tables.now.tables.now p) }
{
    let number = course.before + hand.number;
    check_turn(alloc, course, &hand.line, number)?;
    match push_answer(
        alloc,
        tables,
        tiers,
        asked,
        &hand.line,
        number,
        &mut hand.answers,
    ) {
        Ok(()) => Ok(()),
        Err(error) => Err(Stop::Error(error)),
    }
}

// Checks that a service doesn't stop at the line with this number: that the line names no game, if such a line stops it.
fn check_turn(alloc: Global, course: Course, line: &[u8], number: u64) -> Result<(), Stop>
    ensures ok { OnOk result (course.turns ≡ true → IsNoTurn line.now) }
    ensures kind { IfErr result (IsLineStop line.now number) }
    ensures turns { IfErr result (λ s. IfTurn s (course.turns ≡ true)) }
    ensures held { IsErrOf result (Stop.Error AskError.NotHeld) → ⊥ }
{
    if !course.turns {
        return Ok(());
    }
    match turn_of(alloc, line, number) {
        Ok(Some(turn)) => Err(Stop::Turn(turn)),
        Ok(None) => Ok(()),
        Err(_) => Err(Stop::Error(AskError::OutOfMemory)),
    }
}

/// Writes the answers, by one call if the writer takes them whole, and has none left.
pub(crate) fn flush<W: Write>(answers: &mut Vec<u8>, output: &mut W) -> Result<(), Stop>
    ensures ok { OnOk result (Appends (W.contents output.old) (W.contents output.new) answers.old.items) }
    ensures empty { OnOk result (answers.new.items ≡ []) }
    ensures err { OnErr result (AppendsPart (W.contents output.old) (W.contents output.new) answers.old.items) }
    ensures kind { IfErr result IsOutputStop }
{
    match write_text(output, answers.as_slice()) {
        Ok(()) => {
            answers.clear();
            Ok(())
        }
        Err(error) if error.kind() == ErrorKind::BrokenPipe => Err(Stop::Error(
            AskError::OutputClosed,
        )),
        Err(_) => Err(Stop::Error(AskError::WriteFailed)),
    }
}
