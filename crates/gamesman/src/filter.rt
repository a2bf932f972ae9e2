//! Questions about the positions of the input, one in each line.
ghost use Rattle.std.specs.Prelude.{List, ℕ, IfErr, OnOk};
ghost use Rattle.std.specs.Io.KnownBytes.{Appends};
ghost use Rattle.gm_tiers.specs.Orders.{IsTierOrder};
ghost use Rattle.gm_build.specs.Work.{HoldsExactly};
ghost use Rattle.gm_play.specs.Dialogue.{without_return as without_return_spec};
ghost use Rattle.gamesman.specs.Games.{spec};
ghost use Rattle.gamesman.specs.Texts.{IsTextFor};
ghost use Rattle.gamesman.specs.Filters.{IsOfNone, IsLineFault, AreLinesAnswered};

use crate::explore::text_for;
use crate::fault::Fault;
use crate::output::put;
use crate::run::DONE;
use arrayvec::ArrayVec;
use gm_build::build::Built;
use gm_command::requests::Question;
use gm_draw::pictured::Pictured;
use gm_play::closed::Closed;
use gm_play::streams::without_return;
use std::alloc::{AllocError, Global};
use std::io::{BufReader, Read, Write};

// The number of bytes of a line that are kept, as `ask` keeps them.
const KEPT: usize = 65_538;

/// Answers each position of the input, one in each line, before it reads more than the input has available. The first line that is
/// not the text of a position ends the command.
pub fn answer_input<G: Pictured, I: Read, O: Write>(
    alloc: Global,
    built: &Built<G>,
    question: Question,
    input: &mut I,
    output: &mut O,
) -> Result<u8, Fault>
    requires order { IsTierOrder G.Game.rules built.now.order }
    requires held { HoldsExactly built.now.tables built.now.order }
    ensures { AreLinesAnswered (IsTextFor (spec G.Pictured) question) (IsOfNone G.Game.rules G.shown G.move_shown)
        (I.remaining input.old) (O.contents output.old) (O.contents output.new) result }
{
    match BufReader::new(alloc, input) {
        Ok(reader) => answer_lines(alloc, built, question, reader, output),
        Err(_) => Err(Fault::OutOfMemory(AllocError)),
    }
}

// Answers the lines of a reader, to its end.
fn answer_lines<G: Pictured, I: Read, O: Write>(
    alloc: Global,
    built: &Built<G>,
    question: Question,
    reader: I,
    output: &mut O,
) -> Result<u8, Fault>
where
    I: Drop,
    requires order { IsTierOrder G.Game.rules built.now.order }
    requires held { HoldsExactly built.now.tables built.now.order }
    ensures { AreLinesAnswered (IsTextFor (spec G.Pictured) question) (IsOfNone G.Game.rules G.shown G.move_shown)
        (I.remaining reader) (O.contents output.old) (O.contents output.new) result }
{
    let mut line: ArrayVec<u8, KEPT> = ArrayVec::new();
    let mut number: u64 = 1;
    for byte in reader.bytes() {
        let Ok(byte) = byte else {
            return Err(Fault::InputFailed);
        };
        if byte == b'\n' {
            answer_line(alloc, built, question, line.as_slice(), number, output)?;
            line.clear();
            number = number.saturating_add(1);
        } else if !line.is_full() {
            line.push(byte);
        }
    }
    if !line.is_empty() {
        answer_line(alloc, built, question, line.as_slice(), number, output)?;
    }
    Ok(DONE)
}

// Answers the line with this number. A carriage return at its end is not part of the position's text.
fn answer_line<G: Pictured, O: Write>(
    alloc: Global,
    built: &Built<G>,
    question: Question,
    line: &[u8],
    number: u64,
    output: &mut O,
) -> Result<(), Fault>
    requires order { IsTierOrder G.Game.rules built.now.order }
    requires held { HoldsExactly built.now.tables built.now.order }
    ensures ok { OnOk result ((out : List ℕ) × IsTextFor (spec G.Pictured) question (without_return_spec line.now) out
        × Appends (O.contents output.old) (O.contents output.new) out) }
    ensures err { IfErr result (IsLineFault (IsTextFor (spec G.Pictured) question)
        (IsOfNone G.Game.rules G.shown G.move_shown) line.now number (O.contents output.old) (O.contents output.new)) }
{
    let Some(position) = G::read(without_return(line)) else {
        return Err(Fault::NoSuchPositionInLine { line: number });
    };
    let tables = Closed {
        tables: &built.tables,
    };
    let Some(known) = tables.known(position) else {
        return Err(Fault::NoSuchPositionInLine { line: number });
    };
    let text = text_for(alloc, &known, question)?;
    put(output, text.as_slice())
}
