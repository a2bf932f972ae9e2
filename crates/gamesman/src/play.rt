//! A session of play, from the start of a game or from a position.
ghost use Rattle.std.specs.Prelude.{◌≡◌, ◌++◌, ℕ, codes, IfErr, OnErr, OnOk};
ghost use Rattle.std.specs.Io.KnownBytes.{Appends};
ghost use Rattle.gm_play.specs.Sides.{IsWonIn, IsEven};
ghost use Rattle.gm_play.specs.Dialogue.{Advice, IsRightAdvice};
ghost use Rattle.gm_play.specs.LastLines.{EndsWon, EndsUnlost, WritesOne};
ghost use Rattle.gm_play.specs.Sessions.{IsSession, IsBroken, AppendsPart};
ghost use Rattle.gamesman.specs.Outputs.{IsOutputFault};
ghost use Rattle.gamesman.specs.Plays.{first_text as first_text_spec, whose_text as whose_text_spec, sides_text, opening, seen_by, IsSitting};

use crate::fault::Fault;
use crate::output::put;
use crate::run::DONE;
use gm_command::requests::PlayRequest;
use gm_draw::drawn::mover;
use gm_draw::pictured::Pictured;
use gm_page::boards::Boards;
use gm_play::known::Known;
use gm_play::session::session_with;
use gm_play::session_error::SessionError;
use gm_play::sides::Side;
use gm_play::view::Plain;
use std::io::{Read, Write};

// Returns the line that states who moves first.
fn first_text(first: Side) -> &'static [u8]
    ensures { result.now ≡ first_text_spec first }
{
    match first {
        Side::You => b"you move first\n",
        Side::Computer => b"the computer moves first\n",
    }
}

// Returns the beginning of the line that states the side of one of the two.
fn whose_text(side: Side) -> &'static [u8]
    ensures { result.now ≡ whose_text_spec side }
{
    match side {
        Side::You => b"you are the ",
        Side::Computer => b"the computer is the ",
    }
}

// Writes the line that states the side of one of the two.
fn write_side<O: Write>(side: Side, mover: &[u8], output: &mut O) -> Result<(), Fault>
    ensures ok { OnOk result (Appends (O.contents output.old) (O.contents output.new) (whose_text_spec side ++ mover.now ++ codes "\n")) }
    ensures err { OnErr result (AppendsPart (O.contents output.old) (O.contents output.new) (whose_text_spec side ++ mover.now ++ codes "\n")) }
    ensures fault { IfErr result IsOutputFault }
{
    put(output, whose_text(side))?;
    put(output, mover)?;
    put(output, b"\n")
}

// Writes who the person is. In a game of `x` and `o` the person is always `x`. If the sides have no names, the line states who
// moves first.
fn write_sides<O: Write>(mover: &[u8], first: Side, output: &mut O) -> Result<(), Fault>
    ensures ok { OnOk result (Appends (O.contents output.old) (O.contents output.new) (sides_text mover.now first)) }
    ensures err { OnErr result (AppendsPart (O.contents output.old) (O.contents output.new) (sides_text mover.now first)) }
    ensures fault { IfErr result IsOutputFault }
{
    if mover == b"x".as_slice() {
        return put(output, b"you are x, the computer is o\n");
    }
    if mover == b"player".as_slice() {
        return put(output, first_text(first));
    }
    write_side(first, mover, output)
}

// Writes the opening before the dialogue. It states who the person is if boards are drawn, and otherwise it is empty.
fn write_opening<O: Write>(
    mover: &[u8],
    first: Side,
    drawn: bool,
    output: &mut O,
) -> Result<(), Fault>
    ensures ok { OnOk result (Appends (O.contents output.old) (O.contents output.new) (opening drawn mover.now first)) }
    ensures err { OnErr result (AppendsPart (O.contents output.old) (O.contents output.new) (opening drawn mover.now first)) }
    ensures fault { IfErr result IsOutputFault }
{
    if !drawn {
        return Ok(());
    }
    write_sides(mover, first, output)
}

// Holds the session, with or without boards.
fn sit<G: Pictured, I: Read, O: Write>(
    known: &Known<'_, G>,
    first: Side,
    drawn: bool,
    input: &mut I,
    output: &mut O,
) -> Result<(), SessionError>
    ensures ok { (k : Advice) → IsRightAdvice G.Game.rules known.now.position.tier k
        → OnOk result (IsSession G.Game.rules G.shown G.move_shown k (seen_by G.Game.rules G.shown G.move_shown G.picture drawn)
        known.now.position first (I.remaining input.old) (I.remaining input.new) (O.contents output.old) (O.contents output.new)) }
    ensures err { (k : Advice) → IsRightAdvice G.Game.rules known.now.position.tier k
        → IfErr result (λ e. IsBroken G.Game.rules G.shown G.move_shown k (seen_by G.Game.rules G.shown G.move_shown G.picture drawn)
        known.now.position first e (I.remaining input.old) (I.remaining input.new) (O.contents output.old) (O.contents output.new)) }
    ensures won { (n : ℕ) → IsWonIn G.Game.rules known.now.position first n
        → OnOk result (WritesOne EndsWon (O.contents output.old) (O.contents output.new)) }
    ensures even { IsEven G.Game.rules known.now.position → OnOk result (WritesOne EndsUnlost (O.contents output.old) (O.contents output.new)) }
    ensures known { (k : Advice) × IsRightAdvice G.Game.rules known.now.position.tier k }
{
    if drawn {
        session_with::<G, Boards, I, O>(known, first, input, output)
    } else {
        session_with::<G, Plain, I, O>(known, first, input, output)
    }
}

/// Plays from a position with the person who reads the output and writes the input.
pub fn play<G: Pictured, I: Read, O: Write>(
    known: &Known<'_, G>,
    asked: PlayRequest<'_>,
    input: &mut I,
    output: &mut O,
) -> Result<u8, Fault>
    ensures { IsSitting G.Game.rules G.shown G.move_shown G.picture asked.entry known.now.position
        (I.remaining input.old) (O.contents output.old) (O.contents output.new) result }
{
    let mover = mover::<G>(known.position);
    write_opening(mover, asked.first, asked.drawn, output)?;
    sit(known, asked.first, asked.drawn, input, output)?;
    Ok(DONE)
}
