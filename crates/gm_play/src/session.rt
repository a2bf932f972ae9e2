//! Sessions against the computer over a reader and a writer.
ghost use Rattle.std.specs.Prelude.{◌≡◌, ℕ, List, true, OnOk, IfErr};
ghost use Rattle.gm_play.specs.Reached.{AreAllHeld};
ghost use Rattle.gm_play.specs.Dialogue.{Advice, IsRightAdvice, course, unseen};
ghost use Rattle.gm_play.specs.Courses.{IsWonCourse, IsUnlostCourse};
ghost use Rattle.gm_play.specs.LastLines.{EndsWon, EndsUnlost, WritesOne};
ghost use Rattle.gm_play.specs.Sides.{IsWonIn, IsEven};
ghost use Rattle.gm_play.specs.Sessions.{IsSession, IsBroken};

use crate::known::Known;
use crate::session_error::SessionError;
use crate::sides::Side;
use crate::streams::{read_byte, say};
use crate::turns::{close, reply, turn};
use crate::view::{Plain, View};
use arrayvec::ArrayVec;
use gm_game::limits::LINE;
use gm_game::position::Position;
use gm_game::shown::Shown;
use gm_table::tables::Tables;
use std::io::{Read, Write};

/// The most bytes that one session reads.
pub const SESSION_BYTES: u32 = 1_000_000;

// The most bytes of a line that are kept: the longest text of a move, its carriage return, and a byte that marks a longer line.
const KEPT: usize = LINE + 2;

/// Plays a game with the person behind a reader and a writer. The lines are described in docs/PROGRAM.md. Allocates no memory.
///
/// Reads one byte at a time, and none after the line that ends the session. It reads at most `SESSION_BYTES`; one byte more is
/// refused as `TooMuchInput`.
pub fn session<G: Shown, R: Read, W: Write>(
    tables: &Tables<G>,
    start: Position,
    first: Side,
    input: &mut R,
    output: &mut W,
) -> Result<(), SessionError>
    requires legal { G.Game.rules.is_legal start ≡ true }
    requires held { AreAllHeld G.Game.rules tables.now start.tier }
    ensures ok { (k : Advice) → IsRightAdvice G.Game.rules start.tier k
        → OnOk result (IsSession G.Game.rules G.shown G.move_shown k unseen start first (R.remaining input.old) (R.remaining input.new)
        (W.contents output.old) (W.contents output.new)) }
    ensures err { (k : Advice) → IsRightAdvice G.Game.rules start.tier k
        → IfErr result (λ e. IsBroken G.Game.rules G.shown G.move_shown k unseen start first e (R.remaining input.old) (R.remaining input.new)
        (W.contents output.old) (W.contents output.new)) }
    ensures won { (n : ℕ) → IsWonIn G.Game.rules start first n → (k : Advice) → IsRightAdvice G.Game.rules start.tier k
        → (bytes : List ℕ) → IsWonCourse n (course G.Game.rules G.shown G.move_shown k unseen start first bytes) }
    ensures even { IsEven G.Game.rules start → (k : Advice) → IsRightAdvice G.Game.rules start.tier k
        → (bytes : List ℕ) → IsUnlostCourse (course G.Game.rules G.shown G.move_shown k unseen start first bytes) }
    ensures won_text { (n : ℕ) → IsWonIn G.Game.rules start first n → OnOk result (WritesOne EndsWon (W.contents output.old) (W.contents output.new)) }
    ensures even_text { IsEven G.Game.rules start → OnOk result (WritesOne EndsUnlost (W.contents output.old) (W.contents output.new)) }
    ensures known { (k : Advice) × IsRightAdvice G.Game.rules start.tier k }
{
    let known = Known {
        tables,
        position: start,
    };
    session_with::<G, Plain, R, W>(&known, first, input, output)
}

/// Plays a session that shows the person the view of the position before each question. Allocates no memory.
///
/// Reads one byte at a time, and none after the line that ends the session. It reads at most `SESSION_BYTES`; one byte more is
/// refused as `TooMuchInput`.
pub fn session_with<G: Shown, V: View<G>, R: Read, W: Write>(
    start: &Known<'_, G>,
    first: Side,
    input: &mut R,
    output: &mut W,
) -> Result<(), SessionError>
    ensures ok { (k : Advice) → IsRightAdvice G.Game.rules start.now.position.tier k
        → OnOk result (IsSession G.Game.rules G.shown G.move_shown k V.seen start.now.position first (R.remaining input.old) (R.remaining input.new)
        (W.contents output.old) (W.contents output.new)) }
    ensures err { (k : Advice) → IsRightAdvice G.Game.rules start.now.position.tier k
        → IfErr result (λ e. IsBroken G.Game.rules G.shown G.move_shown k V.seen start.now.position first e (R.remaining input.old) (R.remaining input.new)
        (W.contents output.old) (W.contents output.new)) }
    ensures won { (n : ℕ) → IsWonIn G.Game.rules start.now.position first n → (k : Advice) → IsRightAdvice G.Game.rules start.now.position.tier k
        → (bytes : List ℕ) → IsWonCourse n (course G.Game.rules G.shown G.move_shown k V.seen start.now.position first bytes) }
    ensures even { IsEven G.Game.rules start.now.position → (k : Advice) → IsRightAdvice G.Game.rules start.now.position.tier k
        → (bytes : List ℕ) → IsUnlostCourse (course G.Game.rules G.shown G.move_shown k V.seen start.now.position first bytes) }
    ensures won_text { (n : ℕ) → IsWonIn G.Game.rules start.now.position first n
        → OnOk result (WritesOne EndsWon (W.contents output.old) (W.contents output.new)) }
    ensures even_text { IsEven G.Game.rules start.now.position → OnOk result (WritesOne EndsUnlost (W.contents output.old) (W.contents output.new)) }
    ensures known { (k : Advice) × IsRightAdvice G.Game.rules start.now.position.tier k }
{
    start.truth();
    converse::<G, V, R, W>(start, first, input, output)
}

// Runs the session byte by byte.
fn converse<G: Shown, V: View<G>, R: Read, W: Write>(
    start: &Known<'_, G>,
    first: Side,
    input: &mut R,
    output: &mut W,
) -> Result<(), SessionError>
    ensures ok { (k : Advice) → IsRightAdvice G.Game.rules start.now.position.tier k
        → OnOk result (IsSession G.Game.rules G.shown G.move_shown k V.seen start.now.position first (R.remaining input.old) (R.remaining input.new)
        (W.contents output.old) (W.contents output.new)) }
    ensures err { (k : Advice) → IsRightAdvice G.Game.rules start.now.position.tier k
        → IfErr result (λ e. IsBroken G.Game.rules G.shown G.move_shown k V.seen start.now.position first e (R.remaining input.old) (R.remaining input.new)
        (W.contents output.old) (W.contents output.new)) }
{
    let part = turn::<G, V>(start, first);
    say(output, part.text.as_slice())?;
    let Some(mut asked) = part.asked else {
        return Ok(());
    };
    let mut line = ArrayVec::<u8, KEPT>::new();
    for count in 0..SESSION_BYTES + 1 {
        let byte = match read_byte(input) {
            Ok(Some(byte)) => byte,
            Ok(None) => return say(output, close::<G, V>(&asked, &line).as_slice()),
            Err(_) => return Err(SessionError::ReadFailed),
        };
        if count == SESSION_BYTES {
            return Err(SessionError::TooMuchInput);
        }
        if byte == b'\n' {
            let part = reply::<G, V>(&asked, &line);
            say(output, part.text.as_slice())?;
            let Some(next) = part.asked else {
                return Ok(());
            };
            asked = next;
            line.clear();
        } else if !line.is_full() {
            line.push(byte);
        }
    }
    Err(SessionError::TooMuchInput)
}
