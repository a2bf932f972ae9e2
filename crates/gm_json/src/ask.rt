//! A service that reads positions, one per line, and answers each with a line of JSON.
ghost use Rattle.std.specs.Prelude.{◌≡◌, ◌+◌, ◌≤◌, ◌∷◌, [], List, ℕ, Option, None, true, drop, length, IfOk, IfSome, OnOk, IfErr, IsErrOf, ◌<◌, ◌^◌};
ghost use Rattle.std.specs.Io.KnownBytes.{Consumes, Keeps, IsAtEnd};
ghost use Rattle.gm_game.specs.declared.position.Position.{Position};
ghost use Rattle.gm_play.specs.Refusals.{IsNotHeld};
ghost use Rattle.gm_json.specs.Answers.{IsAnswer};
ghost use Rattle.gm_json.specs.Asking.{IsServed, IsServiceBroken, IsLineDone};
ghost use Rattle.gm_json.specs.inner.Feeds.{unread, ahead};
ghost use Rattle.gm_json.specs.Turns.{IsTurnedTo, answers_after};
ghost use Rattle.gm_json.specs.inner.Midst.{GoesOn, Midst};
ghost use Rattle.gm_json.specs.inner.Stops.{IfTurn, IsErrorOf, IsLineStop, IsStopped, IsLineStopped};

use crate::ask_error::AskError;
use crate::asked::Asked;
use crate::blocks::{begin, read_block};
pub use crate::feed::BLOCK;
use crate::feed::Feed;
use crate::hand::{Course, Hand, flush, new_hand, next_line, take_answer};
use crate::turn::{Stop, Turn};
use gm_game::shown::Shown;
use gm_play::closed::Closed;
use std::alloc::Global;
use std::io::{Read, Write};

/// The line that tells that the tables are there.
pub const READY: &[u8] = b"{\"ready\":true}\n";

// The last line before which a block is read: each line that ends in the block, and one more, has a number below 2^64.
const LAST: u64 = u64::MAX - 65_540;

/// Reads positions, one per line, and answers each with one line of JSON: the position with its value and the other parts of the query, or `{"error":"no such
/// position","line":N,"read":".."}` with the number of the line, from 1, and its first 64 bytes. A carriage return before the end of a line is no part of it;
/// the last line needs no line end. Parents are looked for in these tiers.
///
/// It reads up to `BLOCK` bytes at a time, to the end of the input, and before each further read it has written the answers to all lines that have ended, many
/// by one call. `NotHeld` comes only if some position's tier has no table. After `OutOfMemory` and `NotHeld` each line before the one in
/// question is answered. After `WriteFailed` and `OutputClosed` each line that ended before the last read is answered, and of the answers to lines that ended
/// in what it gave a first part is written.
pub fn ask<G: Shown, R: Read, W: Write>(
    alloc: Global,
    tables: &Closed<'_, G>,
    tiers: &[u64],
    asked: Asked,
    input: &mut R,
    output: &mut W,
) -> Result<(), AskError>
    ensures ok { OnOk result (IsServed (IsAnswer G.Game.rules G.shown G.move_shown asked tiers.now) (R.remaining input.old) (R.remaining input.new)
        (W.contents output.old) (W.contents output.new)) }
    ensures err { IfErr result (λ e. IsServiceBroken (IsAnswer G.Game.rules G.shown G.move_shown asked tiers.now) e (R.remaining input.old)
        (R.remaining input.new)
        (W.contents output.old) (W.contents output.new)) }
    ensures not_held { IsErrOf result AskError.NotHeld → ((p : Position) × IsNotHeld G.Game.rules tables.now.tables.now p) }
{
    let mut feed = Feed::new(alloc);
    begin(alloc, &mut feed)?;
    let course = Course {
        before: 0,
        turns: false,
    };
    let mut hand = new_hand(alloc);
    let served = serve(
        alloc, tables, tiers, asked, course, &mut feed, &mut hand, input, output,
    );
    drop((feed, hand));
    match served {
        Ok(()) => Ok(()),
        Err(stop) => Err(error_of(stop)),
    }
}

// Returns the error by which a service stopped that doesn't stop at a line that names a game.
fn error_of(stop: Stop) -> AskError
    ensures { IsErrorOf stop result }
{
    match stop {
        Stop::Error(error) => error,
        Stop::Turn(turn) => {
            drop(turn);
            AskError::ReadFailed
        }
    }
}

/// Reads and answers lines as `ask` does, but stops after a line that names a game, and returns the turn to it. It takes no byte after that line: what it has
/// read of them is left in the feed, for the service that goes on. The numbers of lines go on from those that the feed has taken.
pub fn ask_until<G: Shown, R: Read, W: Write>(
    alloc: Global,
    tables: &Closed<'_, G>,
    tiers: &[u64],
    asked: Asked,
    feed: &mut Feed,
    input: &mut R,
    output: &mut W,
) -> Result<Option<Turn>, AskError>
    ensures all { IfOk result (λ o. o ≡ None → IsServed (answers_after true feed.old.lines (IsAnswer G.Game.rules G.shown G.move_shown asked tiers.now)) (ahead feed.old (R.remaining input.old))
        (R.remaining input.new) (W.contents output.old) (W.contents output.new)) }
    ensures turned { IfOk result (λ o. IfSome o (λ turn. (n : ℕ) × (feed.new.lines ≡ feed.old.lines + n) × IsTurnedTo
        (answers_after true feed.old.lines (IsAnswer G.Game.rules G.shown G.move_shown asked tiers.now)) feed.old.lines n turn (ahead feed.old (R.remaining input.old))
        (ahead feed.new (R.remaining input.new)) (W.contents output.old) (W.contents output.new))) }
    ensures err { IfErr result (λ e. IsServiceBroken (answers_after true feed.old.lines (IsAnswer G.Game.rules G.shown G.move_shown asked tiers.now)) e
        (ahead feed.old (R.remaining input.old)) (R.remaining input.new) (W.contents output.old) (W.contents output.new)) }
    ensures not_held { IsErrOf result AskError.NotHeld → ((p : Position) × IsNotHeld G.Game.rules tables.now.tables.now p) }
{
    begin(alloc, feed)?;
    let course = Course {
        before: feed.lines,
        turns: true,
    };
    let mut hand = new_hand(alloc);
    let served = serve(
        alloc, tables, tiers, asked, course, feed, &mut hand, input, output,
    );
    let number = hand.number;
    drop(hand);
    match served {
        Ok(()) => Ok(None),
        Err(Stop::Turn(turn)) => {
            feed.lines += number;
            Ok(Some(turn))
        }
        Err(Stop::Error(error)) => Err(error),
    }
}

// Takes what is read and not taken, and then reads block by block to the end.
fn serve<G: Shown, R: Read, W: Write>(
    alloc: Global,
    tables: &Closed<'_, G>,
    tiers: &[u64],
    asked: Asked,
    course: Course,
    feed: &mut Feed,
    hand: &mut Hand,
    input: &mut R,
    output: &mut W,
) -> Result<(), Stop>
    requires block { length feed.old.block.items ≡ BLOCK }
    requires before { course.before ≡ feed.old.lines }
    requires line { hand.old.line.items ≡ [] }
    requires number { hand.old.number ≡ 1 }
    requires answers { hand.old.answers.items ≡ [] }
    ensures ok { OnOk result (IsServed (answers_after course.turns course.before (IsAnswer G.Game.rules G.shown G.move_shown asked tiers.now)) (ahead feed.old (R.remaining input.old)) (R.remaining input.new)
        (W.contents output.old) (W.contents output.new)) }
    ensures err { IfErr result (λ s. IsStopped (answers_after course.turns course.before (IsAnswer G.Game.rules G.shown G.move_shown asked tiers.now)) course.before s hand.new.number (unread feed.new)
        (ahead feed.old (R.remaining input.old)) (R.remaining input.new) (W.contents output.old) (W.contents output.new)) }
    ensures late { IfErr result (λ s. IfTurn s (course.before + hand.new.number + 1 + feed.new.to < 2 ^ 64 + feed.new.from)) }
    ensures turns { IfErr result (λ s. IfTurn s (course.turns ≡ true)) }
    ensures lines { feed.new.lines ≡ feed.old.lines }
    ensures not_held { IsErrOf result (Stop.Error AskError.NotHeld) → ((p : Position) × IsNotHeld G.Game.rules tables.now.tables.now p) }
{
    answer_unread(alloc, tables, tiers, asked, course, feed, hand, output)?;
    for turn in 0..u64::MAX {
        if course.before + hand.number > LAST {
            return Err(Stop::Error(AskError::ReadFailed));
        }
        if read_block(feed, input)? == 0 {
            return answer_last(alloc, tables, tiers, asked, course, hand, output);
        }
        answer_unread(alloc, tables, tiers, asked, course, feed, hand, output)?;
    }
    Err(Stop::Error(AskError::ReadFailed))
}

// Answers each line that ends in what is read and not taken.
fn answer_unread<G: Shown, W: Write>(
    alloc: Global,
    tables: &Closed<'_, G>,
    tiers: &[u64],
    asked: Asked,
    course: Course,
    feed: &mut Feed,
    hand: &mut Hand,
    output: &mut W,
) -> Result<(), Stop>
    requires block { length feed.old.block.items ≡ BLOCK }
    requires few { course.before + hand.old.number + feed.old.to < 2 ^ 64 + feed.old.from }
    requires answers { hand.old.answers.items ≡ [] }
    ensures ok { (r0 r1 r2 w0 : Option (List ℕ)) → GoesOn (answers_after course.turns course.before (IsAnswer G.Game.rules G.shown G.move_shown asked tiers.now)) hand.old.number hand.old.line.items r0
        r1 w0 (W.contents output.old) → Consumes r1 r2 (unread feed.old)
        → OnOk result (GoesOn (answers_after course.turns course.before (IsAnswer G.Game.rules G.shown G.move_shown asked tiers.now)) hand.new.number hand.new.line.items r0 r2 w0
        (W.contents output.new)) }
    ensures err { (r0 r1 r2 w0 : Option (List ℕ)) → GoesOn (answers_after course.turns course.before (IsAnswer G.Game.rules G.shown G.move_shown asked tiers.now)) hand.old.number hand.old.line.items
        r0 r1 w0 (W.contents output.old) → Consumes r1 r2 (unread feed.old)
        → IfErr result (λ s. IsStopped (answers_after course.turns course.before (IsAnswer G.Game.rules G.shown G.move_shown asked tiers.now)) course.before s hand.new.number (unread feed.new) r0 r2 w0
        (W.contents output.new)) }
    ensures empty { OnOk result (hand.new.answers.items ≡ []) }
    ensures taken { OnOk result (feed.new.to ≤ feed.new.from) }
    ensures number { OnOk result (course.before + hand.new.number < 2 ^ 64) }
    ensures late { IfErr result (λ s. IfTurn s (course.before + hand.new.number + 1 + feed.new.to < 2 ^ 64 + feed.new.from)) }
    ensures turns { IfErr result (λ s. IfTurn s (course.turns ≡ true)) }
    ensures block { length feed.new.block.items ≡ BLOCK }
    ensures lines { feed.new.lines ≡ feed.old.lines }
    ensures not_held { IsErrOf result (Stop.Error AskError.NotHeld) → ((p : Position) × IsNotHeld G.Game.rules tables.now.tables.now p) }
{
    let block = &feed.block[..feed.to];
    answer_block(
        alloc,
        tables,
        tiers,
        asked,
        course,
        block,
        &mut feed.from,
        hand,
        output,
    )
}

// Answers each line that ends in a block, from a byte on.
fn answer_block<G: Shown, W: Write>(
    alloc: Global,
    tables: &Closed<'_, G>,
    tiers: &[u64],
    asked: Asked,
    course: Course,
    block: &[u8],
    from: &mut usize,
    hand: &mut Hand,
    output: &mut W,
) -> Result<(), Stop>
    requires few { course.before + hand.old.number + length block.now < 2 ^ 64 + from.old }
    requires short { length block.now ≤ BLOCK }
    requires from { from.old ≤ length block.now }
    requires answers { hand.old.answers.items ≡ [] }
    ensures ok { (r0 r1 r2 w0 : Option (List ℕ)) → GoesOn (answers_after course.turns course.before (IsAnswer G.Game.rules G.shown G.move_shown asked tiers.now)) hand.old.number hand.old.line.items r0
        r1 w0 (W.contents output.old) → Consumes r1 r2 (drop from.old block.now)
        → OnOk result (GoesOn (answers_after course.turns course.before (IsAnswer G.Game.rules G.shown G.move_shown asked tiers.now)) hand.new.number hand.new.line.items r0 r2 w0
        (W.contents output.new)) }
    ensures err { (r0 r1 r2 w0 : Option (List ℕ)) → GoesOn (answers_after course.turns course.before (IsAnswer G.Game.rules G.shown G.move_shown asked tiers.now)) hand.old.number hand.old.line.items
        r0 r1 w0 (W.contents output.old) → Consumes r1 r2 (drop from.old block.now)
        → IfErr result (λ s. IsStopped (answers_after course.turns course.before (IsAnswer G.Game.rules G.shown G.move_shown asked tiers.now)) course.before s hand.new.number (drop from.new block.now) r0 r2 w0
        (W.contents output.new)) }
    ensures empty { OnOk result (hand.new.answers.items ≡ []) }
    ensures taken { OnOk result (length block.now ≤ from.new) }
    ensures from { from.old ≤ from.new }
    ensures most { from.new ≤ length block.now }
    ensures number { OnOk result (hand.new.number + from.old ≤ hand.old.number + from.new) }
    ensures late { IfErr result (λ s. IfTurn s (hand.new.number + 1 + from.old ≤ hand.old.number + from.new)) }
    ensures turns { IfErr result (λ s. IfTurn s (course.turns ≡ true)) }
    ensures not_held { IsErrOf result (Stop.Error AskError.NotHeld) → ((p : Position) × IsNotHeld G.Game.rules tables.now.tables.now p) }
{
    for index in *from..block.len() {
        *from = index + 1;
        take_byte(
            alloc,
            tables,
            tiers,
            asked,
            course,
            block[index],
            hand,
            output,
        )?;
    }
    flush(&mut hand.answers, output)
}

// Takes a byte more: a line goes on with it, or ends and is answered.
fn take_byte<G: Shown, W: Write>(
    alloc: Global,
    tables: &Closed<'_, G>,
    tiers: &[u64],
    asked: Asked,
    course: Course,
    byte: u8,
    hand: &mut Hand,
    output: &mut W,
) -> Result<(), Stop>
    requires few { course.before + hand.old.number + 1 < 2 ^ 64 }
    ensures ok { (ahead : List ℕ) (r0 r1 w0 : Option (List ℕ))
        → Midst (answers_after course.turns course.before (IsAnswer G.Game.rules G.shown G.move_shown asked tiers.now)) hand.old.number hand.old.line.items hand.old.answers.items
        (byte ∷ ahead) r0 r1 w0 (W.contents output.old)
        → OnOk result (Midst (answers_after course.turns course.before (IsAnswer G.Game.rules G.shown G.move_shown asked tiers.now)) hand.new.number hand.new.line.items hand.new.answers.items ahead r0
        r1 w0 (W.contents output.new)) }
    ensures err { (ahead : List ℕ) (r0 r1 w0 : Option (List ℕ))
        → Midst (answers_after course.turns course.before (IsAnswer G.Game.rules G.shown G.move_shown asked tiers.now)) hand.old.number hand.old.line.items hand.old.answers.items
        (byte ∷ ahead) r0 r1 w0 (W.contents output.old)
        → IfErr result (λ s. IsStopped (answers_after course.turns course.before (IsAnswer G.Game.rules G.shown G.move_shown asked tiers.now)) course.before s hand.new.number ahead r0 r1 w0 (W.contents output.new)) }
    ensures number { OnOk result (hand.new.number ≤ hand.old.number + 1) }
    ensures late { IfErr result (λ s. IfTurn s (hand.new.number ≡ hand.old.number)) }
    ensures turns { IfErr result (λ s. IfTurn s (course.turns ≡ true)) }
    ensures not_held { IsErrOf result (Stop.Error AskError.NotHeld) → ((p : Position) × IsNotHeld G.Game.rules tables.now.tables.now p) }
{
    if byte == b'\n' {
        return end_line(alloc, tables, tiers, asked, course, hand, output);
    }
    if hand.line.is_full() {
        return Ok(());
    }
    hand.line.push(byte);
    Ok(())
}

// Answers the line at hand, and begins the next.
fn end_line<G: Shown, W: Write>(
    alloc: Global,
    tables: &Closed<'_, G>,
    tiers: &[u64],
    asked: Asked,
    course: Course,
    hand: &mut Hand,
    output: &mut W,
) -> Result<(), Stop>
    requires few { course.before + hand.old.number + 1 < 2 ^ 64 }
    ensures ok { OnOk result (IsLineDone (answers_after course.turns course.before (IsAnswer G.Game.rules G.shown G.move_shown asked tiers.now)) hand.old.line.items hand.old.number
        hand.old.answers.items hand.new.answers.items (W.contents output.old) (W.contents output.new)) }
    ensures line { OnOk result (hand.new.line.items ≡ []) }
    ensures number { OnOk result (hand.new.number ≡ hand.old.number + 1) }
    ensures err { IfErr result (λ s. IsLineStopped (answers_after course.turns course.before (IsAnswer G.Game.rules G.shown G.move_shown asked tiers.now)) course.before s hand.old.line.items hand.old.number
        hand.old.answers.items (W.contents output.old) (W.contents output.new)) }
    ensures late { IfErr result (λ s. IfTurn s (hand.new.number ≡ hand.old.number)) }
    ensures turns { IfErr result (λ s. IfTurn s (course.turns ≡ true)) }
    ensures not_held { IsErrOf result (Stop.Error AskError.NotHeld) → ((p : Position) × IsNotHeld G.Game.rules tables.now.tables.now p) }
{
    match take_answer(alloc, tables, tiers, asked, course, hand) {
        Ok(()) => next_line(hand, output),
        Err(stop) => {
            flush(&mut hand.answers, output)?;
            Err(stop)
        }
    }
}

// Answers the line at hand, if there is one, at the end of the input.
fn answer_last<G: Shown, W: Write>(
    alloc: Global,
    tables: &Closed<'_, G>,
    tiers: &[u64],
    asked: Asked,
    course: Course,
    hand: &mut Hand,
    output: &mut W,
) -> Result<(), Stop>
    requires few { course.before + hand.old.number + 1 < 2 ^ 64 }
    requires answers { hand.old.answers.items ≡ [] }
    ensures ok { (r0 r1 r2 w0 : Option (List ℕ)) → GoesOn (answers_after course.turns course.before (IsAnswer G.Game.rules G.shown G.move_shown asked tiers.now)) hand.old.number hand.old.line.items r0
        r1 w0 (W.contents output.old) → Keeps r1 r2 → IsAtEnd r2
        → OnOk result (IsServed (answers_after course.turns course.before (IsAnswer G.Game.rules G.shown G.move_shown asked tiers.now)) r0 r2 w0 (W.contents output.new)) }
    ensures err { (r0 r1 r2 w0 : Option (List ℕ)) → GoesOn (answers_after course.turns course.before (IsAnswer G.Game.rules G.shown G.move_shown asked tiers.now)) hand.old.number hand.old.line.items
        r0 r1 w0 (W.contents output.old) → Keeps r1 r2 → IsAtEnd r2
        → IfErr result (λ s. IsStopped (answers_after course.turns course.before (IsAnswer G.Game.rules G.shown G.move_shown asked tiers.now)) course.before s hand.new.number [] r0 r2 w0 (W.contents output.new)) }
    ensures late { IfErr result (λ s. IfTurn s (hand.new.number ≡ hand.old.number)) }
    ensures turns { IfErr result (λ s. IfTurn s (course.turns ≡ true)) }
    ensures not_held { IsErrOf result (Stop.Error AskError.NotHeld) → ((p : Position) × IsNotHeld G.Game.rules tables.now.tables.now p) }
{
    if hand.line.is_empty() {
        return Ok(());
    }
    take_answer(alloc, tables, tiers, asked, course, hand)?;
    flush(&mut hand.answers, output)
}
