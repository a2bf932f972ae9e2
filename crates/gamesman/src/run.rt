//! Running a line of words, from the program's name to the exit status.
ghost use Rattle.std.specs.Prelude.{◌≡◌, map, IfOk, IfSome};
ghost use Rattle.gm_play.specs.Sessions.{AppendsPart};
ghost use Rattle.gamesman.specs.Told.{IsPut};
ghost use Rattle.gamesman.specs.Listing.{listed_names, IsListed};
ghost use Rattle.gamesman.specs.Answers.{IsDone, IsRun};
ghost use Rattle.gamesman.specs.LineRuns.{IsLineRun, bad_line};
ghost use Rattle.gamesman.specs.Reasons.{line_for};

use crate::engine::page_of_games;
use crate::fault::Fault;
use crate::games::answer_all;
use crate::host::Host;
use crate::listing::games_text;
use crate::output::{put, put_all, put_text};
use crate::reasons::advise;
use crate::sheet::write_sheet;
use crate::tables::BuildOptions;
use arrayvec::ArrayString;
use gm_command::manual::{Manual, manual_text};
use gm_command::names::{LISTED, LISTED_LATER, game_named};
use gm_command::reading::{Help, ReadError, read_words, what_is_wrong};
use gm_command::requests::{ListForm, Reading, Request};
use std::alloc::{AllocError, Global};
use std::fmt::Write as _;
use std::io::{Read, Write};

/// The status of a command that is done.
pub const DONE: u8 = 0;

/// The status of a command that is refused or fails, with the reason on standard error.
pub const REFUSED: u8 = 1;

/// The status of a line that the program doesn't know.
pub const BAD_LINE: u8 = 2;

/// What standard error is written for.
#[derive(Clone, Copy)]
pub struct Manner {
    /// Standard error is a terminal, at which the progress of a build is shown.
    pub terminal: bool,
    /// What is wrong, or what to do, follows the line of a fault.
    pub explained: bool,
}

// More bytes than the line of any fault has: two numbers of twenty digits and the words between them.
const LINE: usize = 192;

fn list<O: Write>(all: bool, output: &mut O) -> Result<u8, Fault>
    ensures { IsPut (listed_names all) (O.contents output.old) (O.contents output.new) result }
{
    put(output, LISTED.as_bytes())?;
    if all {
        return put_all(output, LISTED_LATER.as_bytes());
    }
    Ok(DONE)
}

// Lists the games in this form.
fn write_list<O: Write>(
    alloc: Global,
    all: bool,
    form: ListForm,
    output: &mut O,
) -> Result<u8, Fault>
    ensures { IsListed all form (O.contents output.old) (O.contents output.new) result }
{
    match form {
        ListForm::Names => list(all, output),
        ListForm::Titles => put_text(output, games_text(alloc, all, false)),
        ListForm::Json => put_text(output, games_text(alloc, all, true)),
    }
}

// Writes a text about the program, with one call.
fn write_manual<O: Write>(alloc: Global, manual: Manual, output: &mut O) -> Result<u8, Fault> {
    let text = manual_text(alloc, manual)?;
    put(output, text.as_slice())?;
    Ok(DONE)
}

fn write_help<O: Write>(text: Help, output: &mut O) -> Result<u8, Fault>
    ensures { IfOk result (λ status. status ≡ DONE) }
{
    write!(output, "{text}")?;
    Ok(DONE)
}

// Answers a request.
fn answer<R: Host, I: Read, O: Write, E: Write + Send>(
    rt: &R,
    request: Request<'_>,
    manner: Manner,
    input: &mut I,
    output: &mut O,
    errors: &mut E,
) -> Result<u8, Fault>
    ensures { IsDone request.entry (I.remaining input.old) (O.contents output.old) (O.contents output.new) result }
{
    match request {
        Request::List { all, form } => write_list(rt.alloc(), all, form, output),
        Request::Game(request) => match game_named(request.game) {
            Some(game) => {
                let options = BuildOptions::of(request, manner.terminal);
                answer_all(rt, game, request.command, options, input, output, errors)
            }
            None => Err(Fault::NoSuchGame),
        },
        Request::AllGames { engine } => page_of_games(rt, engine, output),
        Request::Sheet(request) => write_sheet(rt, request, manner.terminal, input, output, errors),
        Request::Manual(manual) => write_manual(rt.alloc(), manual, output),
    }
}

// Returns the line of a fault; nothing if it is too long, which that of no fault is.
fn fault_line(fault: &Fault) -> Option<ArrayString<LINE>>
    ensures { IfSome result (λ line. IfSome (line_for fault.now) (λ text. line.bytes ≡ text)) }
{
    let mut line = ArrayString::new();
    match writeln!(line, "gamesman: {fault}") {
        Ok(()) => Some(line),
        Err(_) => None,
    }
}

/// Reports on standard error why a line was refused. If this write fails nothing more is written, but the status still shows the
/// refusal. Nothing is reported if the output was closed.
pub fn refused<E: Write>(fault: &Fault, errors: &mut E) -> u8
    ensures status { result ≡ REFUSED }
    ensures said { IfSome (line_for fault.now) (AppendsPart (E.contents errors.old) (E.contents errors.new)) }
{
    if matches!(fault, Fault::OutputClosed) {
        return REFUSED;
    }
    if let Some(line) = fault_line(fault) {
        let _ = put(errors, line.as_bytes());
    }
    REFUSED
}

/// Reports on standard error that the program doesn't know the line. If the write fails, a first part of the report may be written.
pub fn bad_line<E: Write>(errors: &mut E) -> u8
    ensures status { result ≡ BAD_LINE }
    ensures said { AppendsPart (E.contents errors.old) (E.contents errors.new) bad_line }
{
    let _ = put(errors, b"gamesman: bad line\n");
    BAD_LINE
}

/// Reports on standard error what is wrong with a bad line.
pub fn explain<E: Write>(alloc: Global, words: &[&str], errors: &mut E) {
    if let Some(text) = what_is_wrong(alloc, words) {
        let _ = write!(errors, "{text}");
    }
}

/// Answers a request, and returns the exit status. A refusal is reported with its reason, and on request also with advice.
pub fn run_request<R: Host, I: Read, O: Write, E: Write + Send>(
    rt: &R,
    request: Request<'_>,
    manner: Manner,
    input: &mut I,
    output: &mut O,
    errors: &mut E,
) -> u8
    ensures { IsRun request.entry (I.remaining input.old) (O.contents output.old) (O.contents output.new) result }
{
    match answer(rt, request, manner, input, output, errors) {
        Ok(status) => status,
        Err(fault) => {
            let status = refused(&fault, errors);
            if manner.explained {
                advise(rt, request, &fault, input, output, errors);
            }
            status
        }
    }
}

/// Runs a line of words, and returns the exit status. The first word is the program's name. Standard error also has the progress
/// of a build at a terminal, and on request advice after a refusal.
pub fn run_words<R: Host, I: Read, O: Write, E: Write + Send>(
    rt: &R,
    words: &[&str],
    manner: Manner,
    input: &mut I,
    output: &mut O,
    errors: &mut E,
) -> u8
    ensures { IsLineRun (AppendsPart (E.contents errors.old) (E.contents errors.new)) (map (λ t. t.now) words.now) (I.remaining input.old)
        (O.contents output.old) (O.contents output.new) result }
{
    match read_words(rt.alloc(), words) {
        Ok(Reading::Request(request)) => run_request(rt, request, manner, input, output, errors),
        Ok(Reading::Help(text)) => match write_help(text, output) {
            Ok(status) => status,
            Err(fault) => refused(&fault, errors),
        },
        Err(ReadError::OutOfMemory) => refused(&Fault::OutOfMemory(AllocError), errors),
        Err(ReadError::BadLine) => bad_line(errors),
    }
}
