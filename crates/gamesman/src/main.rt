//! The program: it lists games, solves them, answers questions about positions, counts positions, checks folders, and plays. Its
//! command lines are described in docs/PROGRAM.md.
#![tactic(auto)]

ghost use Rattle.std.specs.Prelude.{◌≡◌, map, IfOk, IfErr, string_bytes};
ghost use Rattle.std.specs.Vec.Iter.{into_iter_items};
ghost use Rattle.gamesman.specs.LineRuns.{command_words, IsOutputOf};

mod analyse;
mod catalog;
mod check;
mod engine;
mod every_game;
mod explore;
mod fault;
mod filter;
mod finding;
mod found;
mod from_tables;
mod games;
mod host;
mod list;
mod listing;
mod live;
mod located;
mod longest;
mod naming;
mod needs;
mod output;
mod play;
mod reasons;
mod run;
mod search;
mod service;
mod sheet;
mod shelf;
mod solve;
mod tables;
mod teller;

use crate::fault::Fault;
use crate::host::Host;
use crate::run::{BAD_LINE, Manner, bad_line, explain, refused, run_words};
use std::alloc::{AllocError, Global};
use std::env::{self, Args, Env};
use std::io::{ErrorKind, IsTerminal, Read, Write};
use std::process::ExitCode;

fn main(rt: HostRuntime) -> ExitCode {
    let mut errors = rt.stderr();
    let status = match env::args(&rt) {
        Ok(args) => run_line(&rt, args, &mut rt.reader(), &mut rt.stdout(), &mut errors),
        Err(error) if error.kind() == ErrorKind::OutOfMemory => {
            refused(&Fault::OutOfMemory(AllocError), &mut errors)
        }
        // A word that is not UTF-8.
        Err(_) => bad_line(&mut errors),
    };
    ExitCode::from(status)
}

// Returns the words of the line.
fn words_owned(alloc: Global, args: Args) -> Result<Vec<String>, AllocError>
    ensures { IfOk result (λ words. words.items ≡ into_iter_items args) }
{
    let mut words = Vec::new(alloc);
    for arg in args {
        words.push(arg)?;
    }
    Ok(words)
}

// Returns references to words.
fn words_lent<'a>(alloc: Global, owned: &'a [String]) -> Result<Vec<&'a str>, AllocError>
    ensures { IfOk result (λ words. map (λ t. t.now) words.items ≡ map string_bytes owned.now) }
{
    let mut words = Vec::new(alloc);
    for word in owned {
        words.push(word.as_str())?;
    }
    Ok(words)
}

// Removes `--explain` if it is before the command, and returns whether it was there.
fn take_explain(words: &mut Vec<&str>) -> bool
    ensures { map (λ t. t.now) words.new.items ≡ command_words (map (λ t. t.now) words.old.items) }
{
    if words.len() < 2 || words[1] != "--explain" {
        return false;
    }
    words.remove(1);
    true
}

// Returns whether the environment asks for explanations: it has the variable GAMESMAN_EXPLAIN with the value 1.
fn asks_for_reasons<R: Env>(rt: &R) -> bool {
    let mut value = [0; 2];
    matches!(rt.var("GAMESMAN_EXPLAIN", &mut value), Ok(1)) && value[0] == b'1'
}

// Runs the line of these words, unless memory runs out before it is read. A bad line is also explained at a terminal, with
// `--explain` before the command, or if the environment asks for explanations.
fn run_args<R: Host, I: Read, O: Write, E: Write + IsTerminal + Send>(
    rt: &R,
    args: Args,
    input: &mut I,
    output: &mut O,
    errors: &mut E,
) -> Result<u8, AllocError>
    ensures run { IfOk result (IsOutputOf (command_words (map string_bytes (into_iter_items args))) (I.remaining input.old) (O.contents output.old) (O.contents output.new)) }
    ensures kept { IfErr result (λ _. O.contents output.new ≡ O.contents output.old) }
{
    let owned = words_owned(rt.alloc(), args)?;
    let mut words = words_lent(rt.alloc(), owned.as_slice())?;
    let requested = take_explain(&mut words);
    let terminal = errors.is_terminal();
    let manner = Manner {
        terminal,
        explained: requested || terminal || asks_for_reasons(rt),
    };
    let status = run_words(rt, words.as_slice(), manner, input, output, errors);
    if status == BAD_LINE && manner.explained {
        explain(rt.alloc(), words.as_slice(), errors);
    }
    Ok(status)
}

// Runs the line of these words, and returns the exit status.
fn run_line<R: Host, I: Read, O: Write, E: Write + IsTerminal + Send>(
    rt: &R,
    args: Args,
    input: &mut I,
    output: &mut O,
    errors: &mut E,
) -> u8
    ensures { IsOutputOf (command_words (map string_bytes (into_iter_items args))) (I.remaining input.old) (O.contents output.old) (O.contents output.new) result }
{
    match run_args(rt, args, input, output, errors) {
        Ok(status) => status,
        Err(error) => refused(&Fault::OutOfMemory(error), errors),
    }
}
