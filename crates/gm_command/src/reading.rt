//! Reading a line of words.
ghost use Rattle.std.specs.Prelude.{◌≡◌, false, codes, MatchResult, map, option_map};
ghost use Rattle.std.specs.Option.{option_or};
ghost use Rattle.std.specs.Result.{result_ok};
ghost use Rattle.clap.specs.Words.{kind_of, subcommand_rows_of};
ghost use Rattle.gm_command.specs.Contents.{content_of, game_content, sheet_content, kept_at, plan_of as numbers_of};
ghost use Rattle.gm_command.specs.Given.{rows_in, text_in};
ghost use Rattle.gm_command.specs.Lines.{line_of_spec};
ghost use Rattle.gm_command.specs.Reading.{folder_in, plan_in, progress_in, template_in, rising_named, rising_in, only_reads, list_form_in, game_in, sheet_in, request_in, request_with, request_of as content_in};
ghost use Rattle.gm_command.specs.Readings.{IsOutcome, IsReadingOf, why_not};

use crate::commands::gamesman;
use crate::defaults::{PIECE, SHARDS, WORKERS};
use crate::game_commands::{command_of, place_of};
use crate::given::{command_in, has, number_or, text_in};
use crate::lines::line_named;
use crate::manual::{Manual, manual_of};
use crate::numbers::are_plain;
use crate::relations::are_related;
use crate::requests::{
    GameRequest, ListForm, Reading, Request, SheetRequest, TableLocation, Telling,
};
use crate::searches::{json_of, order_of, sought_of, spread_of};
use crate::words::{CommandName, CommandSpec, GameCommandName};
use clap::error::ErrorKind;
use clap::{ArgMatches, Error};
use gm_backward::plan::Plan;
use gm_caption::template::is_template;
use std::alloc::Global;
use std::fmt;

/// A text that the command line itself makes: help, the version, or the reason why a line is bad.
#[derive(Drop)]
pub struct Help(Error);

impl fmt::Display for Help {
    fn fmt<W: fmt::Write>(&self, f: &mut fmt::Formatter<W>) -> fmt::Result {
        let text = &self.0;
        write!(f, "{text}")
    }
}

/// The reason why a line of words can't be read.
#[derive(Clone, Copy, Debug, PartialEq, Eq)]
pub enum ReadError {
    BadLine,
    OutOfMemory,
}

// Returns the folder of the tables, if a line has one.
fn folder_of<'a>(inner: &ArgMatches<'a>) -> Option<&'a str>
    ensures { option_map (λ t. t.now) result ≡ option_or (text_in (rows_in inner.now) (codes "FOLDER")) (text_in (rows_in inner.now) (codes "folder")) }
{
    match text_in(inner, "FOLDER") {
        Some(folder) => Some(folder),
        None => text_in(inner, "folder"),
    }
}

// Tests whether a command only reads its folder.
fn only_reads(command: GameCommandName) -> bool
    ensures { result ≡ only_reads command }
{
    matches!(command, GameCommandName::Check)
}

// Returns the place of the tables that a command needs. `check` only reads its folder.
fn tables_of<'a>(command: GameCommandName, inner: &ArgMatches<'a>) -> TableLocation<'a>
    ensures { kept_at result ≡ folder_in (rows_in inner.now) command }
{
    match folder_of(inner) {
        None => TableLocation::Memory,
        Some(folder) if only_reads(command) || has(inner, "read-only") => {
            TableLocation::ReadOnly(folder)
        }
        Some(folder) => TableLocation::Folder(folder),
    }
}

// Returns the plan of a line. Only `solve` has options for it.
fn plan_of(inner: &ArgMatches<'_>) -> Option<Plan>
    ensures { option_map numbers_of result ≡ plan_in (rows_in inner.now) }
{
    Plan::fastest(
        number_or(inner, "workers", WORKERS),
        number_or(inner, "shards", SHARDS),
        number_or(inner, "piece", PIECE),
    )
}

// Returns how the progress of a build is reported on standard error.
fn progress_of(inner: &ArgMatches<'_>) -> Telling
    ensures { result ≡ progress_in (rows_in inner.now) }
{
    if has(inner, "quiet") {
        Telling::Quiet
    } else if has(inner, "progress") {
        Telling::Lines
    } else {
        Telling::Terminal
    }
}

// Reads a line with a command about a game.
fn game_request_of<'a>(command: GameCommandName, inner: &ArgMatches<'a>) -> Option<GameRequest<'a>>
    ensures { option_map game_content result ≡ game_in (rows_in inner.now) command }
{
    Some(GameRequest {
        game: text_in(inner, "GAME")?,
        command: command_of(command, inner)?,
        tables: tables_of(command, inner),
        plan: plan_of(inner)?,
        progress: progress_of(inner),
    })
}

// Returns the template of captions, or the reason for a refusal: each brace in it belongs to a field.
fn template_of<'a>(inner: &ArgMatches<'a>) -> Result<Option<&'a str>, &'static str>
    ensures { option_map (λ template. option_map (λ t. t.now) template) (result_ok result) ≡ template_in (rows_in inner.now) }
{
    match text_in(inner, "caption") {
        Some(text) if !is_template(text.as_bytes()) => Err(
            "the words in braces of '--caption' are side, value, moves, plies, number and game",
        ),
        template => Ok(template),
    }
}

// Returns whether the order that a word of `--sort` names is the rising one, or the reason for a refusal.
fn rising_named(word: &str) -> Result<bool, &'static str>
    ensures { result_ok result ≡ rising_named word.now }
{
    match word {
        "list" => Ok(false),
        "long" => Ok(true),
        _ => Err("the order of a sheet is list or long"),
    }
}

// Reads whether the puzzles of a sheet come in rising order, or returns the reason for a refusal.
fn rising_of(inner: &ArgMatches<'_>) -> Result<bool, &'static str>
    ensures { result_ok result ≡ rising_in (rows_in inner.now) }
{
    match text_in(inner, "sort") {
        Some(word) => rising_named(word),
        None => Ok(false),
    }
}

// Reads a line of `sheet`.
fn sheet_request_of<'a>(inner: &ArgMatches<'a>) -> Option<SheetRequest<'a>>
    ensures { option_map sheet_content result ≡ sheet_in (rows_in inner.now) }
{
    Some(SheetRequest {
        game: text_in(inner, "GAME"),
        title: text_in(inner, "title"),
        valued: !has(inner, "no-value"),
        own_moves: has(inner, "own-moves"),
        template: template_of(inner).ok()?,
        rising: rising_of(inner).ok()?,
        arrow: has(inner, "arrow"),
        plan: plan_of(inner)?,
        progress: progress_of(inner),
    })
}

// Returns the form in which the games are listed. The command line accepts at most one of these words.
fn list_form_of(inner: &ArgMatches<'_>) -> ListForm
    ensures { result ≡ list_form_in (rows_in inner.now) }
{
    if has(inner, "json") {
        ListForm::Json
    } else if has(inner, "titles") {
        ListForm::Titles
    } else {
        ListForm::Names
    }
}

// Reads a line with this command. With `--all`, `page` makes the page of all games.
fn command_request_of<'a>(command: CommandName, inner: &ArgMatches<'a>) -> Option<Request<'a>>
    ensures { option_map content_of result ≡ request_in (rows_in inner.now) command }
{
    match command {
        CommandName::List => Some(Request::List {
            all: has(inner, "all"),
            form: list_form_of(inner),
        }),
        CommandName::Game(_) if has(inner, "all") => Some(Request::AllGames {
            engine: text_in(inner, "engine")?,
        }),
        CommandName::Game(command) => Some(Request::Game(game_request_of(command, inner)?)),
        CommandName::Sheet => Some(Request::Sheet(sheet_request_of(inner)?)),
        CommandName::Completions => Some(Request::Manual(manual_of(inner)?)),
        CommandName::Man => Some(Request::Manual(Manual::Man)),
    }
}

// Reads a line with this command, whose words are to go with each other, and whose numbers are to be written plainly.
fn line_request_of<'a>(line: &CommandSpec, inner: &ArgMatches<'a>) -> Option<Request<'a>>
    ensures { option_map content_of result ≡ request_with (rows_in inner.now) (line_of_spec line.now) }
{
    if are_related(line.words, inner) && are_plain(line.words, inner) {
        command_request_of(line.command, inner)
    } else {
        None
    }
}

// Reads a line.
fn request_of<'a>(matches: &ArgMatches<'a>) -> Option<Request<'a>>
    ensures { option_map content_of result ≡ content_in (subcommand_rows_of matches.now) }
{
    let (name, inner) = command_in(matches)?;
    line_request_of(line_named(name)?, inner)
}

// Returns clap's answer to words. If a refusal is explained, clap knows the values and relations of options too.
fn matched<'a>(
    alloc: Global,
    words: &'a [&'a str],
    explained: bool,
) -> Result<ArgMatches<'a>, Error>
    ensures { explained ≡ false → IsOutcome (map (λ t. t.now) words.now) result }
{
    gamesman(alloc, explained)?.try_get_matches_from(words)
}

// Returns the reason why a line of `find` asks for nothing that can be found.
fn search_fault(inner: &ArgMatches<'_>) -> Option<&'static str> {
    match sought_of(inner) {
        Err(why) => Some(why),
        Ok(sought) => order_of(inner)
            .err()
            .or(spread_of(inner, sought.value).err()),
    }
}

// Returns the reason why a line is refused although its words are those of a command.
fn misfit(matches: &ArgMatches<'_>) -> Option<&'static str> {
    let (name, inner) = matches.subcommand()?;
    let line = line_named(name)?;
    if !are_plain(line.words, inner) {
        return Some("a number has no sign and no zero before it");
    }
    match line.command {
        CommandName::Game(GameCommandName::At) => place_of(inner).err(),
        CommandName::Game(GameCommandName::Find) => search_fault(inner),
        CommandName::Game(GameCommandName::Ask) => json_of(inner).err(),
        CommandName::Sheet => template_of(inner).err().or(rising_of(inner).err()),
        _ => None,
    }
}

// Makes the message for such a line.
fn told(alloc: Global, why: &'static str) -> Option<Help> {
    let mut command = gamesman(alloc, true).ok()?;
    let error = command.error(ErrorKind::ValueValidation, why).ok();
    drop(command);
    Some(Help(error?))
}

/// Returns the message of the command line about a bad line. `None` means that the line is good or that memory ran out.
pub fn what_is_wrong(alloc: Global, words: &[&str]) -> Option<Help> {
    match matched(alloc, words, true) {
        Ok(matches) => {
            let why = misfit(&matches);
            drop(matches);
            told(alloc, why?)
        }
        Err(error) => Some(Help(error)),
    }
}

// Returns the text that the command line itself makes, if the line asks for one.
fn help_of(error: Error) -> Result<Help, ReadError>
    ensures { MatchResult result (λ help. why_not (kind_of error) ≡ None) (λ why. why_not (kind_of error) ≡ Some why) }
{
    let why = match error.kind() {
        ErrorKind::DisplayHelp | ErrorKind::DisplayVersion => return Ok(Help(error)),
        ErrorKind::OutOfMemory => ReadError::OutOfMemory,
        _ => ReadError::BadLine,
    };
    drop(error);
    Err(why)
}

/// Reads a line of words. The first word is the program's name.
pub fn read_words<'a>(alloc: Global, words: &'a [&'a str]) -> Result<Reading<'a>, ReadError>
    ensures { IsReadingOf (map (λ t. t.now) words.now) result }
{
    match matched(alloc, words, false) {
        Ok(matches) => {
            let request = request_of(&matches);
            drop(matches);
            Ok(Reading::Request(request.ok_or(ReadError::BadLine)?))
        }
        Err(error) => Ok(Reading::Help(help_of(error)?)),
    }
}
