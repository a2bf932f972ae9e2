//! Reading the commands about one game.
ghost use Rattle.std.specs.Prelude.{◌≡◌, codes, option_and_then, option_map};
ghost use Rattle.std.specs.Result.{result_ok};
ghost use Rattle.gm_command.specs.Contents.{command_content};
ghost use Rattle.gm_command.specs.Given.{rows_in, text_in, option_number};
ghost use Rattle.gm_command.specs.Reading.{written, asking, asking_each, diagram_form, drawing_in, paging_in, place_given, playing_in, moves_asked, command_in};

use crate::given::{has, number_in, text_in};
use crate::requests::{
    DiagramForm, DiagramRequest, GameCommand, PageRequest, PlayRequest, Question, TableCommand,
};
use crate::searches::{ask_of, counts_of, limit_of, search_of};
use crate::words::GameCommandName;
use clap::ArgMatches;
use gm_game::text::read_decimal;
use gm_play::sides::Side;

// Returns the form of a diagram, if there is to be one.
fn diagram_form(inner: &ArgMatches<'_>) -> Option<DiagramForm>
    ensures { result ≡ diagram_form (rows_in inner.now) }
{
    if has(inner, "svg") {
        Some(DiagramForm::Svg)
    } else if has(inner, "tikz") {
        Some(DiagramForm::Tikz)
    } else {
        None
    }
}

// Returns how a board is shown. Only a diagram can leave out the value, or have figures or an arrow.
fn show_of(inner: &ArgMatches<'_>) -> Option<Question>
    ensures { result ≡ drawing_in (rows_in inner.now) }
{
    let valued = !has(inner, "no-value");
    let figures = has(inner, "figures");
    let arrow = has(inner, "arrow");
    match diagram_form(inner) {
        Some(form) => Some(Question::Diagram(DiagramRequest {
            form,
            valued,
            figures,
            arrow,
        })),
        None if !valued || figures || arrow => None,
        None if has(inner, "json") => Some(Question::Board),
        None => Some(Question::Show {
            explained: text_in(inner, "POSITION").is_none(),
        }),
    }
}

// Returns the command for a question about a position.
fn explore<'a>(inner: &ArgMatches<'a>, question: Question) -> GameCommand<'a>
    ensures { command_content result ≡ asking (rows_in inner.now) question }
{
    GameCommand::FromTables(TableCommand::Explore {
        position: text_in(inner, "POSITION"),
        question,
    })
}

// Returns the command for a question about a position, or for `-` about each position of the input.
fn explore_each<'a>(inner: &ArgMatches<'a>, question: Question) -> GameCommand<'a>
    ensures { command_content result ≡ asking_each (rows_in inner.now) question }
{
    match text_in(inner, "POSITION") {
        Some("-") => GameCommand::FromTables(TableCommand::Filter { question }),
        _ => explore(inner, question),
    }
}

// Returns the question about the moves of a position.
fn moves_asked(inner: &ArgMatches<'_>, json: bool) -> Question
    ensures { result ≡ moves_asked (rows_in inner.now) json }
{
    let distinct = has(inner, "distinct");
    if has(inner, "replies") {
        Question::Replies { distinct, json }
    } else {
        Question::Moves { distinct, json }
    }
}

// Reads a line of `page`.
fn page_of<'a>(inner: &ArgMatches<'a>) -> Option<GameCommand<'a>>
    ensures { option_map command_content result ≡ option_map (paging_in (rows_in inner.now)) (option_number (rows_in inner.now) (codes "limit")) }
{
    Some(GameCommand::FromTables(TableCommand::Page(PageRequest {
        position: text_in(inner, "POSITION"),
        limit: number_in(inner, "limit")? as usize,
        engine: text_in(inner, "engine"),
    })))
}

// Returns the number that is written in full as the word with this name.
fn written(inner: &ArgMatches<'_>, name: &str) -> Option<u64>
    ensures { result ≡ option_and_then written (text_in (rows_in inner.now) name.now) }
{
    read_decimal(text_in(inner, name)?.as_bytes())
}

/// Reads a line of `at`, or returns the reason for a refusal: a tier and an index are numbers without a sign and without leading zeros.
pub(crate) fn place_of<'a>(inner: &ArgMatches<'a>) -> Result<GameCommand<'a>, &'static str>
    ensures { option_map command_content (result_ok result) ≡ place_given (rows_in inner.now) }
{
    let Some(tier) = written(inner, "TIER") else {
        return Err(
            "a tier is a number from 0 to 18446744073709551615, without a sign and without zeros before it",
        );
    };
    let Some(index) = written(inner, "INDEX") else {
        return Err(
            "an index is a number from 0 to 18446744073709551615, without a sign and without zeros before it",
        );
    };
    Ok(GameCommand::FromTables(TableCommand::At {
        tier,
        index,
        json: has(inner, "json"),
    }))
}

// Reads a line of `play`.
fn play_of<'a>(inner: &ArgMatches<'a>) -> GameCommand<'a>
    ensures { command_content result ≡ playing_in (rows_in inner.now) }
{
    let first = if has(inner, "second") {
        Side::Computer
    } else {
        Side::You
    };
    GameCommand::FromTables(TableCommand::Play(PlayRequest {
        position: text_in(inner, "from"),
        first,
        drawn: has(inner, "show"),
    }))
}

/// Reads a line with this command.
pub(crate) fn command_of<'a>(
    command: GameCommandName,
    inner: &ArgMatches<'a>,
) -> Option<GameCommand<'a>>
    ensures { option_map command_content result ≡ command_in (rows_in inner.now) command }
{
    let json = has(inner, "json");
    match command {
        GameCommandName::Solve => Some(GameCommand::FromTables(TableCommand::Solve { json })),
        GameCommandName::Query => Some(explore_each(inner, Question::Value { json })),
        GameCommandName::Moves => Some(explore_each(inner, moves_asked(inner, json))),
        GameCommandName::Why => Some(explore(inner, Question::Why { json })),
        GameCommandName::Line => Some(explore(
            inner,
            Question::Line {
                limit: limit_of(inner),
                json,
            },
        )),
        GameCommandName::Show => Some(explore(inner, show_of(inner)?)),
        GameCommandName::Page => page_of(inner),
        GameCommandName::At => place_of(inner).ok(),
        GameCommandName::Locate => Some(GameCommand::Locate {
            position: text_in(inner, "POSITION")?,
            json,
        }),
        GameCommandName::Find => Some(GameCommand::FromTables(TableCommand::Find(search_of(
            inner,
        )?))),
        GameCommandName::Counts => Some(GameCommand::FromTables(TableCommand::Counts(counts_of(
            inner,
        )))),
        GameCommandName::Longest => Some(GameCommand::FromTables(TableCommand::Longest {
            reached: has(inner, "reached"),
            limit: limit_of(inner),
            json,
        })),
        GameCommandName::Ask => Some(GameCommand::Ask(ask_of(inner)?)),
        GameCommandName::Analyse => Some(GameCommand::FromTables(TableCommand::Analyse)),
        GameCommandName::Check => Some(GameCommand::Check {
            folder: text_in(inner, "FOLDER")?,
            json,
        }),
        GameCommandName::Play => Some(play_of(inner)),
    }
}
