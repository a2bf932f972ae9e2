//! The program's command line, made with clap.
ghost use Rattle.std.specs.Prelude.{◌≡◌, [], Some, false, IfOk, OnOk, map};
ghost use Rattle.std.specs.List.{AllZip};
ghost use Rattle.clap.specs.Words.{app_of, rule_of};
ghost use Rattle.gm_command.specs.Lines.{word_of, line_of_spec, command_lines};
ghost use Rattle.gm_command.specs.Parsers.{number_parser, defaults_after, rule_of_word, IsArgFor, IsCommandFor, command_line};

use crate::lines::lines;
use crate::relations::{barred_by, has_word, needed_by, values_of};
use crate::words::{ArgKind, ArgSpec, CommandSpec};
use clap::{Arg, ArgAction, Command, value_parser};
use std::alloc::{AllocError, Global};

const VERSION: &str = "1.2.0";

// What the help has below its commands.
const EXPLAIN: &str =
    "`gamesman --explain COMMAND ..` explains a refusal in a pipe too, as a terminal does. GAMESMAN_EXPLAIN=1 is the same for every command.";

// Gives an option a number within a range as its value.
fn with_number<'a>(option: Arg<'a>, least: i64, most: i64, default: Option<&'static str>) -> Arg<'a>
    ensures { rule_of result ≡ record (rule_of option.entry) {
      parser = Some (number_parser least most);
      defaults = defaults_after (rule_of option.entry).defaults default.entry;
    } }
{
    let option = option.value_parser(value_parser!(u32).range(least..=most));
    match default {
        Some(default) => option.default_value(default),
        None => option,
    }
}

// Makes the argument for a word of a command, without its values and its relations.
fn plain<'a>(alloc: Global, word: &'static ArgSpec) -> Arg<'a>
    ensures { rule_of result ≡ rule_of_word (word_of word.now) }
{
    let arg = Arg::new(alloc, word.name).help(word.help);
    match word.kind {
        ArgKind::Word => arg.required(true).action(ArgAction::Set),
        ArgKind::Unless { .. } | ArgKind::Optional => arg,
        ArgKind::Flag => arg.long(word.name).action(ArgAction::SetTrue),
        ArgKind::Text { shown, required } => arg
            .long(word.name)
            .value_name(shown)
            .required(required),
        ArgKind::Number {
            shown,
            least,
            most,
            default,
        } => with_number(arg.long(word.name).value_name(shown), least, most, default),
        ArgKind::Tier => arg.long(word.name).value_parser(value_parser!(u64)),
    }
}

// Adds to an argument its possible values. The text of the help already lists them.
fn valued<'a>(arg: Arg<'a>, name: &str, words: &[ArgSpec]) -> Arg<'a> {
    match values_of(name, words) {
        Some(values) => arg.value_parser(values).hide_possible_values(true),
        None => arg,
    }
}

// Adds to an argument its relations to other arguments of its command. An option needs another one only in commands that have both.
fn related<'a>(
    arg: Arg<'a>,
    word: &'static ArgSpec,
    words: &'static [ArgSpec],
) -> Result<Arg<'a>, AllocError> {
    let arg = match word.kind {
        ArgKind::Unless { option } => arg.required_unless_present(option)?,
        _ => arg,
    };
    let needing = match needed_by(word.name) {
        Some(needed) if has_word(words, needed) => arg.requires_arg(needed)?,
        _ => arg,
    };
    needing.conflicts_with_all(barred_by(word.name))
}

// Makes the argument for a word of a command. Only an explanation needs its values and its relations.
fn arg_of<'a>(
    alloc: Global,
    word: &'static ArgSpec,
    words: &'static [ArgSpec],
    explained: bool,
) -> Result<Arg<'a>, AllocError>
    ensures { IfOk result (λ a. explained ≡ false → IsArgFor (word_of word.now) a) }
{
    let arg = plain(alloc, word);
    if explained {
        related(valued(arg, word.name, words), word, words)
    } else {
        Ok(arg)
    }
}

// Adds the words of a command.
fn add_words<'a>(
    alloc: Global,
    words: &'static [ArgSpec],
    explained: bool,
    all: &mut Vec<Arg<'a>>,
) -> Result<(), AllocError>
    requires { all.old.items ≡ [] }
    ensures { OnOk result (explained ≡ false → AllZip IsArgFor (map word_of words.now) all.new.items) }
{
    for word in words {
        all.push(arg_of(alloc, word, words, explained)?)?;
    }
    Ok(())
}

// Makes a command of the program.
fn command_of<'a>(
    alloc: Global,
    line: &'static CommandSpec,
    explained: bool,
) -> Result<Command<'a>, AllocError>
    ensures { IfOk result (λ c. explained ≡ false → IsCommandFor (line_of_spec line.now) c) }
{
    let mut words = Vec::new(alloc);
    add_words(alloc, line.words, explained, &mut words)?;
    let command = Command::new(alloc, line.name)
        .about(line.about)
        .after_help(line.examples)
        .args(words)?;
    match line.alias {
        Some(alias) => command.alias(alias),
        None => Ok(command),
    }
}

// Adds all commands.
fn add_commands<'a>(
    alloc: Global,
    explained: bool,
    all: &mut Vec<Command<'a>>,
) -> Result<(), AllocError>
    requires { all.old.items ≡ [] }
    ensures { OnOk result (explained ≡ false → AllZip IsCommandFor command_lines all.new.items) }
{
    let lines = lines();
    for line in &lines {
        all.push(command_of(alloc, *line, explained)?)?;
    }
    Ok(())
}

/// Makes the program's command line, with the values and relations of its options only if a refusal is to be explained. A line is
/// read without them, and the program tests them itself, so that it is known which lines are refused.
pub fn gamesman<'a>(alloc: Global, explained: bool) -> Result<Command<'a>, AllocError>
    ensures { IfOk result (λ c. explained ≡ false → app_of c ≡ command_line) }
{
    let mut all = Vec::new(alloc);
    add_commands(alloc, explained, &mut all)?;
    Command::new(alloc, "gamesman")
        .about("Solves two-player games")
        .after_help(EXPLAIN)
        .version(VERSION)
        .subcommand_required(true)
        .subcommands(all)
}
