//! What a line gives: the texts, flags and numbers of its words.
ghost use Rattle.std.specs.Prelude.{◌≡◌, option_map};
ghost use Rattle.clap.specs.Words.{found_of, rows_of, subcommand_rows_of};
ghost use Rattle.gm_command.specs.Given.{rows_in, is_of_line, given, text_in, has, option_number, number_or, tier_in};

use clap::ArgMatches;
use clap::parser::ValueSource;

/// Returns the command that a line names, and what it gives for the command's words.
pub(crate) fn command_in<'a, 'b>(
    matches: &'b ArgMatches<'a>,
) -> Option<(&'a str, &'b ArgMatches<'a>)>
    ensures { option_map (λ found. (found.0.now, rows_in found.1.now)) result ≡ subcommand_rows_of matches.now }
{
    matches.subcommand()
}

// Tests whether a value comes from the line, and isn't a default.
fn is_of_line(source: ValueSource) -> bool
    ensures { result ≡ is_of_line (Some source) }
{
    source == ValueSource::CommandLine
}

/// Tests whether a line gives the word with this name. A default is not given.
pub(crate) fn is_given(inner: &ArgMatches<'_>, name: &str) -> bool
    ensures { result ≡ given (rows_in inner.now) name.now }
{
    match inner.value_source(name) {
        Some(source) => is_of_line(source),
        None => false,
    }
}

/// Returns the text of the word with this name.
pub(crate) fn text_in<'a>(inner: &ArgMatches<'a>, name: &str) -> Option<&'a str>
    ensures { option_map (λ text. text.now) result ≡ text_in (rows_in inner.now) name.now }
{
    inner.get_str(name)
}

/// Tests whether a line has the flag with this name.
pub(crate) fn has(inner: &ArgMatches<'_>, name: &str) -> bool
    ensures { result ≡ has (rows_in inner.now) name.now }
{
    inner.get_one::<bool>(name).unwrap_or(false)
}

/// Returns the number of the option with this name.
pub(crate) fn number_in(inner: &ArgMatches<'_>, name: &str) -> Option<u32>
    ensures { result ≡ option_number (rows_in inner.now) name.now }
{
    inner.get_one::<u32>(name)
}

/// Returns the number of the option with this name, or else this one.
pub(crate) fn number_or(inner: &ArgMatches<'_>, name: &str, default: usize) -> usize
    ensures { result ≡ number_or (rows_in inner.now) name.now default }
{
    match number_in(inner, name) {
        Some(number) => number as usize,
        None => default,
    }
}

/// Returns the number of a tier that the option with this name has.
pub(crate) fn tier_in(inner: &ArgMatches<'_>, name: &str) -> Option<u64>
    ensures { result ≡ tier_in (rows_in inner.now) name.now }
{
    inner.get_one::<u64>(name)
}
