//! Numbers of a command line, without a sign and without leading zeros.
ghost use Rattle.std.specs.Prelude.{◌≡◌, unwrap_or, map};
ghost use Rattle.gm_command.specs.Given.{rows_in, is_plain_number};
ghost use Rattle.gm_command.specs.Lines.{word_of};
ghost use Rattle.gm_command.specs.Reading.{is_plain_word, are_plain};
ghost use Rattle.gm_command.specs.Searching.{plain_number, cut_at_dots, span_in};

use crate::given::text_in;
use crate::words::{ArgKind, ArgSpec};
use clap::ArgMatches;
use gm_find::sought::Span;

// Tests whether a text that may be a number has no sign and no leading zero.
fn is_plain(text: &str) -> bool
    ensures { result ≡ is_plain_number text.now }
{
    let digits = text.as_bytes();
    match digits.first() {
        Some(b'0') => digits.len() == 1,
        Some(first) => first.is_ascii_digit(),
        None => false,
    }
}

// Tests whether a word of a command is written so if it is a number.
fn is_plain_word(word: &ArgSpec, inner: &ArgMatches<'_>) -> bool
    ensures { result ≡ is_plain_word (rows_in inner.now) (word_of word.now).name (word_of word.now).kind }
{
    match word.kind {
        ArgKind::Number { .. } | ArgKind::Tier => match text_in(inner, word.name) {
            Some(text) => is_plain(text),
            None => true,
        },
        _ => true,
    }
}

/// Tests whether all numbers of a line with these words are written without a sign and without leading zeros.
pub(crate) fn are_plain(words: &[ArgSpec], inner: &ArgMatches<'_>) -> bool
    ensures { result ≡ are_plain (rows_in inner.now) (map word_of words.now) }
{
    words.iter().all(|word| is_plain_word(word, inner))
}

/// Reads a number of at most 4,294,967,295, in decimal digits.
pub(crate) fn number_of(text: &str) -> Option<u32>
    ensures { result ≡ plain_number text.now }
{
    if is_plain(text) {
        text.parse::<u32>().ok()
    } else {
        None
    }
}

// Returns the texts of the first and the last number of a span.
fn ends_of(text: &str) -> (&str, &str)
    ensures { (result.0.now, result.1.now) ≡ unwrap_or (cut_at_dots text.now) (text.now, text.now) }
{
    match text.split_once("..") {
        Some((first, last)) => (first, last),
        None => (text, text),
    }
}

/// Reads a span of numbers: `N`, or `A..B` from A to B. It refuses a B that is less than A.
pub(crate) fn span_of(text: &str) -> Option<Span>
    ensures { result ≡ span_in text.now }
{
    let (first, last) = ends_of(text);
    let span = Span {
        least: number_of(first)?,
        most: number_of(last)?,
    };
    if span.least <= span.most {
        Some(span)
    } else {
        None
    }
}
