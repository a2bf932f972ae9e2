//! The possible values of the words of a command line, and the options that need or exclude each other.
ghost use Rattle.std.specs.Prelude.{◌≡◌, map, option_map};
ghost use Rattle.gm_command.specs.Given.{rows_in, given};
ghost use Rattle.gm_command.specs.Lines.{word_of};
ghost use Rattle.gm_command.specs.Relations.{is_among, needed_for, barred_for, has_named, bar, is_barred, is_met, goes_with, are_related};

use crate::given::is_given;
use crate::words::{ArgKind, ArgSpec};
use clap::ArgMatches;

/// Returns the values that a word of this name can have beside these other words, and `None` if it takes any text.
pub(crate) fn values_of(name: &str, words: &[ArgSpec]) -> Option<&'static [&'static str]> {
    match name {
        "value" => Some(&["win", "tie", "draw", "lose"]),
        "sort" if has_word(words, "title") => Some(&["list", "long"]),
        "sort" => Some(&["index", "long", "hard"]),
        "SHELL" => Some(&["bash", "zsh", "fish"]),
        _ => None,
    }
}

/// Returns the option without which this one has no meaning.
pub(crate) fn needed_by(name: &str) -> Option<&'static str>
    ensures { option_map (λ t. t.now) result ≡ needed_for name.now }
{
    match name {
        "read-only" => Some("folder"),
        "no-value" | "figures" | "arrow" => Some("svg"),
        "seed" => Some("random"),
        "per-move" | "orient" => Some("spread"),
        "all" => Some("engine"),
        _ => None,
    }
}

/// Returns the options that this one can't be combined with.
pub(crate) fn barred_by(name: &str) -> &'static [&'static str]
    ensures { map (λ t. t.now) result.now ≡ barred_for name.now }
{
    match name {
        "all" => &["GAME", "POSITION", "limit", "folder", "quiet"],
        "limit" => &["random"],
        "sort" => &["random"],
        "csv" => &["json"],
        "titles" => &["json"],
        "page" => &["json", "show"],
        "show" => &["json"],
        "svg" => &["json", "tikz"],
        "tikz" => &["json"],
        "quiet" => &["progress"],
        "values" => &["distinct"],
        "own-moves" => &["no-value"],
        "caption" => &["no-value", "own-moves"],
        _ => &[],
    }
}

/// Tests whether one of these words has this name.
pub(crate) fn has_word(words: &[ArgSpec], name: &str) -> bool
    ensures { result ≡ has_named (map word_of words.now) name.now }
{
    words.iter().any(|word| word.name == name)
}

// Tests whether a name is one of these.
fn is_among(names: &[&str], name: &str) -> bool
    ensures { result ≡ is_among (map (λ t. t.now) names.now) name.now }
{
    names.iter().any(|other| *other == name)
}

// Tests whether two words can't be combined.
fn bar(one: &str, other: &str) -> bool
    ensures { result ≡ bar one.now other.now }
{
    is_among(barred_by(one), other) || is_among(barred_by(other), one)
}

// Tests whether a line gives a word that can't be combined with the one of this name.
fn is_barred(words: &[ArgSpec], inner: &ArgMatches<'_>, name: &str) -> bool
    ensures { result ≡ is_barred (rows_in inner.now) (map word_of words.now) name.now }
{
    words
        .iter()
        .any(|word| is_given(inner, word.name) && bar(word.name, name))
}

// Tests whether a line gives an option that another one needs. It may be missing if it is barred, or if the command doesn't have it.
fn is_met(words: &[ArgSpec], inner: &ArgMatches<'_>, needed: Option<&str>) -> bool
    ensures { result ≡ is_met (rows_in inner.now) (map word_of words.now) (option_map (λ t. t.now) needed.entry) }
{
    match needed {
        Some(needed) => {
            !has_word(words, needed) || is_given(inner, needed) || is_barred(words, inner, needed)
        }
        None => true,
    }
}

// Tests whether a word of a line goes with the others. One that is required unless an option is there may be missing with it only.
fn goes_with(words: &[ArgSpec], inner: &ArgMatches<'_>, word: &ArgSpec) -> bool
    ensures { result ≡ goes_with (rows_in inner.now) (map word_of words.now) (word_of word.now) }
{
    if is_given(inner, word.name) {
        return !is_barred(words, inner, word.name) && is_met(words, inner, needed_by(word.name));
    }
    match word.kind {
        ArgKind::Unless { option } => is_given(inner, option),
        _ => true,
    }
}

/// Tests whether the words of a line go with each other.
pub(crate) fn are_related(words: &[ArgSpec], inner: &ArgMatches<'_>) -> bool
    ensures { result ≡ are_related (rows_in inner.now) (map word_of words.now) }
{
    words.iter().all(|word| goes_with(words, inner, word))
}
