//! Reading the options of `find`, `counts` and `ask`.
ghost use Rattle.std.specs.Prelude.{◌≡◌, codes, is_none, option_and_then};
ghost use Rattle.std.specs.Result.{result_ok};
ghost use Rattle.gm_command.specs.Given.{option_number, rows_in, text_in};
ghost use Rattle.gm_command.specs.Reading.{limit_in, counts_form_in, counts_in};
ghost use Rattle.gm_command.specs.Searching.{value_named, is_possible, remoteness_option, sought_in, hard_order, order_named, order_in, spread_in, first_in, choice_in, apart_in, choice_among, report_in, search_in, with_word, with_words, with_nothing, split_at_commas, answer_in, ask_in};

use crate::given::{has, number_in, number_or, text_in, tier_in};
use crate::numbers::span_of;
use crate::requests::{AskRequest, CountsRequest, LineForm, PositionSearch, Report};
use clap::ArgMatches;
use gm_analyse::among::Among;
use gm_analyse::bars::Form as CountsForm;
use gm_find::sought::{Choice, Order, Sought, Span};
use gm_game::position::Value;
use gm_json::asked::{Asked, With};

/// Returns the limit that a line gives. Without one it returns the greatest `usize`.
pub(crate) fn limit_of(inner: &ArgMatches<'_>) -> usize
    ensures { result ≡ limit_in (rows_in inner.now) }
{
    number_or(inner, "limit", usize::MAX)
}

fn value_of(word: &str) -> Option<Value>
    ensures { result ≡ value_named word.now }
{
    match word {
        "win" => Some(Value::Win),
        "tie" => Some(Value::Tie),
        "draw" => Some(Value::Draw),
        "lose" => Some(Value::Lose),
        _ => None,
    }
}

// Returns the reason why no position can have these properties, if there is one.
fn misfit(sought: Sought) -> Option<&'static str>
    ensures { is_none result ≡ is_possible sought }
{
    let counted = sought.only_move || sought.only_fastest || sought.whole_line;
    if sought.value == Value::Draw && sought.remoteness.is_some() {
        Some("a draw has no remoteness")
    } else if sought.whole_line && sought.value != Value::Win {
        Some("'--whole-line' goes with '--value win' alone")
    } else if sought.only_move && !matches!(sought.value, Value::Win | Value::Tie) {
        Some("'--only-move' goes with '--value win' and '--value tie' alone")
    } else if sought.only_fastest && sought.value != Value::Win {
        Some("'--only-fastest' goes with '--value win' alone")
    } else if sought.value == Value::Draw && (sought.tries || sought.min_tries != 0) {
        Some("a draw has no solution along which tries are counted")
    } else if sought.distinct && !counted && sought.min_moves == 0 {
        Some(
            "'--distinct' goes with '--only-move', '--only-fastest', '--whole-line' or '--min-moves'",
        )
    } else {
        None
    }
}

// Reads the span of remoteness, if the line has one.
fn remoteness_of(inner: &ArgMatches<'_>) -> Result<Option<Span>, &'static str>
    ensures { result_ok result ≡ remoteness_option (rows_in inner.now) }
{
    let Some(text) = text_in(inner, "remoteness") else {
        return Ok(None);
    };
    match span_of(text) {
        Some(span) => Ok(Some(span)),
        None => Err(
            "a remoteness is N, or A..B with A not above B, without signs and without zeros before a number",
        ),
    }
}

/// Reads the properties that are searched for, or returns the reason why no position can have them. A draw has no remoteness. An
/// only move goes only with win and tie, a fastest move and a whole line only with win, and tries with all but a draw. Moves can be distinguished by symmetry only
/// if they are counted.
pub(crate) fn sought_of(inner: &ArgMatches<'_>) -> Result<Sought, &'static str>
    ensures { result_ok result ≡ sought_in (rows_in inner.now) }
{
    let remoteness = remoteness_of(inner)?;
    let Some(value) = value_in(inner) else {
        return Err("a value is win, tie, draw or lose");
    };
    let sought = Sought {
        value,
        remoteness,
        only_move: has(inner, "only-move"),
        only_fastest: has(inner, "only-fastest"),
        whole_line: has(inner, "whole-line"),
        distinct: has(inner, "distinct"),
        min_moves: number_or(inner, "min-moves", 0),
        min_tries: number_or(inner, "min-tries", 0),
        tries: has(inner, "tries"),
    };
    match misfit(sought) {
        Some(why) => Err(why),
        None => Ok(sought),
    }
}

// Returns the value that is searched for.
fn value_in(inner: &ArgMatches<'_>) -> Option<Value>
    ensures { result ≡ option_and_then value_named (text_in (rows_in inner.now) (codes "value")) }
{
    value_of(text_in(inner, "value")?)
}

// Returns the order by tries, whose sum is known only if they are counted, or the reason for a refusal.
fn hard_order(tries: bool) -> Result<Option<Order>, &'static str>
    ensures { result_ok result ≡ hard_order tries }
{
    if tries {
        Ok(Some(Order::Hard))
    } else {
        Err("'--sort hard' goes with '--tries'")
    }
}

// Returns the order that a word of `--sort` names, or the reason for a refusal.
fn order_named(word: &str, tries: bool) -> Result<Option<Order>, &'static str>
    ensures { result_ok result ≡ order_named tries word.now }
{
    match word {
        "index" => Ok(None),
        "long" => Ok(Some(Order::Long)),
        "hard" => hard_order(tries),
        _ => Err("an order is index, long or hard"),
    }
}

/// Reads the order in which positions are returned, if it is not that of their indexes, or returns the reason for a refusal.
pub(crate) fn order_of(inner: &ArgMatches<'_>) -> Result<Option<Order>, &'static str>
    ensures { result_ok result ≡ order_in (rows_in inner.now) }
{
    match text_in(inner, "sort") {
        Some(word) => order_named(word, has(inner, "tries")),
        None => Ok(None),
    }
}

// Reads how many positions with one best move are listed of those that are apart, if the line asks for them, or returns the reason for a refusal.
pub(crate) fn spread_of(inner: &ArgMatches<'_>, value: Value) -> Result<Option<usize>, &'static str>
    ensures { result_ok result ≡ spread_in (rows_in inner.now) value }
{
    if !has(inner, "spread") {
        Ok(None)
    } else if value == Value::Draw {
        Err("best play from a draw has no end, along which positions could be met")
    } else {
        Ok(Some(number_or(inner, "per-move", usize::MAX)))
    }
}

// Returns which of the positions are returned in an order: the first up to a limit.
fn first_in(order: Option<Order>, limit: usize) -> Choice
    ensures { result ≡ first_in order limit }
{
    match order {
        Some(order) => Choice::Sorted { order, limit },
        None => Choice::First(limit),
    }
}

// Returns which of the positions are returned: a number of them by chance, or the first of an order up to a limit.
fn choice_of(inner: &ArgMatches<'_>, order: Option<Order>) -> Choice
    ensures { result ≡ choice_in (rows_in inner.now) order }
{
    match number_in(inner, "random") {
        Some(number) => Choice::Random {
            number: number as usize,
            seed: number_or(inner, "seed", 0) as u64,
        },
        None => first_in(order, limit_of(inner)),
    }
}

// Returns the same of positions that are apart.
fn apart_of(inner: &ArgMatches<'_>, order: Option<Order>, per_move: usize) -> Choice
    ensures { result ≡ apart_in (rows_in inner.now) order per_move }
{
    let random = number_in(inner, "random");
    Choice::Apart {
        order,
        per_move,
        limit: match random {
            Some(number) => number as usize,
            None => limit_of(inner),
        },
        seed: match random {
            Some(_) => Some(number_or(inner, "seed", 0) as u64),
            None => None,
        },
        turn: seed_in(inner, "orient"),
    }
}

// Returns the seed that an option gives, if it is there.
fn seed_in(inner: &ArgMatches<'_>, name: &str) -> Option<u64>
    ensures { result ≡ option_number (rows_in inner.now) name.now }
{
    match number_in(inner, name) {
        Some(number) => Some(number as u64),
        None => None,
    }
}

// Returns the choice of a line, of all positions or of those that are apart.
fn choice_among(inner: &ArgMatches<'_>, order: Option<Order>, spread: Option<usize>) -> Choice
    ensures { result ≡ choice_among (rows_in inner.now) order spread }
{
    match spread {
        Some(per_move) => apart_of(inner, order, per_move),
        None => choice_of(inner, order),
    }
}

// Returns what is written of found positions. The command line accepts at most one of these words.
fn report_of(inner: &ArgMatches<'_>) -> Report
    ensures { result ≡ report_in (rows_in inner.now) }
{
    if has(inner, "json") {
        Report::Lines(LineForm::Json)
    } else if has(inner, "page") {
        Report::Sheet
    } else if has(inner, "show") {
        Report::Lines(LineForm::Boards)
    } else {
        Report::Lines(LineForm::Rows)
    }
}

/// Reads a line of `find`.
pub(crate) fn search_of(inner: &ArgMatches<'_>) -> Option<PositionSearch>
    ensures { result ≡ search_in (rows_in inner.now) }
{
    let sought = sought_of(inner).ok()?;
    let order = order_of(inner).ok()?;
    let spread = spread_of(inner, sought.value).ok()?;
    Some(PositionSearch {
        sought,
        tier: tier_in(inner, "tier"),
        reached: has(inner, "reached"),
        choice: choice_among(inner, order, spread),
        report: report_of(inner),
    })
}

// Returns the form in which counts are written. The command line accepts at most one of these words.
fn counts_form_of(inner: &ArgMatches<'_>) -> CountsForm
    ensures { result ≡ counts_form_in (rows_in inner.now) }
{
    if has(inner, "csv") {
        CountsForm::Csv
    } else if has(inner, "json") {
        CountsForm::Json
    } else {
        CountsForm::Bars
    }
}

/// Reads a line of `counts`.
pub(crate) fn counts_of(inner: &ArgMatches<'_>) -> CountsRequest
    ensures { result ≡ counts_in (rows_in inner.now) }
{
    let among = if has(inner, "legal") {
        Among::Legal
    } else {
        Among::Canonical
    };
    CountsRequest {
        among,
        by_tier: has(inner, "by-tier"),
        reached: has(inner, "reached"),
        form: counts_form_of(inner),
    }
}

// Adds a word to the parts that an answer has besides a position's value and moves. Refuses an unknown word and a repeated one.
fn with_word(with: With, word: &str) -> Option<With>
    ensures { result ≡ with_word «with» word.now }
{
    match word {
        "canonical" if !with.canonical => Some(With {
            canonical: true,
            ..with
        }),
        "parents" if !with.parents => Some(With {
            parents: true,
            ..with
        }),
        "symmetric" if !with.symmetric => Some(With {
            symmetric: true,
            ..with
        }),
        "best" if !with.best => Some(With { best: true, ..with }),
        _ => None,
    }
}

// Reads the parts that an answer has besides a position's value and moves: words separated by commas, each once.
fn with_of(text: &str) -> Option<With>
    ensures { result ≡ with_words with_nothing (split_at_commas text.now) }
{
    let mut with = Asked::PLAIN.with;
    let mut rest = text;
    while let Some((word, after)) = rest.split_once(',') {
        with = with_word(with, word)?;
        rest = after;
    }
    with_word(with, rest)
}

/// Reads the answer that each position gets, or returns the reason for a refusal: the words of `--with` are known ones, each once.
pub(crate) fn json_of(inner: &ArgMatches<'_>) -> Result<Asked, &'static str>
    ensures { result_ok result ≡ answer_in (rows_in inner.now) }
{
    let with = match text_in(inner, "with") {
        Some(text) => with_of(text).ok_or(
            "the words of '--with' are canonical, parents, symmetric and best, each once, with commas between them",
        )?,
        None => Asked::PLAIN.with,
    };
    Ok(Asked {
        values: has(inner, "values"),
        distinct: has(inner, "distinct"),
        with,
    })
}

/// Reads a line of `ask`.
pub(crate) fn ask_of(inner: &ArgMatches<'_>) -> Option<AskRequest>
    ensures { result ≡ ask_in (rows_in inner.now) }
{
    Some(AskRequest {
        answer: json_of(inner).ok()?,
        ready: has(inner, "ready"),
    })
}
