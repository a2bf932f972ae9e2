//! Counts as lines of text: with bars, as CSV, or as JSON.
ghost use Rattle.std.specs.Prelude.{◌≡◌, ◌≤◌, ◌<◌, ◌++◌, take, IfOk, OnOk, is_some};
ghost use Rattle.std.specs.Fmt.{decimal};
ghost use Rattle.std.specs.List.{flat_map};
ghost use Rattle.gm_analyse.specs.Bars.{greatest_number as most_spec, bar_length as bar_length_spec, whole_bar, count_row, tier_field, bar_row, csv_head as csv_head_spec, csv_row, rows_text as rows_text_spec, IsCountsText};

use crate::among::Among;
use crate::by_tier::{TierCount, tier_counts};
use crate::counts::Count;
use crate::json_rows::json_rows;
use gm_find::reached::Reached;
use gm_game::game::Game;
use gm_game::position::Solved;
use gm_game::shown::Line;
use gm_game::text::{push_decimal, value_text};
use gm_play::known_tiers::KnownTiers;
use gm_play::texts::{push_field, word_of};
use std::alloc::{AllocError, Global};

/// How counts are written.
#[derive(Clone, Copy, Debug, PartialEq, Eq)]
pub enum Form {
    /// A value with its remoteness, the number of its positions, and a bar of up to 40, with a tab between them.
    Bars,
    /// Comma-separated values: the names of the columns, then a value's word, the remoteness (0 for a draw) and the number.
    Csv,
    /// A line of compact JSON for each count: the number of positions, the remoteness and the value's word, in alphabetical order.
    Json,
}

// The longest bar.
const WHOLE: &[u8] = b"########################################";

/// Returns the counts of some tiers as lines of text, as `tier_counts` gives them. If each tier is counted by itself, its number is written: before each row,
/// or as a member of the line of JSON.
pub fn counts_text<G: Game>(
    alloc: Global,
    known: &KnownTiers<'_, G>,
    among: Among,
    by_tier: bool,
    form: Form,
    reached: Option<&Reached<G>>,
) -> Result<Vec<u8>, AllocError>
    ensures { IfOk result (λ v. IsCountsText G.rules among (is_some reached.entry) by_tier form known.now.tiers.now v.items) }
{
    let counts = tier_counts(alloc, known, among, by_tier, reached)?;
    rows_text(alloc, form, by_tier, counts.as_slice())
}

// Counts in a form.
fn rows_text(
    alloc: Global,
    form: Form,
    by_tier: bool,
    counts: &[TierCount],
) -> Result<Vec<u8>, AllocError>
    ensures { IfOk result (λ v. v.items ≡ rows_text_spec form by_tier counts.now) }
{
    match form {
        Form::Bars => bar_rows(alloc, counts),
        Form::Csv => csv_rows(alloc, by_tier, counts),
        Form::Json => json_rows(alloc, counts),
    }
}

// Returns the rows of some counts, with bars.
fn bar_rows(alloc: Global, counts: &[TierCount]) -> Result<Vec<u8>, AllocError>
    ensures { IfOk result (λ v. v.items ≡ flat_map (bar_row (most_spec counts.now)) counts.now) }
{
    let greatest = most(counts);
    let mut rows = Vec::new(alloc);
    for x in counts {
        push_bar(&mut rows, greatest, *x)?;
    }
    Ok(rows)
}

// Returns the greatest of the numbers.
fn most(counts: &[TierCount]) -> u64
    ensures { result ≡ most_spec counts.now }
{
    let mut greatest = 0;
    for x in counts {
        greatest = x.count.number.max(greatest);
    }
    greatest
}

fn push_bar(rows: &mut Vec<u8>, greatest: u64, x: TierCount) -> Result<(), AllocError>
    ensures { OnOk result (rows.new.items ≡ rows.old.items ++ bar_row greatest x) }
{
    push_tier(rows, x.tier, b"\t")?;
    push_count(rows, greatest, x.count)
}

// Appends the number of a tier, if there is one, and the text after it.
fn push_tier(rows: &mut Vec<u8>, tier: Option<u64>, after: &[u8]) -> Result<(), AllocError>
    ensures { OnOk result (rows.new.items ≡ rows.old.items ++ tier_field after.now tier) }
{
    match tier {
        Some(tier) => push_number(rows, tier, after),
        None => Ok(()),
    }
}

fn push_count(rows: &mut Vec<u8>, greatest: u64, count: Count) -> Result<(), AllocError>
    ensures { OnOk result (rows.new.items ≡ rows.old.items ++ count_row greatest count) }
{
    let solved = Solved {
        value: count.value,
        remoteness: count.remoteness,
    };
    push_field(rows, value_text(solved).as_slice(), b"\t")?;
    push_number(rows, count.number, b"\t")?;
    push_field(rows, bar(bar_length(greatest, count.number)), b"\n")
}

// Returns how long the bar of a number is.
fn bar_length(greatest: u64, number: u64) -> usize
    ensures length { result ≡ bar_length_spec greatest number }
    ensures few { result ≤ 40 }
{
    let whole = u128::from(greatest.max(1));
    let length = (u128::from(number) * 40 + (whole - 1)) / whole;
    length.min(40) as usize
}

// Returns the bar of this length.
fn bar(length: usize) -> &'static [u8]
    requires { length ≤ 40 }
    ensures { result.now ≡ take length whole_bar }
{
    &WHOLE[..length]
}

// Returns the rows of some counts, as comma-separated values.
fn csv_rows(alloc: Global, by_tier: bool, counts: &[TierCount]) -> Result<Vec<u8>, AllocError>
    ensures { IfOk result (λ v. v.items ≡ csv_head_spec by_tier ++ flat_map csv_row counts.now) }
{
    let mut rows = Vec::new(alloc);
    rows.extend_from_slice(csv_head(by_tier))?;
    for x in counts {
        push_csv(&mut rows, *x)?;
    }
    Ok(rows)
}

// Returns the names of the columns.
fn csv_head(by_tier: bool) -> &'static [u8]
    ensures { result.now ≡ csv_head_spec by_tier }
{
    if by_tier {
        b"tier,value,remoteness,positions\n"
    } else {
        b"value,remoteness,positions\n"
    }
}

fn push_csv(rows: &mut Vec<u8>, x: TierCount) -> Result<(), AllocError>
    ensures { OnOk result (rows.new.items ≡ rows.old.items ++ csv_row x) }
{
    let count = x.count;
    push_tier(rows, x.tier, b",")?;
    push_field(rows, word_of(count.value).as_bytes(), b",")?;
    push_number(rows, u64::from(count.remoteness), b",")?;
    push_number(rows, count.number, b"\n")
}

// Appends a number and the text after it.
fn push_number(rows: &mut Vec<u8>, number: u64, after: &[u8]) -> Result<(), AllocError>
    ensures { OnOk result (rows.new.items ≡ rows.old.items ++ (decimal number ++ after.now)) }
{
    let mut text = Line::new();
    push_decimal(&mut text, number);
    push_field(rows, text.as_slice(), after)
}
