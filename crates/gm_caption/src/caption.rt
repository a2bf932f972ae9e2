//! The line under a diagram.
ghost use Rattle.std.specs.Prelude.{◌≡◌, ◌++◌, IfOk, OnOk, option_map};
ghost use Rattle.std.specs.Fmt.{decimal};
ghost use Rattle.std.specs.List.{flat_map};
ghost use Rattle.gm_caption.specs.Templates.{listed, parts_of};
ghost use Rattle.gm_caption.specs.Captions.{texts_of, caption_for, is_valued, own_moves, outcome, own_line, verb, counted, field_text, part_text, template_text, template_line, line_under};

use crate::template::{Field, Part, next_part};
use gm_draw::markup::push_escaped;
use gm_game::position::{Solved, Value};
use gm_game::shown::Line;
use gm_game::text::push_decimal;
use std::alloc::AllocError;

/// What is shown of the value of a puzzle.
#[derive(Clone, Copy, Debug, PartialEq, Eq)]
pub enum Caption<'a> {
    /// Nothing.
    Plain,
    /// The value, with the number of moves of both sides.
    BothSides,
    /// The value, with the number of moves of the side to move.
    OwnMoves,
    /// What a template asks for.
    Template(&'a str),
}

/// What a template can ask for.
#[derive(Clone, Copy)]
pub struct Labels<'a> {
    /// The title of the game.
    pub game: &'a [u8],
    /// The side to move.
    pub side: &'a [u8],
    pub solved: Solved,
    /// The number of the puzzle on the sheet.
    pub number: u64,
}

impl<'a> Caption<'a> {
    /// Returns what is shown: by a template if there is one, and otherwise given whether a value is shown and whether only the moves of
    /// the side to move are counted.
    pub fn of(template: Option<&'a str>, valued: bool, own: bool) -> Caption<'a>
        ensures { result ≡ caption_for template.entry valued own }
    {
        match (template, valued, own) {
            (Some(template), _, _) => Caption::Template(template),
            (None, false, _) => Caption::Plain,
            (None, true, false) => Caption::BothSides,
            (None, true, true) => Caption::OwnMoves,
        }
    }

    /// Tests whether the value is in the diagram.
    pub fn is_valued(self) -> bool
        ensures { result ≡ is_valued self.entry }
    {
        match self {
            Caption::BothSides => true,
            Caption::Plain | Caption::OwnMoves | Caption::Template(_) => false,
        }
    }
}

/// Appends the line under a diagram.
pub fn push_under(
    item: &mut Vec<u8>,
    caption: Caption<'_>,
    labels: Labels<'_>,
) -> Result<(), AllocError>
    ensures { OnOk result (item.new.items ≡ item.old.items ++ line_under caption.entry (texts_of labels.entry)) }
{
    match caption {
        Caption::OwnMoves => push_own(item, labels.side, labels.solved),
        Caption::Template(template) => push_template(item, template.as_bytes(), labels),
        Caption::Plain | Caption::BothSides => Ok(()),
    }
}

// Appends the line that counts the moves of the side to move.
#[tactic(auto, unfolding(crate::specs::Captions::own_line))]
fn push_own(item: &mut Vec<u8>, side: &[u8], value: Solved) -> Result<(), AllocError>
    ensures { OnOk result (item.new.items ≡ item.old.items ++ own_line side.now value) }
{
    item.extend_from_slice(b"<p>")?;
    push_escaped(item, side)?;
    push_outcome(item, value.value, value.remoteness.div_ceil(2))?;
    item.extend_from_slice(b"</p>")
}

// Appends what the side to move reaches in this many moves.
fn push_outcome(item: &mut Vec<u8>, value: Value, count: u32) -> Result<(), AllocError>
    ensures { OnOk result (item.new.items ≡ item.old.items ++ outcome value count) }
{
    match value {
        Value::Win => push_count(item, b" wins in ", count),
        Value::Tie => push_count(item, b" ties in ", count),
        Value::Lose => push_count(item, b" loses in ", count),
        Value::Draw => item.extend_from_slice(b" draws"),
    }
}

// Appends words and a number.
fn push_count(item: &mut Vec<u8>, words: &[u8], count: u32) -> Result<(), AllocError>
    ensures { OnOk result (item.new.items ≡ item.old.items ++ words.now ++ decimal count) }
{
    item.extend_from_slice(words)?;
    push_number(item, u64::from(count))
}

// Appends a number.
fn push_number(item: &mut Vec<u8>, number: u64) -> Result<(), AllocError>
    ensures { OnOk result (item.new.items ≡ item.old.items ++ decimal number) }
{
    let mut text = Line::new();
    push_decimal(&mut text, number);
    item.extend_from_slice(text.as_slice())
}

// Appends the line by a template.
#[tactic(auto, unfolding(crate::specs::Captions::template_line))]
fn push_template(item: &mut Vec<u8>, template: &[u8], labels: Labels<'_>) -> Result<(), AllocError>
    ensures { OnOk result (item.new.items ≡ item.old.items ++ template_line template.now (texts_of labels.entry)) }
{
    item.extend_from_slice(b"<p>")?;
    push_parts(item, template, labels)?;
    item.extend_from_slice(b"</p>")
}

// Appends the parts of a template.
fn push_parts(item: &mut Vec<u8>, template: &[u8], labels: Labels<'_>) -> Result<(), AllocError>
    ensures { OnOk result (item.new.items ≡ item.old.items ++ template_text template.now (texts_of labels.entry)) }
{
    let mut skip = 0;
    for at in 0..template.len() {
        let (part, next) = next_part(template, at, skip);
        push_part(item, part, labels)?;
        skip = next;
    }
    Ok(())
}

// Appends a part of a template, if it is one.
fn push_part(item: &mut Vec<u8>, part: Option<Part>, labels: Labels<'_>) -> Result<(), AllocError>
    ensures { OnOk result (item.new.items ≡ item.old.items ++ flat_map (part_text (texts_of labels.entry)) (listed part)) }
{
    match part {
        Some(Part::Byte(byte)) => push_escaped(item, &[byte]),
        Some(Part::Field(field)) => push_field(item, field, labels),
        None => Ok(()),
    }
}

// Appends what a field asks for.
fn push_field(item: &mut Vec<u8>, field: Field, labels: Labels<'_>) -> Result<(), AllocError>
    ensures { OnOk result (item.new.items ≡ item.old.items ++ field_text (texts_of labels.entry) field) }
{
    let solved = labels.solved;
    match field {
        Field::Side => push_escaped(item, labels.side),
        Field::Value => item.extend_from_slice(verb(solved.value)),
        Field::Moves => push_counted(item, solved.value, solved.remoteness.div_ceil(2)),
        Field::Plies => push_counted(item, solved.value, solved.remoteness),
        Field::Number => push_number(item, labels.number),
        Field::Game => push_escaped(item, labels.game),
    }
}

// Returns what a side reaches by a value, as a verb.
fn verb(value: Value) -> &'static [u8]
    ensures { result.now ≡ verb value }
{
    match value {
        Value::Win => b"wins",
        Value::Tie => b"ties",
        Value::Lose => b"loses",
        Value::Draw => b"draws",
    }
}

// Appends a number of moves, or a dash for a draw.
fn push_counted(item: &mut Vec<u8>, value: Value, count: u32) -> Result<(), AllocError>
    ensures { OnOk result (item.new.items ≡ item.old.items ++ counted value count) }
{
    match value {
        Value::Draw => item.extend_from_slice(b"-"),
        Value::Win | Value::Tie | Value::Lose => push_number(item, u64::from(count)),
    }
}
