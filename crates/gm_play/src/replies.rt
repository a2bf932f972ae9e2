//! How hard each move is to answer.
ghost use Rattle.std.specs.Prelude.{◌≡◌, ◌++◌, count_by, option_and_then, slice_get, length, ◌-◌, IfOk, OnOk};
ghost use Rattle.std.specs.Fmt.{decimal};
ghost use Rattle.gm_play.specs.PlayTexts.{IsMoveOf};
ghost use Rattle.gm_play.specs.Replies.{same_value as same_value_spec, keeps, loss_of as loss_of_spec, soon_text as soon_text_spec, replies_row, AreReplies, IsRepliesText};

use crate::firsts::moves_of;
use crate::known::Known;
use crate::move_values::{MoveValue, move_values};
use crate::texts::push_field;
use gm_game::game::Game;
use gm_game::position::Value;
use gm_game::shown::{Line, Shown};
use gm_game::text::{push_decimal, value_text};
use std::alloc::{AllocError, Global};

/// The replies to a move: the moves of its result.
#[derive(Clone, Copy, Debug, PartialEq, Eq)]
pub struct Replies {
    /// How many there are.
    pub all: usize,
    /// How many of them keep the value of the position for the side that replies.
    pub kept: usize,
    /// The least number of moves in which a reply loses, counted from before it, if one loses.
    pub soon: Option<u32>,
}

/// Returns the replies in a position. Allocates no memory.
pub fn replies_in<G: Game>(known: &Known<'_, G>) -> Replies
    ensures { AreReplies G.rules known.now.position result }
{
    let value = known.value().value;
    let list = move_values(known);
    let moves = list.as_slice();
    Replies {
        all: moves.len(),
        kept: count_kept(moves, value),
        soon: worst_loss(moves),
    }
}

// Counts the moves that are worth this value.
fn count_kept(moves: &[MoveValue], value: Value) -> usize
    ensures { result ≡ count_by (keeps value) moves.now }
{
    moves
        .iter()
        .filter(|x| same_value(x.worth.value, value))
        .count()
}

// Returns in how many moves the last move loses, if it loses.
fn worst_loss(moves: &[MoveValue]) -> Option<u32>
    ensures { result ≡ option_and_then loss_of_spec (slice_get moves.now (length moves.now - 1)) }
{
    match moves.last() {
        Some(x) => loss_of(*x),
        None => None,
    }
}

// Returns in how many moves a move loses, if it loses.
fn loss_of(x: MoveValue) -> Option<u32>
    ensures { result ≡ loss_of_spec x }
{
    match x.worth.value {
        Value::Lose => Some(x.worth.remoteness),
        _ => None,
    }
}

// Tests whether two values are the same.
fn same_value(a: Value, b: Value) -> bool
    ensures { result ≡ same_value_spec a b }
{
    match a {
        Value::Lose => matches!(b, Value::Lose),
        Value::Draw => matches!(b, Value::Draw),
        Value::Tie => matches!(b, Value::Tie),
        Value::Win => matches!(b, Value::Win),
    }
}

/// Returns the rows of the moves of a position, the best first, as `moves_text` has them, each with three more fields: the number of replies that keep the value
/// of the move's result, the number of all replies, and the least number of moves in which a reply loses (empty if none does).
pub fn replies_text<G: Shown>(
    alloc: Global,
    known: &Known<'_, G>,
    distinct: bool,
) -> Result<Vec<u8>, AllocError>
    ensures { IfOk result (λ v. IsRepliesText G.Game.rules G.shown G.move_shown distinct (G.shown known.now.position) v.items) }
{
    let list = moves_of(known, distinct);
    let mut rows = Vec::new(alloc);
    for x in list.as_slice() {
        let replies = replies_in(&known.play(x.number));
        push_replies(&mut rows, known, *x, replies)?;
    }
    Ok(rows)
}

// Appends the row of a move with the replies to it.
fn push_replies<G: Shown>(
    rows: &mut Vec<u8>,
    known: &Known<'_, G>,
    x: MoveValue,
    replies: Replies,
) -> Result<(), AllocError>
    requires { IsMoveOf G.Game.rules known.now.position x }
    ensures { OnOk result (rows.new.items ≡ rows.old.items ++ replies_row G.shown G.move_shown known.now.position x replies) }
{
    push_field(
        rows,
        G::move_text(known.position, x.number).as_slice(),
        b"\t",
    )?;
    push_field(rows, value_text(x.worth).as_slice(), b"\t")?;
    push_field(rows, G::show(x.position).as_slice(), b"\t")?;
    push_field(rows, number_text(replies.kept as u64).as_slice(), b"\t")?;
    push_field(rows, number_text(replies.all as u64).as_slice(), b"\t")?;
    push_field(rows, soon_text(replies.soon).as_slice(), b"\n")
}

// Returns a number in decimal.
fn number_text(number: u64) -> Line
    ensures { result.items ≡ decimal number }
{
    let mut line = Line::new();
    push_decimal(&mut line, number);
    line
}

// Returns a number in decimal, or nothing.
fn soon_text(soon: Option<u32>) -> Line
    ensures { result.items ≡ soon_text_spec soon }
{
    match soon {
        Some(number) => number_text(u64::from(number)),
        None => Line::new(),
    }
}
