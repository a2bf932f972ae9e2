//! The best move of a position.
ghost use Rattle.std.specs.Prelude.{◌≡◌, ◌↔◌, true, false, None, IfOk, IsErrOf, IsTrue};
ghost use Rattle.std.specs.List.{Contains};
ghost use Rattle.gm_table.specs.Tables.{IsHeld, AreHeld};
ghost use Rattle.gm_play.specs.Refusals.{AreNotHeld};
ghost use Rattle.gm_play.specs.BestMoves.{wanted_from, IsNearer, IsChoice, Chooses, Considers, IsBestMove};

use crate::answers::AnswerError;
use gm_game::game::Game;
use gm_game::position::{Position, Value};
use gm_table::tables::Tables;

/// A move that is chosen so far, and the remoteness of its result.
#[derive(Clone, Copy, Debug, PartialEq, Eq)]
pub(crate) struct Choice {
    number: u32,
    remoteness: u32,
}

/// Returns the number of the best move, or `None` at an end. From Win it goes to a Lose of least remoteness, from Lose to a Win of greatest remoteness, from
/// Tie to a Tie of least remoteness, from Draw to a Draw; among equals it has the least number. It takes no memory.
///
/// `Illegal` is tested before `NotHeld`, which comes if the tier of the position or one of its child tiers has no table, even at an end.
pub fn best_move<G: Game>(tables: &Tables<G>, p: Position) -> Result<Option<u32>, AnswerError>
    ensures best { IfOk result (IsBestMove G.rules p) }
    ensures illegal { IsErrOf result AnswerError.Illegal ↔ (G.rules.is_legal p ≡ false) }
    ensures not_held { IsErrOf result AnswerError.NotHeld ↔ AreNotHeld G.rules tables.now p }
{
    if !G::is_legal(p) {
        return Err(AnswerError::Illegal);
    }
    if !tables.has(p.tier) || !tables.has_children(p.tier) {
        return Err(AnswerError::NotHeld);
    }
    Ok(best_of(tables, p))
}

/// Returns the best move of a legal position whose tier and child tiers have tables.
pub(crate) fn best_of<G: Game>(tables: &Tables<G>, p: Position) -> Option<u32>
    requires legal { G.rules.is_legal p ≡ true }
    requires own { IsHeld tables.now p.tier }
    requires children { AreHeld G.rules tables.now p.tier }
    ensures { IsBestMove G.rules p result }
{
    if G::primitive(p).is_some() {
        return None;
    }
    let solved = tables.get(p).unwrap();
    choose(tables, p, solved.value).map(|choice| choice.number)
}

// Returns the best move towards a wanted value, if one goes to it.
fn choose<G: Game>(tables: &Tables<G>, p: Position, value: Value) -> Option<Choice>
    requires legal { G.rules.is_legal p ≡ true }
    requires own { IsHeld tables.now p.tier }
    requires children { AreHeld G.rules tables.now p.tier }
    ensures { IsChoice G.rules p value (G.rules.moves p) result }
{
    let mut best = None;
    for number in G::moves(p).as_slice() {
        best = consider(tables, p, value, best, *number);
    }
    best
}

// Returns the choice after one more move.
fn consider<G: Game>(
    tables: &Tables<G>,
    p: Position,
    value: Value,
    best: Option<Choice>,
    number: u32,
) -> Option<Choice>
    requires legal { G.rules.is_legal p ≡ true }
    requires listed { Contains (G.rules.moves p) number }
    requires own { IsHeld tables.now p.tier }
    requires children { AreHeld G.rules tables.now p.tier }
    ensures { Considers G.rules p value number best result }
{
    let child = tables.get(G::play(p, number)).unwrap();
    if child.value != wanted(value) {
        return best;
    }
    let remoteness = child.remoteness;
    Some(better(value, best, Choice { number, remoteness }))
}

/// Returns the value of the result of a best move from a position with this value.
pub fn wanted(value: Value) -> Value
    ensures { result ≡ wanted_from value }
{
    match value {
        Value::Lose => Value::Win,
        Value::Draw => Value::Draw,
        Value::Tie => Value::Tie,
        Value::Win => Value::Lose,
    }
}

// Returns whether a result of this remoteness is better than one of another.
fn is_nearer(value: Value, remoteness: u32, than: u32) -> bool
    ensures { IsTrue result ↔ IsNearer value remoteness than }
{
    match value {
        Value::Lose => than < remoteness,
        Value::Draw => false,
        Value::Tie | Value::Win => remoteness < than,
    }
}

// Returns the choice so far, unless the new one is better.
fn better(value: Value, best: Option<Choice>, choice: Choice) -> Choice
    ensures { Chooses value best choice.number choice.remoteness result }
{
    match best {
        Some(old) if !is_nearer(value, choice.remoteness, old.remoteness) => old,
        _ => choice,
    }
}
