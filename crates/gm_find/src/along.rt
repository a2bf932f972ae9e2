//! The tries along the solution of a position.
ghost use Rattle.std.specs.Prelude.{◌≡◌, ◌≤◌, ◌*◌, ◌+◌, ◌↔◌, List, ◌∷◌, ℕ, Some, IsTrue};
ghost use Rattle.gm_game.specs.Values.{IsTrueValue};
ghost use Rattle.gm_game.specs.declared.limits.TheConstants.{MOVES, REMOTENESS};
ghost use Rattle.gm_find.specs.Tries.{AreOnSolution, AreTriesOf, HasLeastTries, least_turn, total_of};
ghost use Rattle.gm_find.specs.inner.Tallies.{AreTallied, AreAfter, IsSmall, HasEnd};

use crate::tries::{Tries, count_tries};
use gm_game::game::Game;
use gm_game::position::{Solved, Value};
use gm_play::known::Known;

/// The least and the sum of some numbers.
#[derive(Clone, Copy, Debug, PartialEq, Eq)]
pub(crate) struct Tally {
    least: usize,
    total: u64,
}

/// Returns the tries of a position of this true value, itself and along its solution; `None` for a draw, which has no solution.
///
/// It looks up the moves of every second position of the solution, and its calls are as deep as the remoteness.
pub(crate) fn tries_of<G: Game>(known: &Known<'_, G>, solved: Solved) -> Option<Tries>
    requires value { IsTrueValue G.rules known.now.position solved }
    requires small { solved.remoteness ≤ REMOTENESS }
    ensures { AreTriesOf G.rules known.now.position solved.value result }
{
    match solved.value {
        Value::Draw => None,
        Value::Lose | Value::Tie | Value::Win => {
            let own = count_tries(known);
            Some(with_own(own, tally_from(known, solved.remoteness)))
        }
    }
}

/// Tests whether a position has a solution and at least `least` tries at each turn of the side that moves first.
pub(crate) fn has_least_tries<G: Game>(known: &Known<'_, G>, least: usize) -> bool
    ensures { IsTrue result ↔ HasLeastTries G.rules least known.now.position }
{
    match tries_of(known, known.value()) {
        Some(found) => has_at_least(found, least),
        None => false,
    }
}

// Tests whether there are at least `least` tries at each turn.
fn has_at_least(found: Tries, least: usize) -> bool
    ensures { IsTrue result ↔ (least ≤ found.least) }
{
    least <= found.least
}

// Returns the least and the sum of the tries at the turns of the side that is to move, along the solution of a position with this remoteness.
#[cycle(turns)]
fn tally_from<G: Game>(known: &Known<'_, G>, left: u32) -> Option<Tally>
    requires end { HasEnd G.rules known.now.position left }
    requires small { left ≤ REMOTENESS }
    ensures along { (ts : List ℕ) × AreOnSolution G.rules known.now.position ts × AreTallied ts result }
    ensures small { IsSmall (MOVES * left) result }
{
    match known.best_move() {
        Some(m) => {
            let after = tally_after(&known.play(m), left - 1);
            Some(with_turn(count_tries(known), after))
        }
        None => None,
    }
}

// Returns the same for a position in which the other side is to move.
#[cycle(turns)]
fn tally_after<G: Game>(known: &Known<'_, G>, left: u32) -> Option<Tally>
    requires end { HasEnd G.rules known.now.position left }
    requires small { left ≤ REMOTENESS }
    ensures along { (ts : List ℕ) × AreAfter G.rules known.now.position ts × AreTallied ts result }
    ensures small { IsSmall (MOVES * left) result }
{
    match known.best_move() {
        Some(e) => tally_from(&known.play(e), left - 1),
        None => None,
    }
}

// Returns the least and the sum of some numbers and one more.
fn with_turn(own: usize, rest: Option<Tally>) -> Tally
    requires own { own ≤ MOVES }
    requires rest { IsSmall (MOVES * REMOTENESS) rest }
    ensures all { (ts : List ℕ) → AreTallied ts rest → AreTallied (own ∷ ts) (Some result) }
    ensures small { (n : ℕ) → IsSmall n rest → result.total ≤ own + n }
{
    match rest {
        Some(rest) => Tally {
            least: own.min(rest.least),
            total: own as u64 + rest.total,
        },
        None => Tally {
            least: own,
            total: own as u64,
        },
    }
}

// Returns the tries of a position: its own, and what is known of those along its solution.
fn with_own(own: usize, along: Option<Tally>) -> Tries
    ensures own { result.own ≡ own }
    ensures along { (ts : List ℕ) → AreTallied ts along → (result.least ≡ least_turn ts) × (result.total ≡ total_of ts) }
{
    match along {
        Some(found) => Tries {
            own,
            least: found.least,
            total: found.total,
        },
        None => Tries {
            own,
            least: 0,
            total: 0,
        },
    }
}
