//! Whether exactly one move of a position achieves an aim.
ghost use Rattle.std.specs.Prelude.{◌↔◌, ◌≡◌, ℕ, List, true, length, IsTrue};
ghost use Rattle.std.specs.List.{Contains};
ghost use Rattle.gm_game.specs.Values.{IsTrueValue};
ghost use Rattle.gm_find.specs.Lists.{AreThose};
ghost use Rattle.gm_find.specs.Finding.{Achieves, HasOnlyResult, HasOnly, HasOnlyFastest, HasMoves, AgreesWith, IsAchievedBy};

use gm_game::game::Game;
use gm_game::position::{Position, Solved, Value};
use gm_play::best_moves::wanted;
use gm_play::known::Known;

/// What a move has to achieve to count.
#[derive(Clone, Copy, Debug, PartialEq, Eq)]
pub enum Aim {
    /// After the move the side that made it still has this value.
    Keep(Value),
    /// The move wins in this many moves, itself included.
    WinIn(u32),
}

/// Returns whether exactly one move achieves the aim; if only distinct moves count, exactly one up to symmetry.
pub(crate) fn has_only<G: Game>(known: &Known<'_, G>, aim: Aim, distinct: bool) -> bool
    ensures { IsTrue result ↔ HasOnly G.rules distinct aim known.now.position }
{
    if distinct {
        has_only_result(known, aim)
    } else {
        achieving(known, aim) == 1
    }
}

/// Returns whether a position of this true value is a win in which exactly one move wins in the fewest moves; if only distinct moves
/// count, exactly one up to symmetry.
pub(crate) fn has_only_fastest<G: Game>(
    known: &Known<'_, G>,
    solved: Solved,
    distinct: bool,
) -> bool
    requires { IsTrueValue G.rules known.now.position solved }
    ensures { IsTrue result ↔ HasOnlyFastest G.rules distinct known.now.position }
{
    match solved.value {
        Value::Win => has_only(known, Aim::WinIn(solved.remoteness), distinct),
        Value::Lose | Value::Draw | Value::Tie => false,
    }
}

/// Returns whether there are as many moves as are sought, counted up to symmetry for distinct moves.
pub(crate) fn has_moves<G: Game>(p: Position, least: usize, distinct: bool) -> bool
    requires { G.rules.is_legal p ≡ true }
    ensures { IsTrue result ↔ HasMoves G.rules distinct least p }
{
    if distinct {
        least <= G::count_children(p)
    } else {
        least <= G::moves(p).len()
    }
}

// Returns how many moves achieve the aim.
fn achieving<G: Game>(known: &Known<'_, G>, aim: Aim) -> usize
    ensures { (kept : List ℕ) × AreThose (Achieves G.rules aim known.now.position) (G.rules.moves known.now.position) kept × (length kept ≡ result) }
{
    let moves = G::moves(known.position);
    let mut number = 0;
    for m in moves.as_slice() {
        if achieves(known, aim, *m) {
            number += 1;
        }
    }
    number
}

// Returns whether the moves that achieve the aim lead to one position, up to symmetry.
fn has_only_result<G: Game>(known: &Known<'_, G>, aim: Aim) -> bool
    ensures { IsTrue result ↔ HasOnlyResult G.rules aim known.now.position }
{
    let moves = G::moves(known.position);
    let mut only = None;
    for m in moves.as_slice() {
        if achieves(known, aim, *m) {
            let found = G::canonical(known.play(*m).position);
            if !agrees(only, found) {
                return false;
            }
            only = Some(found);
        }
    }
    only.is_some()
}

// Returns whether there is no other position yet.
fn agrees(only: Option<Position>, found: Position) -> bool
    ensures { IsTrue result ↔ AgreesWith only found }
{
    match only {
        Some(other) => other == found,
        None => true,
    }
}

/// Returns whether a move achieves the aim.
pub(crate) fn achieves<G: Game>(known: &Known<'_, G>, aim: Aim, m: u32) -> bool
    requires { Contains (G.rules.moves known.now.position) m }
    ensures { IsTrue result ↔ Achieves G.rules aim known.now.position m }
{
    is_achieved(aim, known.play(m).value())
}

// Returns whether a move to a position of this value achieves the aim.
fn is_achieved(aim: Aim, after: Solved) -> bool
    ensures { IsTrue result ↔ IsAchievedBy aim after }
{
    match aim {
        Aim::Keep(value) => after.value == wanted(value),
        Aim::WinIn(moves) => {
            after.value == Value::Lose && after.remoteness < moves && after.remoteness == moves - 1
        }
    }
}
