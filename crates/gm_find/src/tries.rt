//! Moves that are tries: not best, and not refuted at once.
ghost use Rattle.std.specs.Prelude.{◌≡◌, ◌≤◌, ◌↔◌, IsTrue};
ghost use Rattle.std.specs.List.{Contains};
ghost use Rattle.gm_game.specs.Values.{IsTrueValue};
ghost use Rattle.gm_game.specs.declared.limits.TheConstants.{MOVES};
ghost use Rattle.gm_find.specs.Tries.{IsNext, IsBestStep, IsOpen, IsTryStep, IsTry, HasTries};

use gm_game::game::Game;
use gm_game::position::{Solved, Value};
use gm_play::best_moves::wanted;
use gm_play::known::Known;

/// The greatest remoteness at which a win or a tie is in sight.
const IN_SIGHT: u32 = 3;

/// How many tries a position has, itself and along its solution: the line of best play, up to the end of the game. A try is a move that is not a best one, and
/// after which the other side neither wins nor ties within three moves.
#[derive(Clone, Copy, Debug, PartialEq, Eq)]
pub struct Tries {
    /// The tries of the position.
    pub own: usize,
    /// The least number of tries at the turns of the side that moves first.
    pub least: usize,
    /// The sum of these numbers.
    pub total: u64,
}

/// Returns the number of tries of a position. It looks up its moves.
pub(crate) fn count_tries<G: Game>(known: &Known<'_, G>) -> usize
    ensures number { HasTries G.rules known.now.position result }
    ensures few { result ≤ MOVES }
{
    let own = known.value();
    let moves = G::moves(known.position);
    let mut number = 0;
    for m in moves.as_slice() {
        if is_try(known, own, *m) {
            number += 1;
        }
    }
    number
}

// Tests whether a move of a position of this value is a try.
fn is_try<G: Game>(known: &Known<'_, G>, own: Solved, m: u32) -> bool
    requires listed { Contains (G.rules.moves known.now.position) m }
    requires own { IsTrueValue G.rules known.now.position own }
    ensures { IsTrue result ↔ IsTry G.rules known.now.position m }
{
    is_try_step(own, known.play(m).value())
}

// Tests whether a move from a position of one value to one of another is a try.
fn is_try_step(own: Solved, after: Solved) -> bool
    ensures { IsTrue result ↔ IsTryStep own after }
{
    !is_best_step(own, after) && is_open(after)
}

// Tests whether a move from a position of one value to one of another is a best one.
fn is_best_step(own: Solved, after: Solved) -> bool
    ensures { IsTrue result ↔ IsBestStep own after }
{
    after.value == wanted(own.value) && is_next(own, after.remoteness)
}

// Tests whether a remoteness is one less than that of this value. A draw goes on.
fn is_next(own: Solved, remoteness: u32) -> bool
    ensures { IsTrue result ↔ IsNext own.value own.remoteness remoteness }
{
    match own.value {
        Value::Draw => true,
        Value::Lose | Value::Tie | Value::Win => {
            remoteness < own.remoteness && remoteness == own.remoteness - 1
        }
    }
}

// Tests whether the side that is to move neither wins nor ties within three moves.
fn is_open(after: Solved) -> bool
    ensures { IsTrue result ↔ IsOpen after.value after.remoteness }
{
    match after.value {
        Value::Lose | Value::Draw => true,
        Value::Tie | Value::Win => IN_SIGHT < after.remoteness,
    }
}
