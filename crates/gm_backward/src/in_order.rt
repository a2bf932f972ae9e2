//! The pairs of a level, delivered to a shard in their order. None comes twice, so neither the children delivered to a position nor the places of its children
//! are kept.
ghost use Rattle.std.specs.Prelude.{◌≡◌, ◌<◌, ◌≤◌, IfOk, IfErr, OnOk};
ghost use Rattle.gm_counters.specs.Steps.{place_of, IsWhole};
ghost use Rattle.gm_locks.specs.Spots.{spot_of};
ghost use Rattle.gm_locks.specs.Rounds.{pairs_into, HasNoneHere, AreFirst};
ghost use Rattle.gm_backward.specs.Solving.{IsError};

use crate::error::SolveError;
use gm_counters::ordered::OrderedShard;
use gm_frontier::level::Level;
use gm_game::game::Game;
use gm_game::limits::REMOTENESS;

/// Delivers the pairs of a level from number `done` on, to a shard that has the first `done` of them and no later one. After that the shard has each pair of
/// its range whose child is at or before its place.
pub fn deliver_rest<G: Game>(
    shard: &mut OrderedShard<G>,
    level: &Level<G>,
    done: u64,
) -> Result<(), SolveError>
    requires place { level.now.place ≡ place_of shard.old }
    requires first { AreFirst (pairs_into G.rules (spot_of shard.old) level.now.notes) shard.old done }
    requires near { shard.old.level ≤ REMOTENESS }
    ensures spot { spot_of shard.new ≡ spot_of shard.old }
    ensures whole { OnOk result (IsWhole G.rules shard.new) }
    ensures error { IfErr result (IsError G.rules shard.old.tier) }
{
    let tier = shard.tier();
    let (lo, hi) = shard.range();
    let _level = level.place();
    let mut number = 0u64;
    for (note, parent) in level.pairs(0, level.len().max(1), lo, hi) {
        if number < done {
            number += 1;
            continue;
        }
        match shard.deliver_new(&note, parent) {
            Ok(_) => number += 1,
            // A new pair of the present level into the shard's range is refused only if it is too far.
            Err(_refused) => {
                let _good = shard.range();
                return Err(SolveError::TooFar { tier });
            }
        }
    }
    let _end = shard.range();
    Ok(())
}

/// Delivers the pairs of a level to a shard that has none of them.
pub(crate) fn deliver_level<G: Game>(
    shard: OrderedShard<G>,
    level: &Level<G>,
) -> Result<OrderedShard<G>, SolveError>
    requires place { level.now.place ≡ place_of shard }
    requires none { HasNoneHere G.rules shard }
    requires near { shard.level ≤ REMOTENESS }
    ensures spot { IfOk result (λ done. spot_of done ≡ spot_of shard) }
    ensures whole { IfOk result (IsWhole G.rules) }
    ensures error { IfErr result (IsError G.rules shard.tier) }
{
    let (lo, hi) = shard.range();
    if lo >= hi {
        return Ok(shard);
    }
    let mut shard = shard;
    let _level = level.place();
    deliver_rest(&mut shard, level, 0)?;
    Ok(shard)
}
