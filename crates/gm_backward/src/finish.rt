//! The records of a tier after its last level.
ghost use Rattle.std.specs.Prelude.{◌≡◌, ◌++◌, List, Option, IfOk};
ghost use Rattle.gm_game.specs.declared.position.Solved.{Solved as SolvedData};
ghost use Rattle.gm_backward.specs.inner.Tiling.{IsShardFinished, AreAllOf, AreRecordsOf};

use gm_counters::ordered::OrderedShard;
use gm_frontier::last::Last;
use gm_game::game::Game;
use gm_table::packed::Packed;
use std::alloc::{AllocError, Global};
use std::thread::{Threads, join};

// Returns the true records of a shard when nothing is left to settle, with room for this many.
fn finish_one<G: Game>(
    alloc: Global,
    room: u64,
    shard: OrderedShard<G>,
    last: &Last<G>,
) -> Result<Packed, AllocError>
    requires { IsShardFinished shard last.now }
    ensures { IfOk result (AreAllOf G.rules shard) }
{
    let mut records = Packed::with_capacity(alloc, room as usize)?;
    shard.finish(last, &mut records)?;
    Ok(records)
}

/// Returns the true records of two shards when nothing is left to settle, made by two threads.
pub(crate) fn finish_two<G: Game + Send + Sync, R: Threads + Sync>(
    rt: &R,
    alloc: Global,
    room: u64,
    low: OrderedShard<G>,
    high: OrderedShard<G>,
    last: &Last<G>,
) -> Result<Packed, AllocError>
    requires low { IsShardFinished low last.now }
    requires high { IsShardFinished high last.now }
    ensures { IfOk result (AreRecordsOf G.rules low high) }
{
    let (first, second) = join(
        rt,
        move || -> Result<Packed, AllocError>
            requires { IsShardFinished low last.now }
            ensures { IfOk result (AreAllOf G.rules low) }
        { finish_one(alloc, room, low, last) },
        move || -> Result<Packed, AllocError>
            requires { IsShardFinished high last.now }
            ensures { IfOk result (AreAllOf G.rules high) }
        { finish_one(alloc, room, high, last) },
    );
    joined(first, second)
}

/// Returns the records of both, one after the other.
pub(crate) fn joined(
    low: Result<Packed, AllocError>,
    high: Result<Packed, AllocError>,
) -> Result<Packed, AllocError>
    ensures { IfOk result (λ all. (p : List (Option SolvedData)) × (q : List (Option SolvedData)) × (low ≡ Ok p) × (high ≡ Ok q) × (all ≡ p ++ q)) }
{
    let mut all = low?;
    all.append(&high?)?;
    Ok(all)
}
