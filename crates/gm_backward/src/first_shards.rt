//! The shards of a tier before its first level, one for each of its four tiles.
ghost use Rattle.std.specs.Prelude.{◌≡◌, ◌+◌, ◌<◌, length, IfOk, IfErr};
ghost use Rattle.gm_game.specs.declared.position.Phase.TheVariants.{WinLose};
ghost use Rattle.gm_frontier.specs.Levels.{place_at};
ghost use Rattle.gm_counters.specs.inner.Begin.{AreStarts};
ghost use Rattle.gm_counters.specs.Steps.{place_of};
ghost use Rattle.gm_backward.specs.Solving.{IsError};
ghost use Rattle.gm_backward.specs.inner.Cuts.{AreCuts};
ghost use Rattle.gm_backward.specs.inner.Tiling.{IsTile, AreTwo};

use crate::cuts::Cuts;
use crate::error::SolveError;
use crate::tiles::Tiles;
use gm_counters::ordered::OrderedShard;
use gm_counters::status::Start;
use gm_game::game::Game;
use gm_locks::four::Four;
use std::alloc::{AllocError, Global};
use std::thread::{Threads, join};

// Makes the shard of tile k.
fn begin_tile<G: Game>(
    alloc: Global,
    tier: u64,
    cuts: Cuts,
    k: u64,
    starts: &[Start],
) -> Result<OrderedShard<G>, AllocError>
    requires starts { AreStarts G.rules tier 0 starts.now }
    requires whole { length starts.now ≡ G.rules.tier_size tier }
    requires cuts { AreCuts G.rules tier cuts }
    requires tile { k < 4 }
    ensures { IfOk result (IsTile G.rules tier cuts k) }
{
    let size = G::tier_size(tier);
    let (lo, hi) = cuts.range(size, k);
    OrderedShard::begin(alloc, tier, lo, &starts[lo as usize..hi as usize])
}

// Two shards of a tier before its first level.
type ShardPair<G> = (OrderedShard<G>, OrderedShard<G>);

// Makes the shards of tiles k and k + 1.
fn begin_two<G: Game>(
    alloc: Global,
    tier: u64,
    cuts: Cuts,
    k: u64,
    starts: &[Start],
) -> Result<ShardPair<G>, AllocError>
    requires starts { AreStarts G.rules tier 0 starts.now }
    requires whole { length starts.now ≡ G.rules.tier_size tier }
    requires cuts { AreCuts G.rules tier cuts }
    requires tiles { k < 3 }
    ensures { IfOk result (λ two. AreTwo G.rules tier cuts k two.0 two.1) }
{
    let Ok(low) = begin_tile(alloc, tier, cuts, k, starts) else {
        return Err(AllocError);
    };
    let Ok(high) = begin_tile(alloc, tier, cuts, k + 1, starts) else {
        return Err(AllocError);
    };
    Ok((low, high))
}

// Makes the shards of tiles k and k + 1, by two threads.
fn begin_two_by<G: Game + Send + Sync, R: Threads + Sync>(
    rt: &R,
    alloc: Global,
    tier: u64,
    cuts: Cuts,
    k: u64,
    starts: &[Start],
) -> Result<ShardPair<G>, AllocError>
    requires starts { AreStarts G.rules tier 0 starts.now }
    requires whole { length starts.now ≡ G.rules.tier_size tier }
    requires cuts { AreCuts G.rules tier cuts }
    requires tiles { k < 3 }
    ensures { IfOk result (λ two. AreTwo G.rules tier cuts k two.0 two.1) }
{
    let (low, high) = join(
        rt,
        || -> Result<OrderedShard<G>, AllocError>
            requires { AreStarts G.rules tier 0 starts.now × (length starts.now ≡ G.rules.tier_size tier)
                × AreCuts G.rules tier cuts × (k < 3) }
            ensures { IfOk result (IsTile G.rules tier cuts k) }
        { begin_tile(alloc, tier, cuts, k, starts) },
        || -> Result<OrderedShard<G>, AllocError>
            requires { AreStarts G.rules tier 0 starts.now × (length starts.now ≡ G.rules.tier_size tier)
                × AreCuts G.rules tier cuts × (k < 3) }
            ensures { IfOk result (IsTile G.rules tier cuts (k + 1)) }
        { begin_tile(alloc, tier, cuts, k + 1, starts) },
    );
    match (low, high) {
        (Ok(low), Ok(high)) => Ok((low, high)),
        (low, high) => {
            drop((low, high));
            Err(AllocError)
        }
    }
}

// Returns a tier before its first level, of the shards of its tiles.
fn tiles_of<G: Game>(
    tier: u64,
    cuts: Cuts,
    low: Result<ShardPair<G>, AllocError>,
    high: Result<ShardPair<G>, AllocError>,
) -> Result<Tiles<G>, SolveError>
    requires cuts { AreCuts G.rules tier cuts }
    requires low { IfOk low (λ two. AreTwo G.rules tier cuts 0 two.0 two.1) }
    requires high { IfOk high (λ two. AreTwo G.rules tier cuts 2 two.0 two.1) }
    ensures place { IfOk result (λ tiles. place_of tiles.shards.a ≡ place_at tier WinLose 0) }
    ensures error { IfErr result (IsError G.rules tier) }
{
    let Ok((a, b)) = low else {
        return Err(SolveError::OutOfMemory);
    };
    let Ok((c, d)) = high else {
        return Err(SolveError::OutOfMemory);
    };
    Ok(Tiles {
        shards: Four { a, b, c, d },
        cuts,
    })
}

/// Returns a tier before its first level, of the shards of its tiles, made by four threads.
pub(crate) fn begin_four<G: Game + Send + Sync, R: Threads + Sync>(
    rt: &R,
    alloc: Global,
    tier: u64,
    cuts: Cuts,
    starts: &[Start],
) -> Result<Tiles<G>, SolveError>
    requires starts { AreStarts G.rules tier 0 starts.now }
    requires whole { length starts.now ≡ G.rules.tier_size tier }
    requires cuts { AreCuts G.rules tier cuts }
    ensures place { IfOk result (λ tiles. place_of tiles.shards.a ≡ place_at tier WinLose 0) }
    ensures error { IfErr result (IsError G.rules tier) }
{
    let (low, high) = join(
        rt,
        || -> Result<ShardPair<G>, AllocError>
            requires { AreStarts G.rules tier 0 starts.now × (length starts.now ≡ G.rules.tier_size tier)
                × AreCuts G.rules tier cuts }
            ensures { IfOk result (λ two. AreTwo G.rules tier cuts 0 two.0 two.1) }
        { begin_two_by(rt, alloc, tier, cuts, 0, starts) },
        || -> Result<ShardPair<G>, AllocError>
            requires { AreStarts G.rules tier 0 starts.now × (length starts.now ≡ G.rules.tier_size tier)
                × AreCuts G.rules tier cuts }
            ensures { IfOk result (λ two. AreTwo G.rules tier cuts 2 two.0 two.1) }
        { begin_two_by(rt, alloc, tier, cuts, 2, starts) },
    );
    tiles_of(tier, cuts, low, high)
}

/// Returns a tier before its first level, of the shards of its tiles, made by this thread.
pub(crate) fn begin_in_turn<G: Game>(
    alloc: Global,
    tier: u64,
    cuts: Cuts,
    starts: &[Start],
) -> Result<Tiles<G>, SolveError>
    requires starts { AreStarts G.rules tier 0 starts.now }
    requires whole { length starts.now ≡ G.rules.tier_size tier }
    requires cuts { AreCuts G.rules tier cuts }
    ensures place { IfOk result (λ tiles. place_of tiles.shards.a ≡ place_at tier WinLose 0) }
    ensures error { IfErr result (IsError G.rules tier) }
{
    let low = begin_two(alloc, tier, cuts, 0, starts);
    let high = begin_two(alloc, tier, cuts, 2, starts);
    tiles_of(tier, cuts, low, high)
}
