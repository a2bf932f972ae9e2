//! The levels of both phases of a tier.
ghost use Rattle.std.specs.Prelude.{◌≡◌, ◌≤◌, IfSome, IfNone, IfOk};
ghost use Rattle.gm_game.specs.declared.position.Phase.TheVariants.{Ties};
ghost use Rattle.gm_frontier.specs.Counts.{IsNumberBefore};
ghost use Rattle.gm_frontier.specs.Levels.{AreTiles};
ghost use Rattle.gm_table.specs.Solving.{IsTooFar, AreDeliveries};
ghost use Rattle.gm_game.specs.Records.{IsTrueTable};
ghost use Rattle.gm_table.specs.Tables.{AreHeld, IsTable};
ghost use Rattle.gm_counters.specs.Steps.{place_of};

use crate::tiles::Tiles;
use gm_frontier::last::Last;
use gm_frontier::level::Level;
use gm_frontier::run::Run;
use gm_game::game::Game;
use gm_game::limits::{REMOTENESS, TIER_SIZE};
use gm_table::packed::Packed;
use gm_table::table::Table;
use gm_table::tables::Tables;
use std::alloc::{AllocError, Global};

/// Returns the positions of the present place, shard after shard.
pub fn fresh<G: Game>(alloc: Global, tiles: &Tiles<G>) -> Result<[Run<G>; 4], AllocError>
    ensures { IfOk result (λ runs. AreTiles (place_of tiles.now.shards.a) 0 (G.rules.tier_size tiles.now.shards.a.tier) runs) }
{
    let a = tiles.shards.a.fresh(alloc)?;
    let b = tiles.shards.b.fresh(alloc)?;
    let c = tiles.shards.c.fresh(alloc)?;
    let d = tiles.shards.d.fresh(alloc)?;
    Ok([a, b, c, d])
}

/// Returns the present level of a tier, whose positions at its place are given.
pub fn next_level<'a, G: Game>(
    alloc: Global,
    tables: &'a Tables<G>,
    tiles: &Tiles<G>,
    runs: &'a [Run<G>],
) -> Result<Level<'a, G>, AllocError>
    requires held { AreHeld G.rules tables.now tiles.now.shards.a.tier }
    requires runs { AreTiles (place_of tiles.now.shards.a) 0 (G.rules.tier_size tiles.now.shards.a.tier) runs.now }
    ensures { IfOk result (λ level. level.place ≡ place_of tiles.now.shards.a) }
{
    Level::gather(alloc, tiles.shards.a.place(), runs, tables)
}

/// Returns the end of the phase, if nothing of the phase is left in the tier or its child tiers.
pub fn end_of_phase<G: Game>(
    tables: &Tables<G>,
    tiles: &Tiles<G>,
    level: &Level<G>,
) -> Option<Last<G>>
    requires held { AreHeld G.rules tables.now tiles.now.shards.a.tier }
    requires place { level.now.place ≡ place_of tiles.now.shards.a }
    ensures last { IfSome result (λ last. last ≡ place_of tiles.now.shards.a) }
    ensures near { IfNone result (tiles.now.shards.a.level ≤ REMOTENESS) }
{
    let last = level.last(tables);
    if last.is_none() {
        tiles.show_near(tables);
    }
    last
}

/// Returns the true table of a tier of its true records, and the number of all pairs whose child is no draw, when nothing is left to settle.
pub fn table_of<G: Game>(
    tier: u64,
    tables: &Tables<G>,
    last: &Last<G>,
    records: Packed,
    number: u64,
) -> (Table<G>, u64)
    requires held { AreHeld G.rules tables.now tier }
    requires small { G.rules.tier_size tier ≤ TIER_SIZE }
    requires tier_is { last.now.tier ≡ tier }
    requires ties { last.now.phase ≡ Ties }
    requires records { IsTrueTable G.rules REMOTENESS tier records }
    requires number { IsNumberBefore G.rules last.now.tier 0 (G.rules.tier_size last.now.tier) last.now.phase last.now.level number }
    ensures tier { result.0.tier ≡ tier }
    ensures table { IsTable G.rules result.0 }
    ensures deliveries { AreDeliveries G.rules tier result.1 }
    ensures near { IsTooFar G.rules tier → ⊥ }
{
    let _end = last.place();
    let _held = tables.has(tier);
    (Table::from_packed(tier, records), number)
}
