//! A tier solved without threads.
ghost use Rattle.std.specs.Prelude.{◌≡◌, ◌≤◌, IfOk, IfErr, OnOk};
ghost use Rattle.gm_game.specs.declared.position.Phase.TheVariants.{WinLose};
ghost use Rattle.gm_table.specs.Tables.{AreHeld, IsTable};
ghost use Rattle.gm_table.specs.Solving.{IsTooFar, AreDeliveries};
ghost use Rattle.gm_frontier.specs.Levels.{place_at};
ghost use Rattle.gm_counters.specs.Steps.{place_of};
ghost use Rattle.gm_backward.specs.Solving.{IsError};
ghost use Rattle.gm_backward.specs.inner.Tiling.{IsLaterPlace};

use crate::cuts::Cuts;
use crate::error::SolveError;
use crate::first_shards::begin_in_turn;
use crate::levels::{end_of_phase, fresh, next_level, table_of};
use crate::starts::starts;
use crate::tiles::{Tiles, records_of};
use gm_frontier::last::Last;
use gm_game::game::Game;
use gm_game::limits::TIER_SIZE;
use gm_table::table::Table;
use gm_table::tables::Tables;
use std::alloc::Global;

// Returns a tier of one shard before its first level.
fn begin<G: Game>(alloc: Global, tier: u64) -> Result<Tiles<G>, SolveError>
    requires { G.rules.tier_size tier ≤ TIER_SIZE }
    ensures place { IfOk result (λ tiles. place_of tiles.shards.a ≡ place_at tier WinLose 0) }
    ensures error { IfErr result (IsError G.rules tier) }
{
    let starts = starts::<G>(alloc, tier, 0, G::tier_size(tier))?;
    begin_in_turn(alloc, tier, Cuts::of_one::<G>(tier), starts.as_slice())
}

// Takes a tier through the levels of the present phase, until nothing of the phase is left in the tier or its child tiers.
fn finish_levels<G: Game>(
    alloc: Global,
    tables: &Tables<G>,
    tiles: Tiles<G>,
) -> Result<(Tiles<G>, Last<G>), SolveError>
    requires { AreHeld G.rules tables.now tiles.shards.a.tier }
    ensures later { IfOk result (λ done. IsLaterPlace (place_of tiles.shards.a) (place_of done.0.shards.a)) }
    ensures last { IfOk result (λ done. done.1 ≡ place_of done.0.shards.a) }
    ensures error { IfErr result (IsError G.rules tiles.shards.a.tier) }
{
    let mut tiles = tiles;
    loop {
        let runs = fresh(alloc, &tiles)?;
        let level = next_level(alloc, tables, &tiles, &runs)?;
        if let Some(last) = end_of_phase(tables, &tiles, &level) {
            return Ok((tiles, last));
        }
        tiles = tiles.run_in_order(&level)?;
    }
}

/// Solves a tier by one shard for all of its indexes, without threads. Returns its true table and the number of deliveries: the number of pairs of a
/// canonical child that is no draw and a canonical legal position of the tier at which the game goes on.
///
/// The tables of the child tiers are given, and the tier has at most `TIER_SIZE` indexes. Returns `TooFar` only if a canonical legal position of the tier has a
/// remoteness one above the limit; if there is such a position, the result is never `Ok`.
pub fn solve_alone<G: Game>(
    alloc: Global,
    tier: u64,
    tables: &Tables<G>,
) -> Result<(Table<G>, u64), SolveError>
    requires held { AreHeld G.rules tables.now tier }
    requires small { G.rules.tier_size tier ≤ TIER_SIZE }
    ensures tier { IfOk result (λ answer. answer.0.tier ≡ tier) }
    ensures table { IfOk result (λ answer. IsTable G.rules answer.0) }
    ensures deliveries { IfOk result (λ answer. AreDeliveries G.rules tier answer.1) }
    ensures near { OnOk result (IsTooFar G.rules tier → ⊥) }
    ensures error { IfErr result (IsError G.rules tier) }
{
    let tiles = begin(alloc, tier)?;
    let (mut tiles, last) = finish_levels(alloc, tables, tiles)?;
    tiles.next_phase(&last);
    let (tiles, last) = finish_levels(alloc, tables, tiles)?;
    let number = tiles.number();
    let records = records_of(alloc, &tiles, &last)?;
    drop(tiles);
    Ok(table_of(tier, tables, &last, records, number))
}
