//! A tier in which no move stays, settled in one pass.
ghost use Rattle.std.specs.Prelude.{◌≡◌, ◌≤◌, IfOk, IfErr, OnOk};
ghost use Rattle.gm_game.specs.declared.limits.TheConstants.{TIER_SIZE};
ghost use Rattle.gm_table.specs.Tables.{AreHeld, IsTable};
ghost use Rattle.gm_table.specs.Solving.{IsTooFar, AreDeliveries};
ghost use Rattle.gm_immediate.specs.OnePass.{IsStaying, IsStop};

use crate::observer::Observer;
use crate::one_pass::OnePass;
use crate::stop::Stop;
use gm_game::game::Game;
use gm_game::limits::TIER_SIZE;
use gm_table::table::Table;
use gm_table::tables::Tables;
use std::alloc::Global;
use std::thread::Threads;

/// Solves a tier in which no move stays, in one pass over its indexes (immediate transition): the value of each position follows from the tables of the child
/// tiers. Returns the tier's true table and the number of deliveries that a solver by levels makes, which is the number of pairs of a canonical child that is no draw and a
/// canonical legal position of the tier at which the game goes on.
///
/// The tables of the child tiers are given, and the tier has at most `TIER_SIZE` indexes. With at most one worker no thread is started; with several, at most
/// as many threads as workers or processors. Returns `Stays` only if a move from a canonical legal position of the tier leads to the tier itself, and `TooFar`
/// only if a canonical legal position has a remoteness one above the limit; if there is such a position, the result is never `Ok`. Each index is reported to
/// the observer once, block by block.
pub fn settle_tier<G: Game + Send + Sync, R: Threads + Sync, O: Observer>(
    rt: &R,
    alloc: Global,
    tier: u64,
    tables: &Tables<G>,
    workers: usize,
    observer: &O,
) -> Result<(Table<G>, u64), Stop>
    requires held { AreHeld G.rules tables.now tier }
    requires small { G.rules.tier_size tier ≤ TIER_SIZE }
    ensures tier { IfOk result (λ answer. answer.0.tier ≡ tier) }
    ensures table { IfOk result (λ answer. IsTable G.rules answer.0) }
    ensures deliveries { IfOk result (λ answer. AreDeliveries G.rules tier answer.1) }
    ensures near { OnOk result (IsTooFar G.rules tier → ⊥) }
    ensures stop { IfErr result (IsStop G.rules tier) }
{
    let pass = OnePass::<G, O>::of(tables, observer, tier);
    pass.try_first(alloc)?;
    let found = pass.settle_all(rt, alloc, workers)?;
    let (records, number) = pass.join(alloc, found.as_slice())?;
    Ok((Table::from_packed(tier, records), number))
}
