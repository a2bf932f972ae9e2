//! Tiers solved in each way, and tiers that are solved one after another.
ghost use Rattle.std.specs.Prelude.{◌≡◌, ◌≤◌, IfOk, OnOk};
ghost use Rattle.gm_table.specs.Tables.{TableData, AreHeld, IsTable, Inserts};
ghost use Rattle.gm_table.specs.Solving.{AreDeliveries};

use crate::hosts::{Crew, Shared};
use gm_game::game::Game;
use gm_game::limits::TIER_SIZE;
use gm_solver::alone::solve_alone;
use gm_solver::error::SolveError;
use gm_solver::gate::Gate;
use gm_solver::plan::Plan;
use gm_solver::source::Source;
use gm_solver::tier::{Report, solve_passes, solve_tier};
use gm_table::table::Table;
use gm_table::tables::Tables;
use std::alloc::Global;

/// A way to solve a tier: by one thread without locks, or by workers that take pieces of a level or one pass for each shard.
#[derive(Clone, Copy)]
pub enum Way {
    Alone,
    Pieces,
    Passes,
}

/// Solves a tier in a way. One thread needs no plan, gate and source.
pub fn solve_by<G: Shared, R: Crew, T: Gate, S: Source>(
    rt: &R,
    tier: u64,
    tables: &Tables<G>,
    way: Way,
    plan: Plan,
    gate: &T,
    source: &S,
) -> Result<(Table<G>, Report), SolveError>
    requires held { AreHeld G.rules tables.now tier }
    requires small { G.rules.tier_size tier ≤ TIER_SIZE }
{
    let alloc = rt.alloc();
    match way {
        Way::Alone => {
            let (table, deliveries) = solve_alone(alloc, tier, tables)?;
            let report = Report {
                deliveries,
                by_hand: 0,
            };
            Ok((table, report))
        }
        Way::Pieces => solve_tier(rt, alloc, tier, tables, plan, gate, source),
        Way::Passes => solve_passes(rt, alloc, tier, tables, plan, gate, source),
    }
}

/// Solves a tier whose child tiers are held, inserts its table, and returns the number of deliveries.
pub fn hold_solved<G: Game>(
    alloc: Global,
    tables: &mut Tables<G>,
    tier: u64,
) -> Result<u64, SolveError>
    requires held { AreHeld G.rules tables.old tier }
    requires small { G.rules.tier_size tier ≤ TIER_SIZE }
    ensures inserts { OnOk result ((table : TableData) × (table.tier ≡ tier) × IsTable G.rules table × Inserts tables.old tables.new table) }
    ensures deliveries { IfOk result (AreDeliveries G.rules tier) }
{
    let (table, deliveries) = solve_alone(alloc, tier, tables)?;
    match tables.insert(table) {
        Ok(()) => Ok(deliveries),
        Err(failed) => {
            drop(failed);
            Err(SolveError::OutOfMemory)
        }
    }
}

/// Solves these tiers, child tiers first, and inserts their tables. Returns whether that succeeded.
pub fn hold_all<G: Game>(alloc: Global, tables: &mut Tables<G>, tiers: &[u64]) -> bool {
    for tier in tiers {
        let is_held = tables.has_children(*tier)
            && G::tier_size(*tier) <= TIER_SIZE
            && hold_solved(alloc, tables, *tier).is_ok();
        if !is_held {
            return false;
        }
    }
    true
}
