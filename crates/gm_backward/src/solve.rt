//! One tier, by the method that its plan chooses.
ghost use Rattle.std.specs.Prelude.{◌≡◌, ◌≤◌, IfOk, IfErr, OnOk};
ghost use Rattle.gm_table.specs.Tables.{AreHeld, IsTable};
ghost use Rattle.gm_table.specs.Solving.{IsTooFar, AreDeliveries};
ghost use Rattle.gm_backward.specs.Solving.{IsError};

use crate::context::SolveContext;
use crate::error::SolveError;
use crate::gate::Gate;
use crate::report::Report;
use crate::source::Source;
use gm_game::game::Game;
use gm_game::limits::TIER_SIZE;
use gm_immediate::observer::Observer;
use gm_immediate::settle::settle_tier;
use gm_immediate::stop::Stop;
use gm_table::table::Table;
use gm_table::tables::Tables;
use std::sync::Wait;
use std::thread::Threads;

/// Solves a tier by its plan. By `Plan::fastest` the tier is first tried in one pass (immediate transition), which solves it if no move stays in it. Otherwise
/// the tier is solved as by `solve_tier`, with one worker if the tier has few indexes.
///
/// Returns the tier's true table and the report of `solve_tier`; after one pass `by_hand` is 0. The conditions and the errors are those of `solve_tier`.
pub fn solve<G: Game + Send + Sync, R: Threads + Wait + Sync, T: Gate, S: Source, O: Observer>(
    context: &SolveContext<R, T, S, O>,
    tier: u64,
    tables: &Tables<G>,
) -> Result<(Table<G>, Report), SolveError>
    requires held { AreHeld G.rules tables.now tier }
    requires small { G.rules.tier_size tier ≤ TIER_SIZE }
    ensures tier { IfOk result (λ answer. answer.0.tier ≡ tier) }
    ensures table { IfOk result (λ answer. IsTable G.rules answer.0) }
    ensures deliveries { IfOk result (λ answer. AreDeliveries G.rules tier answer.1.deliveries) }
    ensures by_hand { IfOk result (λ answer. answer.1.by_hand ≤ answer.1.deliveries) }
    ensures near { OnOk result (IsTooFar G.rules tier → ⊥) }
    ensures error { IfErr result (IsError G.rules tier) }
{
    let (rt, observer) = (context.rt, context.observer);
    if context.plan.is_fastest() {
        observer.settle(rt, tier, G::tier_size(tier));
        match settle_tier(
            rt,
            context.alloc,
            tier,
            tables,
            context.plan.workers(),
            observer,
        ) {
            Ok((table, deliveries)) => return Ok((table, Report::of_one_pass(deliveries))),
            Err(Stop::Stays) => {}
            Err(Stop::OutOfMemory) => return Err(SolveError::OutOfMemory),
            Err(Stop::TooFar) => return Err(SolveError::TooFar { tier }),
        }
    }
    observer.solve(rt, tier);
    context.for_size(G::tier_size(tier)).solve(tier, tables)
}
