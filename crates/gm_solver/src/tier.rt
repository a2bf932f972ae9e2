//! A tier solved by workers.
ghost use Rattle.std.specs.Prelude.{◌≡◌, ◌≤◌, ℕ, IfOk, IfErr, OnOk};
ghost use Rattle.gm_table.specs.Tables.{AreHeld, IsTable};
ghost use Rattle.gm_table.specs.Solving.{IsTooFar, AreDeliveries};
ghost use Rattle.gm_backward.specs.Solving.{IsError};

use crate::passes::solve_by_passes;
use gm_backward::context::SolveContext;
use gm_backward::error::SolveError;
use gm_backward::gate::Gate;
use gm_backward::plan::Plan;
pub use gm_backward::report::Report;
use gm_backward::source::Source;
use gm_game::game::Game;
use gm_game::limits::TIER_SIZE;
use gm_immediate::observer::NoObserver;
use gm_table::table::Table;
use gm_table::tables::Tables;
use std::alloc::Global;
use std::sync::Wait;
use std::thread::Threads;

/// Solves a tier by workers. Returns its true table and a report. Neither the table nor the number of deliveries depends on the plan, the gate or the source,
/// or on the order in which threads take the locks.
///
/// The tier is split into the plan's shards. At each level workers ask the source for pieces of the level, and deliver their pairs under the shards' locks.
/// There are no more workers than pieces. The first runs in the calling thread, every other in a thread of its own; if a worker thread can't be started, the
/// others do its work. After they have ended, the coordinator delivers the pairs that are missing; `by_hand` counts these.
///
/// The tables of the child tiers are given, and the tier has at most `TIER_SIZE` indexes. Returns `TooFar` only if a canonical legal position of the tier has a
/// remoteness one above the limit; if there is such a position, the result is never `Ok`.
pub fn solve_tier<G: Game + Send + Sync, R: Threads + Wait + Sync, T: Gate, S: Source>(
    rt: &R,
    alloc: Global,
    tier: u64,
    tables: &Tables<G>,
    plan: Plan,
    gate: &T,
    source: &S,
) -> Result<(Table<G>, Report), SolveError>
    requires held { AreHeld G.rules tables.now tier }
    requires small { G.rules.tier_size tier ≤ TIER_SIZE }
    ensures tier { IfOk result (λ answer. answer.0.tier ≡ tier) }
    ensures table { IfOk result (λ answer. IsTable G.rules answer.0) }
    ensures deliveries { IfOk result (λ answer. AreDeliveries G.rules tier answer.1.deliveries) }
    ensures by_hand { IfOk result (λ answer. answer.1.by_hand ≤ answer.1.deliveries) }
    ensures near { OnOk result (IsTooFar G.rules tier → ⊥) }
    ensures error { IfErr result (IsError G.rules tier) }
{
    let context = SolveContext {
        rt,
        alloc,
        plan,
        gate,
        source,
        observer: &NoObserver,
    };
    context.solve(tier, tables)
}

/// Solves a tier as `solve_tier` does, but with one pass for each shard: at each level a worker takes the pass of a shard that the source names, and delivers
/// the level's pairs into that shard in their order, so that none is delivered twice. At each level the source hands out one of four passes, and a worker asks
/// it at most four times.
pub fn solve_passes<G: Game + Send + Sync, R: Threads + Wait + Sync, T: Gate, S: Source>(
    rt: &R,
    alloc: Global,
    tier: u64,
    tables: &Tables<G>,
    plan: Plan,
    gate: &T,
    source: &S,
) -> Result<(Table<G>, Report), SolveError>
    requires held { AreHeld G.rules tables.now tier }
    requires small { G.rules.tier_size tier ≤ TIER_SIZE }
    ensures tier { IfOk result (λ answer. answer.0.tier ≡ tier) }
    ensures table { IfOk result (λ answer. IsTable G.rules answer.0) }
    ensures deliveries { IfOk result (λ answer. AreDeliveries G.rules tier answer.1.deliveries) }
    ensures by_hand { IfOk result (λ answer. answer.1.by_hand ≤ answer.1.deliveries) }
    ensures near { OnOk result (IsTooFar G.rules tier → ⊥) }
    ensures error { IfErr result (IsError G.rules tier) }
{
    let context = SolveContext {
        rt,
        alloc,
        plan,
        gate,
        source,
        observer: &NoObserver,
    };
    solve_by_passes(&context, tier, tables)
}

/// Has no effect; its contract states that the number of deliveries of a tier depends on the game only: there is one such number.
pub fn deliveries_once<G: Game>(tier: u64)
    ensures { (m n : ℕ) → AreDeliveries G.rules tier m → AreDeliveries G.rules tier n → m ≡ n }
{}
