//! A tier solved level by level by passes: each shard has one pass at each level, which delivers the level's pairs to it in their order.
ghost use Rattle.std.specs.Prelude.{◌≡◌, ◌<◌, ◌≤◌, IfOk, IfErr, OnOk};
ghost use Rattle.gm_locks.specs.Pieces.{IsReadyFor};
ghost use Rattle.gm_table.specs.Solving.{AreDeliveries, IsTooFar};
ghost use Rattle.gm_table.specs.Tables.{AreHeld, IsTable};
ghost use Rattle.gm_counters.specs.Steps.{place_of};
ghost use Rattle.gm_backward.specs.Solving.{IsError};
ghost use Rattle.gm_backward.specs.inner.Tiling.{AreShardsAt, AreWhole, HaveNoneHere, IsLaterPlace, next_place};

use crate::workplace::Workplace;
use gm_backward::context::SolveContext;
use gm_backward::error::SolveError;
use gm_backward::gate::Gate;
use gm_backward::level_job::LevelJob;
use gm_backward::levels::{end_of_phase, fresh, next_level, table_of};
use gm_backward::report::Report;
use gm_backward::source::Source;
use gm_backward::tiles::{Tiles, close_all};
use gm_counters::ordered::OrderedShard;
use gm_frontier::last::Last;
use gm_frontier::level::Level;
use gm_game::game::Game;
use gm_game::limits::{REMOTENESS, TIER_SIZE};
use gm_immediate::observer::Observer;
use gm_locks::four::Four;
use gm_locks::share::LevelLedger;
use gm_table::table::Table;
use gm_table::tables::Tables;
use std::marker::Brand;
use std::sync::Wait;
use std::sync::ledger::Blank;
use std::thread;
use std::thread::Threads;

// The workplaces of the four shards, and what their workers call.
#[derive(Drop)]
struct Workplaces<
    'a,
    G: Game,
    A: LevelLedger,
    B: LevelLedger,
    C: LevelLedger,
    D: LevelLedger,
    T: Gate,
    S: Source,
> {
    a: Workplace<'a, G, A>,
    b: Workplace<'a, G, B>,
    c: Workplace<'a, G, C>,
    d: Workplace<'a, G, D>,
    gate: &'a T,
    source: &'a S,
}

impl<
    'a,
    G: Game,
    A: LevelLedger,
    B: LevelLedger,
    C: LevelLedger,
    D: LevelLedger,
    T: Gate,
    S: Source,
> Workplaces<'a, G, A, B, C, D, T, S> {
    // Serves the shards that the source names. It asks at most four times.
    fn work<R: Wait>(&self, rt: &R, worker: usize) {
        for _ in 0..4 {
            let Some(shard) = self.source.next(rt, worker) else {
                return;
            };
            match shard {
                0 => self.a.deliver_pass(rt, self.gate, worker),
                1 => self.b.deliver_pass(rt, self.gate, worker),
                2 => self.c.deliver_pass(rt, self.gate, worker),
                3 => self.d.deliver_pass(rt, self.gate, worker),
                _ => {}
            }
        }
    }
}

// Runs workers, the first in this thread and every other in a thread of its own, and waits for all. If a worker thread can't be started, the
// others do its work.
fn run_workers<
    'a,
    G: Game + Send + Sync,
    A: LevelLedger + Send,
    B: LevelLedger + Send,
    C: LevelLedger + Send,
    D: LevelLedger + Send,
    R: Threads + Wait + Sync,
    T: Gate,
    S: Source,
>(rt: &R, workplaces: &Workplaces<'a, G, A, B, C, D, T, S>, workers: usize) {
    thread::scope(thread::scope_env(), rt, |scope| {
        for worker in 1..workers {
            let _started = scope.spawn(move || workplaces.work(rt, worker));
        }
        workplaces.work(rt, 0);
    });
}

// The shards at the end of a level, after the workers and the coordinator, and the number of pairs that the workers delivered.
type LevelEnd<G> = Result<(Four<OrderedShard<G>>, u64), SolveError>;

// Runs a level at desks with these ledgers' names.
fn run_at_desks<
    G: Game + Send + Sync,
    A: LevelLedger + Send,
    B: LevelLedger + Send,
    C: LevelLedger + Send,
    D: LevelLedger + Send,
    R: Threads + Wait + Sync,
    T: Gate,
    S: Source,
    O: Observer,
>(
    context: &SolveContext<R, T, S, O>,
    job: &LevelJob<G>,
    blanks: Four<Blank>,
    shards: Four<OrderedShard<G>>,
) -> LevelEnd<G>
    requires names { (blanks.a.name ≡ A.name) × (blanks.b.name ≡ B.name) × (blanks.c.name ≡ C.name) × (blanks.d.name ≡ D.name) }
    requires parts { (blanks.a.parts ≡ A.parts) × (blanks.b.parts ≡ B.parts) × (blanks.c.parts ≡ C.parts) × (blanks.d.parts ≡ D.parts) }
    requires some { (0 < A.parts) × (0 < B.parts) × (0 < C.parts) × (0 < D.parts) }
    requires a { IsReadyFor G.rules shards.a job.now.level.now A.spot A.notes A.base }
    requires b { IsReadyFor G.rules shards.b job.now.level.now B.spot B.notes B.base }
    requires c { IsReadyFor G.rules shards.c job.now.level.now C.spot C.notes C.base }
    requires d { IsReadyFor G.rules shards.d job.now.level.now D.spot D.notes D.base }
    requires here { AreShardsAt G.rules job.now.level.now.place job.now.cuts shards }
    requires near { job.now.level.now.place.level ≤ REMOTENESS }
    ensures here { IfOk result (λ done. AreShardsAt G.rules job.now.level.now.place job.now.cuts done.0) }
    ensures whole { IfOk result (λ done. AreWhole G.rules done.0) }
    ensures error { IfErr result (IsError G.rules job.now.level.now.place.tier) }
{
    let level = job.level;
    let workplaces = Workplaces::<G, A, B, C, D, T, S> {
        a: Workplace::around(blanks.a, shards.a, level),
        b: Workplace::around(blanks.b, shards.b, level),
        c: Workplace::around(blanks.c, shards.c, level),
        d: Workplace::around(blanks.d, shards.d, level),
        gate: context.gate,
        source: context.source,
    };
    let workers = context.plan.workers().min(4);
    // Starting a thread for an empty level, or for one of a single piece, would cost more than it saves.
    if level.pieces(job.notes) <= 1 {
        for worker in 0..workers {
            workplaces.work(context.rt, worker);
        }
    } else {
        run_workers(context.rt, &workplaces, workers);
    }
    let Workplaces { a, b, c, d, .. } = workplaces;
    let (a, in_a) = a.end()?;
    let (b, in_b) = b.end()?;
    let (c, in_c) = c.end()?;
    let (d, in_d) = d.end()?;
    let by_workers = in_a
        .saturating_add(in_b)
        .saturating_add(in_c)
        .saturating_add(in_d);
    Ok((Four { a, b, c, d }, by_workers))
}

// Runs a level, with one pass for each shard: workers deliver its pairs, and the coordinator the rest.
fn run_passes<G: Game + Send + Sync, R: Threads + Wait + Sync, T: Gate, S: Source, O: Observer>(
    context: &SolveContext<R, T, S, O>,
    job: &LevelJob<G>,
    shards: Four<OrderedShard<G>>,
) -> LevelEnd<G>
    requires here { AreShardsAt G.rules job.now.level.now.place job.now.cuts shards }
    requires none { HaveNoneHere G.rules shards }
    requires near { job.now.level.now.place.level ≤ REMOTENESS }
    ensures here { IfOk result (λ done. AreShardsAt G.rules job.now.level.now.place job.now.cuts done.0) }
    ensures whole { IfOk result (λ done. AreWhole G.rules done.0) }
    ensures error { IfErr result (IsError G.rules job.now.level.now.place.tier) }
{
    context.source.begin(context.rt, 4);
    let blanks = Four {
        a: Blank::new(1),
        b: Blank::new(1),
        c: Blank::new(1),
        d: Blank::new(1),
    };
    run_at_desks::<G, Brand, Brand, Brand, Brand, R, T, S, O>(context, job, blanks, shards)
}

// Delivers the pairs of a level by passes, and closes it. Returns the number of the workers' deliveries too.
fn run_level<G: Game + Send + Sync, R: Threads + Wait + Sync, T: Gate, S: Source, O: Observer>(
    context: &SolveContext<R, T, S, O>,
    tiles: Tiles<G>,
    level: &Level<G>,
) -> Result<(Tiles<G>, u64), SolveError>
    requires place { level.now.place ≡ place_of tiles.shards.a }
    requires near { tiles.shards.a.level ≤ REMOTENESS }
    ensures next { IfOk result (λ next. place_of next.0.shards.a ≡ next_place (place_of tiles.shards.a)) }
    ensures error { IfErr result (IsError G.rules tiles.shards.a.tier) }
{
    let (shards, cuts) = tiles.into_parts();
    let job = LevelJob {
        level,
        notes: context.plan.piece(),
        cuts,
    };
    let (shards, by_workers) = run_passes(context, &job, shards)?;
    let shards = close_all(level, cuts, shards);
    Ok((Tiles { shards, cuts }, by_workers))
}

// Takes a tier through the levels of the present phase, until nothing of the phase is left in the tier or its child tiers. Returns the number of the workers'
// deliveries too.
fn finish_levels<G: Game + Send + Sync, R: Threads + Wait + Sync, T: Gate, S: Source, O: Observer>(
    context: &SolveContext<R, T, S, O>,
    tables: &Tables<G>,
    tiles: Tiles<G>,
) -> Result<(Tiles<G>, Last<G>, u64), SolveError>
    requires held { AreHeld G.rules tables.now tiles.shards.a.tier }
    ensures later { IfOk result (λ done. IsLaterPlace (place_of tiles.shards.a) (place_of done.0.shards.a)) }
    ensures last { IfOk result (λ done. done.1 ≡ place_of done.0.shards.a) }
    ensures error { IfErr result (IsError G.rules tiles.shards.a.tier) }
{
    let mut tiles = tiles;
    let mut by_workers = 0u64;
    loop {
        let runs = fresh(context.alloc, &tiles)?;
        let level = next_level(context.alloc, tables, &tiles, &runs)?;
        if let Some(last) = end_of_phase(tables, &tiles, &level) {
            return Ok((tiles, last, by_workers));
        }
        let (next, more) = run_level(context, tiles, &level)?;
        by_workers = by_workers.saturating_add(more);
        tiles = next;
    }
}

/// Solves a tier level by level, by passes.
pub(crate) fn solve_by_passes<
    G: Game + Send + Sync,
    R: Threads + Wait + Sync,
    T: Gate,
    S: Source,
    O: Observer,
>(
    context: &SolveContext<R, T, S, O>,
    tier: u64,
    tables: &Tables<G>,
) -> Result<(Table<G>, Report), SolveError>
    requires held { AreHeld G.rules tables.now tier }
    requires small { G.rules.tier_size tier ≤ TIER_SIZE }
    ensures tier { IfOk result (λ answer. answer.0.tier ≡ tier) }
    ensures table { IfOk result (λ answer. IsTable G.rules answer.0) }
    ensures deliveries { IfOk result (λ answer. AreDeliveries G.rules tier answer.1.deliveries) }
    ensures by_hand { IfOk result (λ answer. answer.1.by_hand ≤ answer.1.deliveries) }
    ensures near { OnOk result (IsTooFar G.rules tier → ⊥) }
    ensures error { IfErr result (IsError G.rules tier) }
{
    let tiles = context.begin::<G>(tier)?;
    let (mut tiles, last, wins) = finish_levels(context, tables, tiles)?;
    tiles.next_phase(&last);
    let (tiles, last, ties) = finish_levels(context, tables, tiles)?;
    let number = tiles.number();
    let records = tiles.finish(context.rt, context.alloc, &last, context.plan.workers())?;
    let (table, deliveries) = table_of(tier, tables, &last, records, number);
    let report = Report {
        deliveries,
        by_hand: deliveries.saturating_sub(wins.saturating_add(ties)),
    };
    Ok((table, report))
}
