//! The tiles of a tier, each with a shard.
ghost use Rattle.std.specs.Prelude.{◌≡◌, ◌+◌, ◌≤◌, IfOk, IfErr};
ghost use Rattle.gm_game.specs.declared.limits.TheConstants.{REMOTENESS};
ghost use Rattle.gm_game.specs.declared.position.Phase.TheVariants.{WinLose, Ties};
ghost use Rattle.gm_game.specs.Records.{IsTrueTable};
ghost use Rattle.gm_frontier.specs.Levels.{place_at};
ghost use Rattle.gm_counters.specs.Steps.{place_of, CanTurn};
ghost use Rattle.gm_table.specs.Tables.{AreHeld};
ghost use Rattle.gm_frontier.specs.Counts.{IsNumberBefore};
ghost use Rattle.gm_game.specs.Places.{IsLastLevel};
ghost use Rattle.gm_backward.specs.inner.Cuts.{AreCuts};
ghost use Rattle.gm_backward.specs.Solving.{IsError};
ghost use Rattle.gm_backward.specs.inner.Tiling.{AreShardsAt, HaveNoneHere, AreGood, AreWhole, IsShardFinished, AreRecordsOf, next_place};

use crate::context::SolveContext;
use crate::cuts::Cuts;
use crate::error::SolveError;
use crate::finish::{finish_two, joined};
use crate::gate::Gate;
use crate::in_order::deliver_level;
use crate::level_job::LevelJob;
use crate::level_run::run_pieces;
use crate::source::Source;
use gm_counters::ordered::OrderedShard;
use gm_frontier::last::Last;
use gm_frontier::level::Level;
use gm_game::game::Game;
use gm_game::limits::REMOTENESS;
use gm_immediate::observer::Observer;
use gm_immediate::one_pass::FEW;
use gm_locks::four::Four;
use gm_table::packed::Packed;
use gm_table::tables::Tables;
use std::alloc::{AllocError, Global};
use std::sync::Wait;
use std::thread::{Threads, join};

/// Four shards that tile a tier at one place.
pub struct Tiles<G: Game> {
    pub shards: Four<OrderedShard<G>>,
    pub cuts: Cuts,
    ghost cuts_are: { AreCuts G.rules shards.a.tier cuts },
    ghost shards_are: { AreShardsAt G.rules (place_of shards.a) cuts shards },
    ghost none_are: { HaveNoneHere G.rules shards },
    ghost near: { shards.a.level ≤ REMOTENESS + 1 },
}

// Dropped in one call, so that the prover tracks one value instead of every field.
impl<G: Game> Drop for Tiles<G> {
    fn drop(self) {
        let Tiles { shards: _, cuts: _ } = self;
    }
}

/// Closes a level in all four shards, which have all of its pairs.
pub fn close_all<G: Game>(
    level: &Level<G>,
    cuts: Cuts,
    shards: Four<OrderedShard<G>>,
) -> Four<OrderedShard<G>>
    requires here { AreShardsAt G.rules level.now.place cuts shards }
    requires whole { AreWhole G.rules shards }
    requires near { level.now.place.level ≤ REMOTENESS }
    ensures shards { AreShardsAt G.rules (next_place level.now.place) cuts result }
    ensures none { HaveNoneHere G.rules result }
{
    let mut shards = shards;
    let _a = shards.a.range();
    let _b = shards.b.range();
    let _c = shards.c.range();
    let _d = shards.d.range();
    shards.a.close();
    shards.b.close();
    shards.c.close();
    shards.d.close();
    shards
}

impl<G: Game> Tiles<G> {
    // Shows that the shards are good.
    fn show_good(&self)
        ensures { AreGood G.rules self.now.shards }
    {
        let _a = self.shards.a.range();
        let _b = self.shards.b.range();
        let _c = self.shards.c.range();
        let _d = self.shards.d.range();
    }

    /// Shows that nothing is left to settle in any shard.
    pub(crate) fn show_ended(&self, last: &Last<G>)
        requires last { last.now ≡ place_of self.now.shards.a }
        requires ties { self.now.shards.a.phase ≡ Ties }
        ensures a { IsShardFinished self.now.shards.a last.now }
        ensures b { IsShardFinished self.now.shards.b last.now }
        ensures c { IsShardFinished self.now.shards.c last.now }
        ensures d { IsShardFinished self.now.shards.d last.now }
    {}

    /// Shows that the present level is within the limit, if something of its phase is left: the shards are good and the tables are true.
    pub(crate) fn show_near(&self, tables: &Tables<G>)
        requires held { AreHeld G.rules tables.now self.now.shards.a.tier }
        requires left { IsLastLevel G.rules self.now.shards.a.tier self.now.shards.a.phase self.now.shards.a.level → ⊥ }
        ensures { self.now.shards.a.level ≤ REMOTENESS }
    {
        self.show_good();
        let _held = tables.has(self.shards.a.tier());
    }

    /// Turns from wins and losses to ties.
    pub fn next_phase(&mut self, last: &Last<G>)
        requires { CanTurn self.old.shards.a last.now }
        ensures { place_of self.new.shards.a ≡ place_at self.old.shards.a.tier Ties 0 }
    {
        self.show_good();
        self.shards.a.next_phase(last);
        self.shards.b.next_phase(last);
        self.shards.c.next_phase(last);
        self.shards.d.next_phase(last);
    }

    /// Returns the number of all pairs whose child is before the present place.
    pub fn number(&self) -> u64
        ensures { IsNumberBefore G.rules self.now.shards.a.tier 0 (G.rules.tier_size self.now.shards.a.tier)
            self.now.shards.a.phase self.now.shards.a.level result }
    {
        self.show_good();
        self.shards.a.delivered()
            + self.shards.b.delivered()
            + self.shards.c.delivered()
            + self.shards.d.delivered()
    }

    /// Takes the shards and the cuts out.
    pub fn into_parts(self) -> (Four<OrderedShard<G>>, Cuts)
        ensures shards { result.0 ≡ self.shards }
        ensures cuts { result.1 ≡ self.cuts }
    {
        let Tiles { shards, cuts } = self;
        (shards, cuts)
    }

    /// Delivers the pairs of a level in this thread, and closes it.
    pub(crate) fn run_in_order(self, level: &Level<G>) -> Result<Tiles<G>, SolveError>
        requires place { level.now.place ≡ place_of self.shards.a }
        requires near { self.shards.a.level ≤ REMOTENESS }
        ensures next { IfOk result (λ next. place_of next.shards.a ≡ next_place (place_of self.shards.a)) }
        ensures error { IfErr result (IsError G.rules self.shards.a.tier) }
    {
        let Tiles { shards, cuts } = self;
        let a = deliver_level(shards.a, level)?;
        let b = deliver_level(shards.b, level)?;
        let c = deliver_level(shards.c, level)?;
        let d = deliver_level(shards.d, level)?;
        let shards = close_all(level, cuts, Four { a, b, c, d });
        Ok(Tiles { shards, cuts })
    }
}

impl<G: Game + Send + Sync> Tiles<G> {
    /// Lets workers deliver the pairs of a level, and the coordinator the rest, and closes it. Adds the number of the workers' deliveries to the one that is
    /// given.
    pub(crate) fn run<R: Threads + Wait + Sync, T: Gate, S: Source, O: Observer>(
        self,
        context: &SolveContext<R, T, S, O>,
        level: &Level<G>,
        by_workers: &mut u64,
    ) -> Result<Tiles<G>, SolveError>
        requires place { level.now.place ≡ place_of self.shards.a }
        requires near { self.shards.a.level ≤ REMOTENESS }
        ensures next { IfOk result (λ next. place_of next.shards.a ≡ next_place (place_of self.shards.a)) }
        ensures error { IfErr result (IsError G.rules self.shards.a.tier) }
    {
        context.observer.level(context.rt, self.shards.a.place());
        let before = self.number();
        let Tiles { shards, cuts } = self;
        let job = LevelJob {
            level,
            notes: context.plan.piece(),
            cuts,
        };
        let tiles = run_pieces(context, &job, shards, by_workers)?;
        let pairs = tiles.number().saturating_sub(before);
        context.observer.delivered(context.rt, pairs);
        Ok(tiles)
    }

    /// Returns the true records of the tier when nothing is left to settle: for several workers and many indexes four threads make those of a tile each.
    pub fn finish<R: Threads + Sync>(
        self,
        rt: &R,
        alloc: Global,
        last: &Last<G>,
        workers: usize,
    ) -> Result<Packed, AllocError>
        requires last { last.now ≡ place_of self.shards.a }
        requires ties { self.shards.a.phase ≡ Ties }
        ensures { IfOk result (IsTrueTable G.rules REMOTENESS self.shards.a.tier) }
    {
        let size = G::tier_size(self.shards.a.tier());
        if workers == 1 || size <= FEW {
            return records_of(alloc, &self, last);
        }
        self.show_ended(last);
        let Tiles { shards, cuts: _ } = self;
        let Four { a, b, c, d } = shards;
        let (low, high) = join(
            rt,
            move || -> Result<Packed, AllocError>
                requires { IsShardFinished a last.now × IsShardFinished b last.now }
                ensures { IfOk result (AreRecordsOf G.rules a b) }
            { finish_two(rt, alloc, size, a, b, last) },
            move || -> Result<Packed, AllocError>
                requires { IsShardFinished c last.now × IsShardFinished d last.now }
                ensures { IfOk result (AreRecordsOf G.rules c d) }
            { finish_two(rt, alloc, size, c, d, last) },
        );
        joined(low, high)
    }
}

/// Returns the true records of a tier when nothing is left to settle.
pub(crate) fn records_of<G: Game>(
    alloc: Global,
    tiles: &Tiles<G>,
    last: &Last<G>,
) -> Result<Packed, AllocError>
    requires last { last.now ≡ place_of tiles.now.shards.a }
    requires ties { tiles.now.shards.a.phase ≡ Ties }
    ensures { IfOk result (IsTrueTable G.rules REMOTENESS tiles.now.shards.a.tier) }
{
    tiles.show_ended(last);
    let size = G::tier_size(tiles.shards.a.tier());
    let mut records = Packed::with_capacity(alloc, size as usize)?;
    tiles.shards.a.finish(last, &mut records)?;
    tiles.shards.b.finish(last, &mut records)?;
    tiles.shards.c.finish(last, &mut records)?;
    tiles.shards.d.finish(last, &mut records)?;
    Ok(records)
}
