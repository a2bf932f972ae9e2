//! A tier solved level by level, by workers.
ghost use Rattle.std.specs.Prelude.{◌≡◌, ◌≤◌, IfOk, IfErr, OnOk};
ghost use Rattle.gm_game.specs.declared.position.Phase.TheVariants.{WinLose};
ghost use Rattle.gm_table.specs.Solving.{AreDeliveries, IsTooFar};
ghost use Rattle.gm_table.specs.Tables.{AreHeld, IsTable};
ghost use Rattle.gm_frontier.specs.Levels.{place_at};
ghost use Rattle.gm_counters.specs.Steps.{place_of};
ghost use Rattle.gm_backward.specs.Solving.{IsError};
ghost use Rattle.gm_backward.specs.inner.Tiling.{IsLaterPlace};

use crate::context::SolveContext;
use crate::cuts::Cuts;
use crate::error::SolveError;
use crate::first_shards::{begin_four, begin_in_turn};
use crate::gate::Gate;
use crate::levels::{end_of_phase, fresh, next_level, table_of};
use crate::report::Report;
use crate::scan::starts_by_threads;
use crate::source::Source;
use crate::starts::starts;
use crate::tiles::Tiles;
use gm_frontier::last::Last;
use gm_game::game::Game;
use gm_game::limits::TIER_SIZE;
use gm_immediate::observer::Observer;
use gm_immediate::one_pass::FEW;
use gm_table::table::Table;
use gm_table::tables::Tables;
use std::alloc::Global;
use std::sync::Wait;
use std::thread::Threads;

impl<'a, R: Threads + Wait + Sync, T: Gate, S: Source, O: Observer> SolveContext<'a, R, T, S, O> {
    /// Returns a tier before its first level: for several workers and many indexes the start values are found by threads, and four threads make a shard each.
    pub fn begin<G: Game + Send + Sync>(&self, tier: u64) -> Result<Tiles<G>, SolveError>
        requires { G.rules.tier_size tier ≤ TIER_SIZE }
        ensures place { IfOk result (λ tiles. place_of tiles.shards.a ≡ place_at tier WinLose 0) }
        ensures error { IfErr result (IsError G.rules tier) }
    {
        let (rt, alloc) = (self.rt, self.alloc);
        if self.plan.workers() == 1 || G::tier_size(tier) <= FEW {
            let starts = starts::<G>(alloc, tier, 0, G::tier_size(tier))?;
            let cuts = Cuts::balanced::<G>(tier, starts.as_slice(), self.plan.shards());
            return begin_in_turn(alloc, tier, cuts, starts.as_slice());
        }
        let starts = starts_by_threads::<G, R>(rt, alloc, tier, self.plan.workers())?;
        let cuts = Cuts::balanced::<G>(tier, starts.as_slice(), self.plan.shards());
        begin_four::<G, R>(rt, alloc, tier, cuts, starts.as_slice())
    }

    // Takes a tier through the levels of the present phase, until nothing of the phase is left in the tier or its child tiers. Adds the number of the
    // workers' deliveries to the one that is given.
    fn finish_levels<G: Game + Send + Sync>(
        &self,
        tables: &Tables<G>,
        tiles: Tiles<G>,
        by_workers: &mut u64,
    ) -> Result<(Tiles<G>, Last<G>), SolveError>
        requires held { AreHeld G.rules tables.now tiles.shards.a.tier }
        ensures later { IfOk result (λ done. IsLaterPlace (place_of tiles.shards.a) (place_of done.0.shards.a)) }
        ensures last { IfOk result (λ done. done.1 ≡ place_of done.0.shards.a) }
        ensures error { IfErr result (IsError G.rules tiles.shards.a.tier) }
    {
        let mut tiles = tiles;
        loop {
            let runs = fresh(self.alloc, &tiles)?;
            let level = next_level(self.alloc, tables, &tiles, &runs)?;
            if let Some(last) = end_of_phase(tables, &tiles, &level) {
                return Ok((tiles, last));
            }
            tiles = tiles.run(self, &level, by_workers)?;
        }
    }

    /// Solves a tier level by level.
    pub fn solve<G: Game + Send + Sync>(
        &self,
        tier: u64,
        tables: &Tables<G>,
    ) -> Result<(Table<G>, Report), SolveError>
        requires held { AreHeld G.rules tables.now tier }
        requires small { G.rules.tier_size tier ≤ TIER_SIZE }
        ensures tier { IfOk result (λ answer. answer.0.tier ≡ tier) }
        ensures table { IfOk result (λ answer. IsTable G.rules answer.0) }
        ensures deliveries { IfOk result (λ answer. AreDeliveries G.rules tier answer.1.deliveries) }
        ensures by_hand { IfOk result (λ answer. answer.1.by_hand ≤ answer.1.deliveries) }
        ensures near { OnOk result (IsTooFar G.rules tier → ⊥) }
        ensures error { IfErr result (IsError G.rules tier) }
    {
        let tiles = self.begin::<G>(tier)?;
        let mut by_workers = 0;
        let (mut tiles, last) = self.finish_levels(tables, tiles, &mut by_workers)?;
        tiles.next_phase(&last);
        let (tiles, last) = self.finish_levels(tables, tiles, &mut by_workers)?;
        let number = tiles.number();
        let records = tiles.finish(self.rt, self.alloc, &last, self.plan.workers())?;
        let (table, deliveries) = table_of(tier, tables, &last, records, number);
        let report = Report {
            deliveries,
            by_hand: deliveries.saturating_sub(by_workers),
        };
        Ok((table, report))
    }
}
