//! Orders of tiers, shards and levels.
ghost use Rattle.std.specs.Prelude.{◌≡◌, ◌≤◌, length};
ghost use Rattle.gm_game.specs.declared.position.Phase.TheVariants.{Ties};
ghost use Rattle.gm_frontier.specs.Levels.{AreTiles};
ghost use Rattle.gm_table.specs.Tables.{AreHeld};
ghost use Rattle.gm_counters.specs.inner.Begin.{AreStarts};
ghost use Rattle.gm_counters.specs.Steps.{place_of};
ghost use Rattle.gm_testing.specs.ByHand.{IsOfTier};

use crate::marks::marked;
use crate::said::{Counted, Done, Said, WORDS, number_of, say_all, say_twice};
use gm_frontier::last::Last;
use gm_frontier::level::Level;
use gm_frontier::run::Run;
use gm_frontier::tally::Tally;
use gm_game::game::Game;
use gm_game::limits::TIER_SIZE;
use gm_shard::shard::Shard;
use gm_shard::status::Start;
use gm_solver::starts::starts;
use gm_table::packed::Packed;
use gm_table::tables::Tables;
use gm_tactix::tactix::TacTix;
use gm_testing::by_hand::{at_ties, begin_whole, fresh_run, last_of};
use gm_testing::hosts::Host;
use gm_tiers::order::TierOrder;
use gm_toys::countdown::Countdown;

type Ten = Countdown<10>;

type Four = TacTix<2, false>;

/// A call that makes a shard of a tier, or a call on a shard or on its level.
#[derive(Clone, Copy)]
pub enum LevelCall {
    Begin,
    Fresh,
    Gather,
    Tally,
}

// The pairs that are delivered to a shard.
impl<G: Game> Counted for Shard<G> {
    fn count(&self) -> u64 {
        self.delivered()
    }
}

// The notes of a run.
impl<G: Game> Counted for Run<G> {
    fn count(&self) -> u64 {
        self.list().len() as u64
    }
}

// The notes of a level.
impl<G: Game> Counted for Level<'_, G> {
    fn count(&self) -> u64 {
        self.len() as u64
    }
}

// The pairs into the first tile.
impl<G: Game> Counted for Tally<G> {
    fn count(&self) -> u64 {
        self.count(0)
    }
}

// Makes a call on the shard of a whole tier, whose level has these runs. Prints the numbers that count its results (for a tally, by
// tiles of 6).
fn call_on_shard<G: Game, R: Host + Print>(
    rt: &R,
    call: LevelCall,
    starts: &[Start],
    shard: &Shard<G>,
    runs: &[Run<G>],
    tables: &Tables<G>,
) -> Done
    requires starts { AreStarts G.rules 0 0 starts.now }
    requires few { length starts.now ≤ TIER_SIZE }
    requires tiles { AreTiles (place_of shard.now) 0 (G.rules.tier_size shard.now.tier) runs.now }
    requires held { AreHeld G.rules tables.now shard.now.tier }
    requires small { G.rules.tier_size shard.now.tier ≤ TIER_SIZE }
{
    let (alloc, place) = (rt.alloc(), shard.place());
    let level = Level::gather(alloc, place, runs, tables).ok()?;
    let said = say_twice!(
        rt,
        match call {
            LevelCall::Begin => number_of(Shard::<G>::begin(alloc, 0, 0, starts)),
            LevelCall::Fresh => number_of(shard.fresh(alloc)),
            LevelCall::Gather => number_of(Level::gather(alloc, place, runs, tables)),
            LevelCall::Tally => number_of(level.tally(alloc, 0, 1, 6)),
        }
    );
    drop(level);
    said
}

/// Makes a call on the first tier of Countdown from 10: on its starts, its shard or its level.
pub fn call_on_ten<R: Host + Print>(rt: &R, call: LevelCall) -> Done {
    let tables: Tables<Ten> = Tables::new(rt.alloc());
    let starts = starts::<Ten>(rt.alloc(), 0, 0, Ten::tier_size(0)).ok()?;
    let shard = begin_whole::<Ten>(rt.alloc(), 0).ok()?;
    let runs = fresh_run(rt.alloc(), &shard).ok()?;
    let (list, first) = (starts.as_slice(), runs.as_slice());
    let said = call_on_shard(rt, call, list, &shard, first, &tables);
    drop((starts, shard, runs, tables));
    said
}

// Appends the records of a shard at the end of ties.
fn appended<G: Game>(shard: &Shard<G>, last: &Last<G>, records: &mut Packed) -> Said<'static>
    requires last { last.now ≡ place_of shard.now }
    requires ties { shard.now.phase ≡ Ties }
{
    match shard.finish(last, records) {
        Ok(()) => Said::Text("one record more"),
        Err(_) => Said::OutOfMemory,
    }
}

// Calls `Shard::finish` on the shard of a whole tier at its first level of ties, if that is its last one, and on records that
// already have one.
fn finish_shard<G: Game, R: Host + Print>(rt: &R, shard: &Shard<G>, tables: &Tables<G>) -> Done
    requires whole { IsOfTier G.rules shard.now }
    requires ties { shard.now.phase ≡ Ties }
    requires held { AreHeld G.rules tables.now shard.now.tier }
    requires small { G.rules.tier_size shard.now.tier ≤ TIER_SIZE }
{
    let last = last_of(rt.alloc(), shard, tables).ok()??;
    let mut records = Packed::with_capacity(rt.alloc(), 1).ok()?;
    records.push(None).ok()?;
    let before = Said::Number(records.len() as u64);
    let first = marked!(rt.alloc(), appended(shard, &last, &mut records));
    let after = Said::Number(records.len() as u64);
    let again = appended(shard, &last, &mut records);
    drop(records);
    say_all(rt, &WORDS, &[before, first, after, again])
}

/// Finishes Countdown from 0, a tier of one position, which has no wins and losses.
pub fn finish_zero<R: Host + Print>(rt: &R) -> Done {
    let tables: Tables<Countdown<0>> = Tables::new(rt.alloc());
    let shard = at_ties(rt.alloc(), 0, &tables).ok()??;
    let said = finish_shard(rt, &shard, &tables);
    drop((shard, tables));
    said
}

/// Puts the tiers of Tac Tix on 2 by 2 in order.
pub fn order<R: Host + Print>(rt: &R) -> Done {
    let alloc = rt.alloc();
    say_twice!(rt, number_of(TierOrder::from_initial::<Four>(alloc)))
}
