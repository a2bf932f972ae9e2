//! A desk with its pass in a slot, and the work at it.
ghost use Rattle.std.specs.Prelude.{◌≡◌, ◌<◌, ◌≤◌, length, IfOk, IfErr, IsTrue};
ghost use Rattle.gm_counters.specs.Steps.{IsWhole};
ghost use Rattle.gm_locks.specs.Spots.{spot_of};
ghost use Rattle.gm_locks.specs.Rounds.{pairs_into, IsLevelAt};
ghost use Rattle.gm_locks.specs.Pieces.{IsReadyFor};
ghost use Rattle.gm_backward.specs.Solving.{IsError};

use crate::pass::{Pass, PassDesk};
use gm_backward::error::SolveError;
use gm_backward::gate::Gate;
use gm_backward::in_order::deliver_rest;
use gm_counters::ordered::OrderedShard;
use gm_frontier::level::Level;
use gm_game::game::Game;
use gm_game::limits::REMOTENESS;
use gm_locks::share::LevelLedger;
use std::marker::{Model, PhantomData};
use std::sync::ledger::Blank;
use std::sync::{Mutex, Wait};

/// The number of a level's pairs into a desk's range, as a walk found it.
#[derive(Drop)]
pub(crate) struct PairCount<G: Game, L: LevelLedger> {
    number: u64,
    of: PhantomData<(G, L)>,
}

impl<G: Game, L: LevelLedger> Model for PairCount<G, L> {
    ghost use Rattle.std.specs.Prelude.{◌≡◌, ℕ, length};
    ghost use Rattle.gm_locks.specs.Rounds.{pairs_into};

    ghost Value = { ℕ };

    ghost view = { λ f. f.number };

    ghost invariant = { λ f. f.number ≡ length (pairs_into G.rules L.spot L.notes) };
}

impl<G: Game, L: LevelLedger> PairCount<G, L> {
    fn new(number: u64) -> PairCount<G, L>
        requires { number ≡ length (pairs_into G.rules L.spot L.notes) }
    {
        PairCount {
            number,
            of: PhantomData,
        }
    }

    fn number(&self) -> u64
        ensures { result ≡ length (pairs_into G.rules L.spot L.notes) }
    {
        self.number
    }
}

/// The pass of a desk, unless a worker has it, and the number that a walk found.
#[derive(Drop)]
struct PassSlot<G: Game, L: LevelLedger> {
    pass: Option<Pass<L>>,
    found: Option<PairCount<G, L>>,
}

/// A desk with its pass in a slot, the level whose pairs are delivered, and how many pairs the shard had before.
#[derive(Drop)]
pub(crate) struct Workplace<'a, G: Game, L: LevelLedger> {
    desk: PassDesk<G, L>,
    slot: Mutex<PassSlot<G, L>>,
    level: &'a Level<'a, G>,
    before: u64,
    ghost level_is: { IsLevelAt level.now L.spot L.notes },
    ghost before_is: { before ≡ L.base },
}

impl<'a, G: Game, L: LevelLedger> Workplace<'a, G, L> {
    /// Puts a shard under the lock of a desk, and its pass into the slot.
    pub(crate) fn around(
        blank: Blank,
        shard: OrderedShard<G>,
        level: &'a Level<'a, G>,
    ) -> Workplace<'a, G, L>
        requires name { blank.name ≡ L.name }
        requires parts { (blank.parts ≡ L.parts) × (0 < L.parts) }
        requires ready { IsReadyFor G.rules shard level.now L.spot L.notes L.base }
    {
        let before = shard.delivered();
        let (desk, pass) = PassDesk::around(blank, shard, level);
        let slot = PassSlot {
            pass: Some(pass),
            found: None,
        };
        Workplace {
            desk,
            slot: Mutex::new(slot),
            level,
            before,
        }
    }

    // Walks all of the level's pairs into the range and counts them. Those from the pass's next pair on are delivered; after a refused pair they are only
    // counted.
    fn walk<R: Wait, T: Gate>(&self, rt: &R, gate: &T, worker: usize, pass: &mut Pass<L>) -> u64
        ensures { result ≡ length (pairs_into G.rules L.spot L.notes) }
    {
        let place = self.level.place();
        let (lo, hi) = self.desk.range();
        let mut number = 0u64;
        for (note, parent) in self.level.pairs(0, self.level.len().max(1), lo, hi) {
            if number == pass.amount() {
                gate.before(rt, worker, place);
                let _answer = self.desk.deliver_next(rt, &note, parent, pass);
                gate.after(rt, worker, place);
            }
            number += 1;
        }
        number
    }

    /// Takes the pass from the slot if it is there, delivers it to its end, and puts it back with the number that the walk found.
    pub(crate) fn deliver_pass<R: Wait, T: Gate>(&self, rt: &R, gate: &T, worker: usize) {
        let taken = self.slot.lock(rt).pass.take();
        if let Some(mut pass) = taken {
            let number = self.walk(rt, gate, worker, &mut pass);
            let mut slot = self.slot.lock(rt);
            slot.pass = Some(pass);
            slot.found = Some(PairCount::new(number));
        }
    }

    /// Returns the shard after the workers have ended, with every pair of the level, and the number of pairs that the workers delivered. If these are fewer
    /// than a walk found, or no walk ended, the rest is delivered here.
    pub(crate) fn end(self) -> Result<(OrderedShard<G>, u64), SolveError>
        requires { L.spot.level ≤ REMOTENESS }
        ensures spot { IfOk result (λ done. spot_of done.0 ≡ L.spot) }
        ensures whole { IfOk result (λ done. IsWhole G.rules done.0) }
        ensures error { IfErr result (IsError G.rules L.spot.tier) }
    {
        let Workplace {
            desk,
            slot,
            level,
            before,
        } = self;
        let PassSlot { pass: _, found } = slot.into_inner();
        let _place = level.place();
        let mut shard = desk.into_shard();
        let by_workers = shard.delivered() - before;
        if !is_full(&found, by_workers) {
            deliver_rest(&mut shard, level, by_workers)?;
        }
        let _good = shard.range();
        Ok((shard, by_workers))
    }
}

// Returns whether a walk found as many pairs.
fn is_full<G: Game, L: LevelLedger>(found: &Option<PairCount<G, L>>, number: u64) -> bool
    ensures { IsTrue result → number ≡ length (pairs_into G.rules L.spot L.notes) }
{
    match found {
        Some(found) => found.number() == number,
        None => false,
    }
}
