//! Deliveries of a level's pairs to one shard in the order of the pairs, so that no pair is delivered twice.
ghost use Rattle.std.specs.Prelude.{◌≡◌, ℕ, ◌+◌, ◌*◌, ◌<◌, ◌≤◌, ◌↔◌, List, [], Some, IsTrue, length, slice_get};
ghost use Rattle.gm_game.specs.declared.limits.TheConstants.{MOVES, TIER_SIZE};
ghost use Rattle.gm_frontier.specs.Notes.{NoteData};
ghost use Rattle.gm_frontier.specs.Levels.{IsLevel};
ghost use Rattle.gm_counters.specs.State.{pairs_in};
ghost use Rattle.gm_counters.specs.Steps.{IsWhole};
ghost use Rattle.gm_locks.specs.Spots.{spot_of, gain};
ghost use Rattle.gm_locks.specs.Rounds.{pairs_into, place_of_spot, IsRound, HasNoneHere, IsLevelAt, IsNextAnswer};
ghost use Rattle.gm_solver.specs.Desks.{IsForSpot, IsBegun, ClosesSurely, IsStep};

use crate::held::gained;
use gm_counters::ordered::OrderedShard;
use gm_counters::status::{Delivery, Refused};
use gm_frontier::expected::Expected;
use gm_frontier::level::Level;
use gm_frontier::note::Note;
use gm_game::game::Game;
use gm_locks::share::{LevelLedger, Share};
use std::marker::Model;
use std::sync::ledger::{Blank, Book};
use std::sync::{Mutex, Wait};

/// The whole share of a shard's ledger. Contracts see its amount: the number of pairs of the level that were delivered by it.
#[derive(Drop)]
pub struct Pass<L: LevelLedger> {
    share: Share<L>,
    before: u64,
}

impl<L: LevelLedger> Model for Pass<L> {
    ghost use Rattle.std.specs.Prelude.{◌≡◌, ℕ, ◌+◌, ◌*◌, ◌<◌, ◌≤◌};
    ghost use Rattle.gm_game.specs.declared.limits.TheConstants.{MOVES, TIER_SIZE};

    ghost Value = { ℕ };

    ghost view = { λ p. p.share.amount };

    ghost invariant = { λ p. (p.share.parts ≡ L.parts) × (0 < L.parts) × (p.before ≡ L.base) × (L.base + p.share.amount ≤ MOVES * TIER_SIZE) };
}

impl<L: LevelLedger> Pass<L> {
    /// Returns the number of pairs of the level that were delivered by this pass, which is also the number, from 0, of the next pair.
    pub fn amount(&self) -> u64
        ensures value { result ≡ self.now }
        ensures small { L.base + self.now ≤ MOVES * TIER_SIZE }
    {
        self.share.amount()
    }

    /// Returns whether the pairs that were delivered before this pass and by it are as many as the count: for the pass of a desk (`around`), whether it has
    /// delivered all pairs of the level into the range.
    pub fn full<G: Game>(&self, expected: &Expected<G>) -> bool
        requires { IsForSpot expected.now L.spot }
        ensures number { IsTrue result ↔ (L.base + self.now ≡ expected.now.number) }
        ensures all { IsBegun G.rules L.spot L.notes L.base → (IsTrue result ↔ (self.now ≡ length (pairs_into G.rules L.spot L.notes))) }
    {
        self.before + self.amount() == expected.number()
    }
}

/// The contents of the lock of a desk: a shard to which the first pairs of the level are delivered, as many as its book's total, and no later pair.
#[derive(Drop)]
struct HeldInOrder<G: Game, L: LevelLedger> {
    shard: OrderedShard<G>,
    book: Book<L>,
}

impl<G: Game, L: LevelLedger> Model for HeldInOrder<G, L> {
    ghost use Rattle.std.specs.Prelude.{◌≡◌};
    ghost use Rattle.gm_frontier.specs.Levels.{IsLevel};
    ghost use Rattle.gm_locks.specs.Spots.{spot_of};
    ghost use Rattle.gm_solver.specs.Boards.{HeldData};
    ghost use Rattle.gm_locks.specs.Rounds.{pairs_into, place_of_spot, IsRound};

    ghost Value = { HeldData };

    ghost view = { λ h. record { shard = h.shard; book = h.book.total } };

    ghost invariant = { λ h. (spot_of h.shard ≡ L.spot) × IsLevel G.rules (place_of_spot L.spot) L.notes
        × IsRound (pairs_into G.rules L.spot L.notes) L.base h.shard h.book.total };
}

impl<G: Game, L: LevelLedger> HeldInOrder<G, L> {
    // Delivers the pass's next pair.
    fn deliver_next(
        &mut self,
        note: &Note<G>,
        parent: u64,
        pass: &mut Pass<L>,
    ) -> Result<Delivery, Refused>
        requires { slice_get (pairs_into G.rules L.spot L.notes) pass.old ≡ Some (note.now, parent) }
        ensures pass { pass.new ≡ pass.old + gain result }
        ensures answer { IsNextAnswer L.spot result }
        ensures step { IsStep G.rules L.spot (pairs_into G.rules L.spot L.notes) L.base note.now parent result pass.old pass.new }
    {
        let HeldInOrder { shard, book } = self;
        let Pass { share, before: _ } = pass;
        share.audit(book);
        let _before = shard.range();
        let answer = shard.deliver_new(note, parent);
        let _few = shard.delivered();
        let _after = shard.range();
        share.raise(book, gained(&answer));
        answer
    }
}

/// One shard under a lock, to which the level's pairs are delivered in their order.
#[derive(Drop)]
pub struct PassDesk<G: Game, L: LevelLedger> {
    held: Mutex<HeldInOrder<G, L>>,
    range: (u64, u64),
    ghost range_is: { (range.0 ≡ L.spot.lo) × (range.1 ≡ L.spot.hi) },
}

impl<G: Game, L: LevelLedger> PassDesk<G, L> {
    /// Puts a shard at the level's place under its lock. The pass has all parts of the ledger, and no amount.
    pub fn around(
        blank: Blank,
        shard: OrderedShard<G>,
        level: &Level<G>,
    ) -> (PassDesk<G, L>, Pass<L>)
        requires name { blank.name ≡ L.name }
        requires parts { (blank.parts ≡ L.parts) × (0 < L.parts) }
        requires spot { spot_of shard ≡ L.spot }
        requires level { IsLevelAt level.now L.spot L.notes }
        requires base { pairs_in shard ≡ L.base }
        requires none { HasNoneHere G.rules shard }
        ensures pass { result.1 ≡ 0 }
        ensures begun { IsBegun G.rules L.spot L.notes L.base }
    {
        let before = shard.delivered();
        let range = shard.range();
        let _level = level.place();
        let (book, mark) = blank.open::<L>();
        let share = Share::whole(mark);
        let held = Mutex::new(HeldInOrder { shard, book });
        let desk = PassDesk { held, range };
        (desk, Pass { share, before })
    }

    /// Returns the index range of the shard: the first index, and the one past the last.
    pub fn range(&self) -> (u64, u64)
        ensures lo { result.0 ≡ L.spot.lo }
        ensures hi { result.1 ≡ L.spot.hi }
    {
        self.range
    }

    /// Returns the pass's next pair, as `deliver_next` takes it: the one with number `amount()`, from 0, of the level's pairs into the range; `None` if there
    /// are no more. It walks the pairs up to that one.
    pub fn next_pair(&self, level: &Level<G>, pass: &Pass<L>) -> Option<(Note<G>, u64)>
        requires { IsLevelAt level.now L.spot L.notes }
        ensures { slice_get (pairs_into G.rules L.spot L.notes) pass.now ≡ result }
    {
        let _place = level.place();
        let (lo, hi) = self.range();
        let mut pairs = level.pairs(0, level.len().max(1), lo, hi);
        pairs.nth(pass.amount() as usize)
    }

    /// Delivers the pass's next pair: the one with number `amount()`, from 0, of the level's pairs into the range. Either it is new and the amount rises by
    /// one, or it is too far, which happens only if the level is at the limit, and the amount stays. Either way it is one delivery to the shard.
    pub fn deliver_next<R: Wait>(
        &self,
        rt: &R,
        note: &Note<G>,
        parent: u64,
        pass: &mut Pass<L>,
    ) -> Result<Delivery, Refused>
        requires { slice_get (pairs_into G.rules L.spot L.notes) pass.old ≡ Some (note.now, parent) }
        ensures pass { pass.new ≡ pass.old + gain result }
        ensures answer { IsNextAnswer L.spot result }
        ensures step { IsStep G.rules L.spot (pairs_into G.rules L.spot L.notes) L.base note.now parent result pass.old pass.new }
    {
        self.held.lock(rt).deliver_next(note, parent, pass)
    }

    /// Returns the shard of a full pass: every pair of the level into its range is delivered, and there are as many of them as the pass's amount. So `close` by
    /// this count can't return `Short`.
    pub fn into_whole(self, pass: Pass<L>, expected: &Expected<G>) -> OrderedShard<G>
        requires is_for { IsForSpot expected.now L.spot }
        requires full { L.base + pass ≡ expected.now.number }
        ensures spot { spot_of result ≡ L.spot }
        ensures number { pairs_in result ≡ expected.now.number }
        ensures whole { IsWhole G.rules result }
        ensures closes { ClosesSurely G.rules expected.now result }
        ensures all { pass ≡ length (pairs_into G.rules L.spot L.notes) }
    {
        let Pass { mut share, .. } = pass;
        let HeldInOrder { shard, mut book } = self.held.into_inner();
        share.audit(&mut book);
        let _good = shard.range();
        let _exact = expected.number();
        shard
    }

    /// Returns the shard without the pass: it has the pairs of earlier levels and a first part of the pairs of the level, and no later one.
    pub fn into_shard(self) -> OrderedShard<G>
        ensures spot { spot_of result ≡ L.spot }
        ensures least { L.base ≤ pairs_in result }
        ensures round { (n : ℕ) × IsRound (pairs_into G.rules L.spot L.notes) L.base result n }
    {
        let HeldInOrder { shard, book: _ } = self.held.into_inner();
        shard
    }
}
