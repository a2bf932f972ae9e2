//! Deliveries of a level's pieces to one shard, each piece once: under the shard's lock a bit for each piece shows whether its pairs are delivered.
ghost use Rattle.std.specs.Prelude.{◌≡◌, ℕ, ◌+◌, ◌-◌, ◌<◌, ◌≤◌, true, false, take, drop, length, slice_index, slice_index_or, IfOk, OnOk, OnErr};
ghost use Rattle.std.specs.Int.{div_ceil};
ghost use Rattle.gm_counters.specs.Good.{IsGood};
ghost use Rattle.gm_frontier.specs.Levels.{IsLevel};
ghost use Rattle.gm_counters.specs.State.{pairs_in};
ghost use Rattle.gm_counters.specs.Steps.{IsWhole};
ghost use Rattle.gm_locks.specs.Spots.{spot_of, IsWithin};
ghost use Rattle.gm_locks.specs.Rounds.{place_of_spot, AreFirst};
ghost use Rattle.gm_locks.specs.Pieces.{piece_pairs, AreNew, IsRefusedAt, IsTurnAt, IsReadyFor, IsShownAt};

use crate::share::{LevelLedger, Share};
use gm_counters::ordered::OrderedShard;
use gm_counters::status::{Refused, Status};
use gm_frontier::level::Level;
use gm_frontier::pair_list::PairList;
use gm_game::game::Game;
use std::alloc::{AllocError, Global};
use std::marker::{Brand, Model};
use std::sync::ledger::{Blank, Book};

/// The name of a shard's ledger for one level that is delivered in pieces. It also fixes the number of notes in a piece.
pub trait PieceLedger: LevelLedger {
    /// The number of notes in a piece.
    ghost size: { ℕ };
}

impl PieceLedger for Brand {
    ghost size = { 1 };
}

// Delivers the pairs `from..to` of a piece, until one is too far. Returns the number of the first that is not delivered.
fn deliver_from<G: Game, L: PieceLedger>(
    shard: &mut OrderedShard<G>,
    piece: usize,
    pairs: &PairList<G>,
    from: usize,
    to: usize,
) -> usize
    requires pairs { pairs.now ≡ piece_pairs G.rules L.spot L.notes L.size piece }
    requires level { IsLevel G.rules (place_of_spot L.spot) L.notes }
    requires spot { spot_of shard.old ≡ L.spot }
    requires first { AreFirst (piece_pairs G.rules L.spot L.notes L.size piece) shard.old from }
    requires order { from ≤ to }
    requires within { to ≤ length pairs.now }
    ensures order { from ≤ result }
    ensures most { result ≤ to }
    ensures first { AreFirst (piece_pairs G.rules L.spot L.notes L.size piece) shard.new result }
    ensures run { AreNew G.rules (take (result - from) (drop from (piece_pairs G.rules L.spot L.notes L.size piece))) shard.old shard.new }
    ensures far { result < to → IsRefusedAt G.rules L.spot }
{
    for k in from..to {
        let (note, parent) = pairs.at(k);
        if shard.deliver_new(&note, parent).is_err() {
            let _good = shard.range();
            return k;
        }
    }
    to
}

/// The contents of one lock: a shard, the number of delivered pairs of each piece, and a bit for each piece that is set when these are all.
#[derive(Drop)]
pub struct Pieced<G: Game, L: PieceLedger> {
    shard: OrderedShard<G>,
    counts: Vec<usize>,
    whole: Vec<bool>,
    book: Book<L>,
}

impl<G: Game, L: PieceLedger> Model for Pieced<G, L> {
    ghost use Rattle.gm_locks.specs.Pieces.{PiecedData, IsPieced};

    ghost Value = { PiecedData };

    ghost view = { λ h. record { shard = h.shard; counts = h.counts.items; whole = h.whole.items; book = h.book.total } };

    ghost invariant = { λ h. IsPieced G.rules L.spot L.notes L.size L.base
        (record { shard = h.shard; counts = h.counts.items; whole = h.whole.items; book = h.book.total }) };
}

impl<G: Game, L: PieceLedger> Pieced<G, L> {
    /// Returns a shard at the level's place that has none of the level's pairs, and the share that has all parts of its ledger.
    pub fn around(
        alloc: Global,
        blank: Blank,
        shard: OrderedShard<G>,
        level: &Level<G>,
        size: usize,
    ) -> Result<(Pieced<G, L>, Share<L>), AllocError>
        requires name { blank.name ≡ L.name }
        requires parts { (blank.parts ≡ L.parts) × (0 < L.parts) }
        requires ready { IsReadyFor G.rules shard level.now L.spot L.notes L.base }
        requires size { (L.size ≡ size) × (0 < size) }
        ensures share { IfOk result (λ begun. begun.1 ≡ record { parts = L.parts; amount = 0 }) }
    {
        let _place = level.place();
        let pieces = level.pieces(size);
        let counts = vec![in alloc; 0usize; pieces]?;
        let whole = vec![in alloc; false; pieces]?;
        let (book, mark) = blank.open::<L>();
        let share = Share::whole(mark);
        let pieced = Pieced {
            shard,
            counts,
            whole,
            book,
        };
        Ok((pieced, share))
    }

    /// Returns the shard. It is good, it is at the place that its name fixes, and it has as many pairs as before the level and the book together.
    pub fn shard(&self) -> &OrderedShard<G>
        ensures shard { result.now ≡ self.now.shard }
        ensures good { IsGood G.rules self.now.shard }
        ensures spot { spot_of self.now.shard ≡ L.spot }
        ensures book { pairs_in self.now.shard ≡ L.base + self.now.book }
    {
        let _good = self.shard.range();
        &self.shard
    }

    /// Returns what is known of an index of the shard.
    pub fn status(&self, index: u64) -> Status
        requires { IsWithin L.spot index }
        ensures { IsShownAt G.rules L.spot index result }
    {
        let _good = self.shard.range();
        self.shard.status(index)
    }

    /// Returns the index range of the shard: the first index, and the one past the last.
    pub fn range(&self) -> (u64, u64)
        ensures lo { result.0 ≡ L.spot.lo }
        ensures hi { result.1 ≡ L.spot.hi }
    {
        self.shard.range()
    }

    /// Returns whether all pairs of a piece are delivered.
    pub fn is_whole(&self, piece: usize) -> bool
        requires { piece < div_ceil (length L.notes) L.size }
        ensures { result ≡ slice_index_or self.now.whole piece false }
    {
        self.whole[piece]
    }

    /// Delivers the pairs of a piece up to number `to`, except those that are delivered already, and sets the piece's bit when none is left. If a pair is too
    /// far, it and those after it are not delivered. The share rises by the number of new pairs.
    pub(crate) fn deliver(
        &mut self,
        piece: usize,
        pairs: &PairList<G>,
        to: usize,
        share: &mut Share<L>,
    ) -> Result<(), Refused>
        requires piece { piece < div_ceil (length L.notes) L.size }
        requires pairs { pairs.now ≡ piece_pairs G.rules L.spot L.notes L.size piece }
        requires to { to ≤ length pairs.now }
        requires parts { 0 < share.old.parts }
        ensures turn { (n : ℕ) × IsTurnAt G.rules L.spot L.notes L.size L.base piece to n result self.old self.new
            × (share.new ≡ record { parts = share.old.parts; amount = share.old.amount + n }) }
        ensures far { OnErr result (IsRefusedAt G.rules L.spot) }
    {
        let _before = self.shard.range();
        let from = self.counts[piece];
        let end = to.max(from);
        let next = deliver_from::<G, L>(&mut self.shard, piece, pairs, from, end);
        self.counts[piece] = next;
        self.whole[piece] = next == pairs.len();
        share.raise(&mut self.book, (next - from) as u64);
        let _after = self.shard.range();
        if next < end {
            return Err(Refused::TooFar);
        }
        Ok(())
    }

    /// Delivers the missing pairs of a piece. A pair is refused only if it is too far. The share rises by the number of new pairs.
    pub fn deliver_rest(
        &mut self,
        piece: usize,
        pairs: &PairList<G>,
        share: &mut Share<L>,
    ) -> Result<(), Refused>
        requires piece { piece < div_ceil (length L.notes) L.size }
        requires pairs { pairs.now ≡ piece_pairs G.rules L.spot L.notes L.size piece }
        requires parts { 0 < share.old.parts }
        ensures here { OnOk result (slice_index_or self.new.whole piece false ≡ true) }
        ensures others { OnOk result ((p : ℕ) → slice_index_or self.old.whole p false ≡ true → slice_index_or self.new.whole p false ≡ true) }
        ensures parts { share.new.parts ≡ share.old.parts }
        ensures far { OnErr result (IsRefusedAt G.rules L.spot) }
    {
        self.deliver(piece, pairs, pairs.len(), share)
    }

    /// Shows that a share of all parts has the amount of the book, and that the shard has as many pairs of the level.
    pub fn audit(&mut self, share: &mut Share<L>)
        ensures same { (self.new ≡ self.old) × (share.new ≡ share.old) }
        ensures book { share.old.parts ≡ L.parts → self.old.book ≡ share.old.amount }
        ensures pairs { pairs_in self.old.shard ≡ L.base + self.old.book }
    {
        share.audit(&mut self.book);
    }

    /// Returns the shard when all pieces are delivered: it has every pair of the level into its range, as many as the amount of the whole share, and the pairs
    /// of earlier levels.
    pub fn into_whole(self, share: Share<L>) -> OrderedShard<G>
        requires whole { (p : ℕ) → p < div_ceil (length L.notes) L.size → slice_index_or self.whole p false ≡ true }
        requires parts { share.parts ≡ L.parts }
        ensures spot { spot_of result ≡ L.spot }
        ensures whole { IsWhole G.rules result }
        ensures number { pairs_in result ≡ L.base + share.amount }
        ensures book { share.amount ≡ self.book }
    {
        let Pieced { shard, book, .. } = self;
        let mut book = book;
        let mut share = share;
        share.audit(&mut book);
        let _good = shard.range();
        shard
    }
}
