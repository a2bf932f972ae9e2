//! Four shards of a tier, each under a lock of its own.
ghost use Rattle.std.specs.Prelude.{◌≡◌, ◌+◌, ◌<◌, ◌≤◌};
ghost use Rattle.gm_counters.specs.State.{pairs_in};
ghost use Rattle.gm_shard.specs.inner.Masks.{IsPlaceOf};
ghost use Rattle.gm_locks.specs.Spots.{spot_of, for_shard, gain, IsWithin};
ghost use Rattle.gm_solver.specs.Boards.{AreFourTiles, IsAnswer, IsDeliveryAt};
ghost use Rattle.gm_locks.specs.Amounts.{raised};

use crate::held::Held;
use gm_counters::status::{Delivery, Refused};
use gm_frontier::note::Note;
use gm_game::game::Game;
use gm_locks::four::Four;
use gm_locks::share::{ShardLedger, Share};
use gm_locks::shares::Shares;
use gm_shard::place::place_of;
use gm_shard::shard::Shard;
use std::sync::ledger::Blank;
use std::sync::{Mutex, Wait};

/// Four shards that tile a tier, each under a lock of its own. Whenever a lock is taken, the shard behind it is good, has the place that its name fixes, and
/// has as many pairs as its book.
#[derive(Drop)]
pub struct Board<G: Game, A: ShardLedger, B: ShardLedger, C: ShardLedger, D: ShardLedger> {
    a: Mutex<Held<G, A>>,
    b: Mutex<Held<G, B>>,
    c: Mutex<Held<G, C>>,
    d: Mutex<Held<G, D>>,
    tier: u64,
    ranges: Four<(u64, u64)>,
    ghost tier_is: { tier ≡ A.spot.tier },
    ghost a_is: { (ranges.a.0 ≡ A.spot.lo) × (ranges.a.1 ≡ A.spot.hi) },
    ghost b_is: { (ranges.b.0 ≡ B.spot.lo) × (ranges.b.1 ≡ B.spot.hi) },
    ghost c_is: { (ranges.c.0 ≡ C.spot.lo) × (ranges.c.1 ≡ C.spot.hi) },
    ghost d_is: { (ranges.d.0 ≡ D.spot.lo) × (ranges.d.1 ≡ D.spot.hi) },
    ghost tiled: { AreFourTiles G.rules A.spot B.spot C.spot D.spot },
}

impl<G: Game, A: ShardLedger, B: ShardLedger, C: ShardLedger, D: ShardLedger> Board<G, A, B, C, D> {
    /// Puts each shard under its lock. The shards tile one tier at one place, the blanks have the names of the ledgers and `parts` parts each, and each name
    /// fixes the place of its shard. The shares of the result have all parts.
    pub fn around(
        parts: u64,
        blanks: Four<Blank>,
        shards: Four<Shard<G>>,
    ) -> (Board<G, A, B, C, D>, Shares<A, B, C, D>)
        requires names { (blanks.a.name ≡ A.name) × (blanks.b.name ≡ B.name) × (blanks.c.name ≡ C.name) × (blanks.d.name ≡ D.name) }
        requires parts { (blanks.a.parts ≡ A.parts) × (blanks.b.parts ≡ B.parts) × (blanks.c.parts ≡ C.parts) × (blanks.d.parts ≡ D.parts) }
        requires equal { (A.parts ≡ parts) × (B.parts ≡ parts) × (C.parts ≡ parts) × (D.parts ≡ parts) }
        requires some { 0 < parts }
        requires spots { (spot_of shards.a ≡ A.spot) × (spot_of shards.b ≡ B.spot) × (spot_of shards.c ≡ C.spot) × (spot_of shards.d ≡ D.spot) }
        requires tiles { AreFourTiles G.rules A.spot B.spot C.spot D.spot }
        ensures { result.1 ≡ record { parts = parts; a = pairs_in shards.a; b = pairs_in shards.b; c = pairs_in shards.c; d = pairs_in shards.d } }
    {
        let ranges = Four {
            a: shards.a.range(),
            b: shards.b.range(),
            c: shards.c.range(),
            d: shards.d.range(),
        };
        let tier = shards.a.tier();
        let (one, a) = hold(blanks.a, shards.a);
        let (two, b) = hold(blanks.b, shards.b);
        let (three, c) = hold(blanks.c, shards.c);
        let (four, d) = hold(blanks.d, shards.d);
        let board = Board {
            a: Mutex::new(one),
            b: Mutex::new(two),
            c: Mutex::new(three),
            d: Mutex::new(four),
            tier,
            ranges,
        };
        (board, Shares { parts, a, b, c, d })
    }

    /// Returns the lock of shard 0.
    pub fn a(&self) -> &Mutex<Held<G, A>> {
        &self.a
    }

    /// Returns the lock of shard 1.
    pub fn b(&self) -> &Mutex<Held<G, B>> {
        &self.b
    }

    /// Returns the lock of shard 2.
    pub fn c(&self) -> &Mutex<Held<G, C>> {
        &self.c
    }

    /// Returns the lock of shard 3.
    pub fn d(&self) -> &Mutex<Held<G, D>> {
        &self.d
    }

    /// Returns the index range of a shard: the first index, and the one past the last.
    pub fn range(&self, shard: usize) -> (u64, u64)
        requires { shard < 4 }
        ensures lo { result.0 ≡ (for_shard shard A.spot B.spot C.spot D.spot).lo }
        ensures hi { result.1 ≡ (for_shard shard A.spot B.spot C.spot D.spot).hi }
    {
        match shard {
            0 => self.ranges.a,
            1 => self.ranges.b,
            2 => self.ranges.c,
            _ => self.ranges.d,
        }
    }

    /// Returns the shard whose range has this index of the tier.
    pub fn shard_of(&self, parent: u64) -> usize
        requires { parent < G.rules.tier_size A.spot.tier }
        ensures shard { result < 4 }
        ensures range { IsWithin (for_shard result A.spot B.spot C.spot D.spot) parent }
    {
        if parent < self.ranges.a.1 {
            0
        } else if parent < self.ranges.b.1 {
            1
        } else if parent < self.ranges.c.1 {
            2
        } else {
            3
        }
    }

    /// Delivers a note to a parent under the lock of the parent's shard. The caller's amount for this shard rises by one exactly if the pair is new, and the
    /// other amounts stay.
    pub fn deliver<R: Wait>(
        &self,
        rt: &R,
        shard: usize,
        note: &Note<G>,
        parent: u64,
        shares: &mut Shares<A, B, C, D>,
    ) -> Result<Delivery, Refused>
        requires { shard < 4 }
        ensures shares { shares.new ≡ raised shares.old shard (gain result) }
        ensures refusals { IsAnswer G.rules (for_shard shard A.spot B.spot C.spot D.spot) note.now parent result }
        ensures event { IsDeliveryAt G.rules (for_shard shard A.spot B.spot C.spot D.spot) note.now parent result }
    {
        let place = place_of(note, self.tier, parent);
        self.deliver_at(rt, shard, note, parent, place, shares)
    }

    /// Delivers as `deliver` does, when the place of the note's position among the children of the parent is known.
    pub fn deliver_at<R: Wait>(
        &self,
        rt: &R,
        shard: usize,
        note: &Note<G>,
        parent: u64,
        place: Option<u32>,
        shares: &mut Shares<A, B, C, D>,
    ) -> Result<Delivery, Refused>
        requires shard { shard < 4 }
        requires place { IsPlaceOf G.rules note.now.position A.spot.tier parent place }
        ensures shares { shares.new ≡ raised shares.old shard (gain result) }
        ensures refusals { IsAnswer G.rules (for_shard shard A.spot B.spot C.spot D.spot) note.now parent result }
        ensures event { IsDeliveryAt G.rules (for_shard shard A.spot B.spot C.spot D.spot) note.now parent result }
    {
        let Shares { a, b, c, d, .. } = shares;
        match shard {
            0 => self.a.lock(rt).deliver_at(note, parent, place, a),
            1 => self.b.lock(rt).deliver_at(note, parent, place, b),
            2 => self.c.lock(rt).deliver_at(note, parent, place, c),
            _ => self.d.lock(rt).deliver_at(note, parent, place, d),
        }
    }

    /// Takes the shards out of their locks, in exchange for shares of all parts. They tile the same tier at the same place, and each has as many pairs as its
    /// whole share.
    pub fn into_shards(self, shares: Shares<A, B, C, D>) -> Four<Shard<G>>
        requires { shares.parts ≡ A.parts }
        ensures spots { (spot_of result.a ≡ A.spot) × (spot_of result.b ≡ B.spot) × (spot_of result.c ≡ C.spot) × (spot_of result.d ≡ D.spot) }
        ensures amounts { (pairs_in result.a ≡ shares.a) × (pairs_in result.b ≡ shares.b) × (pairs_in result.c ≡ shares.c) × (pairs_in result.d ≡ shares.d) }
    {
        Four {
            a: self.a.into_inner().into_shard(shares.a),
            b: self.b.into_inner().into_shard(shares.b),
            c: self.c.into_inner().into_shard(shares.c),
            d: self.d.into_inner().into_shard(shares.d),
        }
    }
}

// Returns a shard with its book, and the share that has all parts.
fn hold<G: Game, L: ShardLedger>(blank: Blank, shard: Shard<G>) -> (Held<G, L>, Share<L>)
    requires { (blank.name ≡ L.name) × (blank.parts ≡ L.parts) × (0 < L.parts) × (spot_of shard ≡ L.spot) }
    ensures { result.1 ≡ record { parts = L.parts; amount = pairs_in shard } }
{
    let delivered = shard.delivered();
    let (mut book, mark) = blank.open::<L>();
    let mut share = Share::whole(mark);
    share.raise(&mut book, delivered);
    (Held::new(shard, book), share)
}
