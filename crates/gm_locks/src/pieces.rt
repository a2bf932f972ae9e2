//! Four shards of a tier, each under a lock of its own, to which a level is delivered piece by piece.
ghost use Rattle.std.specs.Prelude.{◌≡◌, ℕ, ◌<◌, ◌≤◌, length, OnErr};
ghost use Rattle.std.specs.Int.{div_ceil};
ghost use Rattle.gm_locks.specs.Spots.{for_shard, IsWithin};
ghost use Rattle.gm_locks.specs.Amounts.{raised};
ghost use Rattle.gm_locks.specs.Pieces.{PiecedData, piece_pairs, IsRefusedAt, IsTurnAt, IsShownAt};

use crate::piece::{PieceLedger, Pieced};
use crate::shares::Shares;
use gm_counters::status::{Refused, Status};
use gm_frontier::pair_list::PairList;
use gm_game::game::Game;
use std::sync::{Mutex, Wait};

/// The locks of four shards to which a level is delivered piece by piece. Whenever a lock is taken, the shard behind it is good, and has a first part of the
/// pairs of each piece.
#[derive(Drop)]
pub struct PieceBoard<'a, G: Game, A: PieceLedger, B: PieceLedger, C: PieceLedger, D: PieceLedger> {
    a: &'a Mutex<Pieced<G, A>>,
    b: &'a Mutex<Pieced<G, B>>,
    c: &'a Mutex<Pieced<G, C>>,
    d: &'a Mutex<Pieced<G, D>>,
    ghost notes_are: { (B.notes ≡ A.notes) × (C.notes ≡ A.notes) × (D.notes ≡ A.notes) },
    ghost sizes_are: { (B.size ≡ A.size) × (C.size ≡ A.size) × (D.size ≡ A.size) },
}

impl<'a, G: Game, A: PieceLedger, B: PieceLedger, C: PieceLedger, D: PieceLedger> PieceBoard<
    'a,
    G,
    A,
    B,
    C,
    D,
> {
    /// Returns the board of these locks, whose names are of one level and one size of pieces.
    pub fn of(
        a: &'a Mutex<Pieced<G, A>>,
        b: &'a Mutex<Pieced<G, B>>,
        c: &'a Mutex<Pieced<G, C>>,
        d: &'a Mutex<Pieced<G, D>>,
    ) -> PieceBoard<'a, G, A, B, C, D>
        requires notes { (B.notes ≡ A.notes) × (C.notes ≡ A.notes) × (D.notes ≡ A.notes) }
        requires sizes { (B.size ≡ A.size) × (C.size ≡ A.size) × (D.size ≡ A.size) }
    {
        PieceBoard { a, b, c, d }
    }

    /// Returns what is known of an index of a shard while its lock is held. The shard behind the lock is good, and at the place that its name fixes.
    pub fn status<R: Wait>(&self, rt: &R, shard: usize, index: u64) -> Status
        requires shard { shard < 4 }
        requires index { IsWithin (for_shard shard A.spot B.spot C.spot D.spot) index }
        ensures { IsShownAt G.rules (for_shard shard A.spot B.spot C.spot D.spot) index result }
    {
        match shard {
            0 => self.a.lock(rt).status(index),
            1 => self.b.lock(rt).status(index),
            2 => self.c.lock(rt).status(index),
            _ => self.d.lock(rt).status(index),
        }
    }

    /// Returns the lock of shard 0.
    pub fn a(&self) -> &Mutex<Pieced<G, A>> {
        self.a
    }

    /// Returns the lock of shard 1.
    pub fn b(&self) -> &Mutex<Pieced<G, B>> {
        self.b
    }

    /// Returns the lock of shard 2.
    pub fn c(&self) -> &Mutex<Pieced<G, C>> {
        self.c
    }

    /// Returns the lock of shard 3.
    pub fn d(&self) -> &Mutex<Pieced<G, D>> {
        self.d
    }

    /// Delivers the pairs of a piece up to number `to` to one shard, under its lock, as `Pieced::deliver` does. The caller's amount for this shard rises by the
    /// number of new pairs, and the other amounts stay.
    pub fn deliver<R: Wait>(
        &self,
        rt: &R,
        shard: usize,
        piece: usize,
        pairs: &PairList<G>,
        to: usize,
        shares: &mut Shares<A, B, C, D>,
    ) -> Result<(), Refused>
        requires shard { shard < 4 }
        requires piece { piece < div_ceil (length A.notes) A.size }
        requires pairs { pairs.now ≡ piece_pairs G.rules (for_shard shard A.spot B.spot C.spot D.spot) A.notes A.size piece }
        requires to { to ≤ length pairs.now }
        ensures turn { (n : ℕ) × (d : PiecedData) × (e : PiecedData)
            × IsTurnAt G.rules (for_shard shard A.spot B.spot C.spot D.spot) A.notes A.size (for_shard shard A.base B.base C.base D.base) piece to n result d e
            × (shares.new ≡ raised shares.old shard n) }
        ensures far { OnErr result (IsRefusedAt G.rules (for_shard shard A.spot B.spot C.spot D.spot)) }
    {
        match shard {
            0 => self.a.lock(rt).deliver(piece, pairs, to, &mut shares.a),
            1 => self.b.lock(rt).deliver(piece, pairs, to, &mut shares.b),
            2 => self.c.lock(rt).deliver(piece, pairs, to, &mut shares.c),
            _ => self.d.lock(rt).deliver(piece, pairs, to, &mut shares.d),
        }
    }
}
