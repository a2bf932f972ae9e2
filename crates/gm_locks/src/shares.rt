//! Shares of the ledgers of four shards.
ghost use Rattle.std.specs.Prelude.{◌≡◌, ◌+◌, ◌^◌, ◌-◌, ◌<◌, min};
ghost use Rattle.gm_locks.specs.Amounts.{Amounts, one_part, amount_of, joined_amounts, split_of};

use crate::share::{ShardLedger, Share};
use std::marker::Model;

/// A share of each shard's ledger, all with the same number of parts.
#[derive(Drop)]
pub struct Shares<A: ShardLedger, B: ShardLedger, C: ShardLedger, D: ShardLedger> {
    pub parts: u64,
    pub a: Share<A>,
    pub b: Share<B>,
    pub c: Share<C>,
    pub d: Share<D>,
}

impl<A: ShardLedger, B: ShardLedger, C: ShardLedger, D: ShardLedger> Model for Shares<A, B, C, D> {
    ghost use Rattle.std.specs.Prelude.{◌≡◌, ◌<◌, ◌^◌};
    ghost use Rattle.gm_locks.specs.Amounts.{Amounts};

    ghost Value = { Amounts };

    ghost view = { λ s. record { parts = s.parts; a = s.a.amount; b = s.b.amount; c = s.c.amount; d = s.d.amount } };

    ghost invariant = { λ s. (0 < s.parts) × (s.a.parts ≡ s.parts) × (s.b.parts ≡ s.parts) × (s.c.parts ≡ s.parts) × (s.d.parts ≡ s.parts)
        × (A.parts ≡ B.parts) × (A.parts ≡ C.parts) × (A.parts ≡ D.parts) × (A.parts < 2 ^ 64) };
}

impl<A: ShardLedger, B: ShardLedger, C: ShardLedger, D: ShardLedger> Shares<A, B, C, D> {
    /// Returns the number of pairs that were delivered to a shard by these shares, or `u64::MAX` if there were more.
    pub fn amount(&self, shard: usize) -> u64
        requires { shard < 4 }
        ensures { result ≡ min (amount_of self.now shard) (2 ^ 64 - 1) }
    {
        match shard {
            0 => self.a.amount(),
            1 => self.b.amount(),
            2 => self.c.amount(),
            _ => self.d.amount(),
        }
    }

    /// Returns the number of parts of each share.
    pub fn parts(&self) -> u64
        ensures { result ≡ self.now.parts }
    {
        self.parts
    }

    /// Takes one part off each share, with an amount of 0.
    pub fn split(&mut self) -> Shares<A, B, C, D>
        requires { 1 < self.old.parts }
        ensures taken { result ≡ one_part }
        ensures left { self.new ≡ split_of self.old }
    {
        self.parts -= 1;
        Shares {
            parts: 1,
            a: self.a.split(),
            b: self.b.split(),
            c: self.c.split(),
            d: self.d.split(),
        }
    }

    /// Adds the parts and amounts of other shares to these.
    pub fn join(&mut self, other: Shares<A, B, C, D>)
        ensures { self.new ≡ joined_amounts self.old other }
    {
        let Shares { parts, a, b, c, d } = other;
        self.a.join(a);
        self.b.join(b);
        self.c.join(c);
        self.d.join(d);
        self.parts += parts;
    }
}
