//! Parts of a shard's ledger.
ghost use Rattle.std.specs.Prelude.{◌≡◌, ℕ, ◌+◌, ◌-◌, ◌^◌, ◌<◌, ◌≤◌, List, [], min};
ghost use Rattle.gm_frontier.specs.Notes.{NoteData};
ghost use Rattle.gm_locks.specs.Spots.{Spot, first_spot};
ghost use Rattle.gm_locks.specs.Amounts.{Part};

use std::marker::{Brand, Model};
use std::sync::ledger;
use std::sync::ledger::{Book, Ledger};

/// The name of one shard's ledger. It fixes the tier, range, phase and level of the shard.
pub trait ShardLedger: Ledger {
    /// The tier, range, phase and level of the shard.
    ghost spot: { Spot };
}

// A brand is a name that is picked at a call, with the place that it fixes.
impl ShardLedger for Brand {
    ghost spot = { first_spot };
}

/// The name of a shard's ledger for one level. It also fixes how many pairs were delivered before, and the notes of the level.
pub trait LevelLedger: ShardLedger {
    /// How many pairs were delivered before.
    ghost base: { ℕ };
    /// The notes of the level.
    ghost notes: { List NoteData };
}

impl LevelLedger for Brand {
    ghost base = { 0 };

    ghost notes = { [] };
}

/// A share of one shard's ledger: some of its parts, with the number of pairs that were delivered by them.
#[derive(Drop)]
pub struct Share<L: ShardLedger> {
    mark: ledger::Share<L>,
    counted: u64,
}

impl<L: ShardLedger> Model for Share<L> {
    ghost use Rattle.std.specs.Prelude.{◌≡◌, ◌-◌, ◌^◌, min};
    ghost use Rattle.gm_locks.specs.Amounts.{Part};

    ghost Value = { Part };

    ghost view = { λ s. record { parts = s.mark.parts; amount = s.mark.amount } };

    ghost invariant = { λ s. s.counted ≡ min s.mark.amount (2 ^ 64 - 1) };
}

impl<L: ShardLedger> Share<L> {
    /// Returns a share by which nothing was delivered yet.
    pub fn whole(mark: ledger::Share<L>) -> Share<L>
        requires { mark.amount ≡ 0 }
        ensures { result ≡ record { parts = mark.parts; amount = 0 } }
    {
        Share { mark, counted: 0 }
    }

    /// Returns the amount, or `u64::MAX` if the amount is greater.
    pub fn amount(&self) -> u64
        ensures { result ≡ min self.now.amount (2 ^ 64 - 1) }
    {
        self.counted
    }

    /// Raises the total of the book and the amount of the share.
    pub fn raise(&mut self, book: &mut Book<L>, by: u64)
        requires { 0 < self.old.parts }
        ensures book { book.new.total ≡ book.old.total + by }
        ensures share { self.new ≡ record { parts = self.old.parts; amount = self.old.amount + by } }
    {
        book.add(&mut self.mark, by);
        self.counted = self.counted.saturating_add(by);
    }

    /// Shows that the amount is at most the book's total, and equal to it if the share has all parts.
    pub fn audit(&mut self, book: &mut Book<L>)
        ensures same { (self.new ≡ self.old) × (book.new.total ≡ book.old.total) }
        ensures bound { self.old.amount ≤ book.old.total }
        ensures whole { self.old.parts ≡ L.parts → self.old.amount ≡ book.old.total }
    {
        book.audit(&mut self.mark);
    }

    /// Takes one part off the share, with an amount of 0.
    pub(crate) fn split(&mut self) -> Share<L>
        requires { 1 < self.old.parts }
        ensures { (result ≡ record { parts = 1; amount = 0 }) × (self.new.parts + 1 ≡ self.old.parts) × (self.new.amount ≡ self.old.amount) }
    {
        let mark = self.mark.split_off(1, 0);
        Share { mark, counted: 0 }
    }

    /// Adds the parts and the amount of another share to this one.
    pub(crate) fn join(&mut self, other: Share<L>)
        ensures { (self.new.parts ≡ self.old.parts + other.parts) × (self.new.amount ≡ self.old.amount + other.amount) × (self.new.parts ≤ L.parts) }
    {
        let Share { mark, counted } = other;
        self.mark.merge(mark);
        self.counted = self.counted.saturating_add(counted);
    }
}
