//! The true table of a tier.
ghost use Rattle.std.specs.Prelude.{◌≡◌, ℕ, ◌<◌, ◌≤◌, None, length, get_or, IfOk, IfSome};
ghost use Rattle.gm_game.specs.Rules.{at};
ghost use Rattle.gm_game.specs.Values.{IsTrueValue};
ghost use Rattle.gm_game.specs.Records.{IsTrueTable, IsRecord};
ghost use Rattle.gm_table.specs.Levels.{HasGreatest};
ghost use Rattle.gm_table.specs.RecordCodes.{record_number};
ghost use Rattle.gm_table.specs.inner.Shorts.{record_of_short};
ghost use Rattle.gm_table.specs.declared.version.Version.TheVariants.{Two};

use crate::outline::Outline;
use crate::packed::Packed;
use crate::runs::Runs;
use gm_game::game::Game;
use gm_game::limits::{REMOTENESS, TIER_SIZE};
use gm_game::position::{Phase, Solved};
use std::alloc::{AllocError, Global};
use std::marker::{Model, PhantomData};

/// The true records of a tier: each canonical legal position has its value and remoteness, and every other index has none.
#[derive(Drop)]
pub struct Table<G: Game> {
    tier: u64,
    records: Packed,
    outline: Outline,
    game: PhantomData<G>,
}

impl<G: Game> Model for Table<G> {
    ghost use Rattle.gm_table.specs.Tables.{TableData, IsKept};

    ghost Value = { TableData };

    ghost view = { λ t. record { tier = t.tier; records = t.records } };

    ghost invariant = { λ t. IsKept G.rules (record { tier = t.tier; records = t.records }) t.outline };
}

impl<G: Game> Table<G> {
    ghost use Rattle.gm_table.specs.Tables.{record_at, IsTable};
    ghost use Rattle.gm_table.specs.inner.Outlines.{IsOutlineOf};
    ghost use Rattle.gm_table.specs.inner.Runs.{AreRunsOf};

    /// Makes a table of the true records of a tier within the limits. A table takes a byte an index, or four if a remoteness is above 31.
    pub fn from_true(
        alloc: Global,
        tier: u64,
        records: &[Option<Solved>],
    ) -> Result<Self, AllocError>
        requires is_true { IsTrueTable G.rules REMOTENESS tier records.now }
        requires is_small { G.rules.tier_size tier ≤ TIER_SIZE }
        ensures tier { IfOk result (λ t. t.tier ≡ tier) }
        ensures records { IfOk result (λ t. t.records ≡ records.now) }
    {
        Ok(Table::from_packed(tier, Packed::of(alloc, records)?))
    }

    /// Makes a table of true records that are packed already. It takes no memory.
    pub fn from_packed(tier: u64, records: Packed) -> Self
        requires is_true { IsTrueTable G.rules REMOTENESS tier records }
        requires is_small { G.rules.tier_size tier ≤ TIER_SIZE }
        ensures tier { result.tier ≡ tier }
        ensures records { result.records ≡ records }
    {
        let outline = Outline::of(&records);
        Table::outlined(tier, records, outline)
    }

    /// Makes a table of true records, with their outline.
    pub(crate) fn outlined(tier: u64, records: Packed, outline: Outline) -> Self
        requires is_true { IsTrueTable G.rules REMOTENESS tier records }
        requires is_small { G.rules.tier_size tier ≤ TIER_SIZE }
        requires outline { IsOutlineOf records outline }
        ensures tier { result.tier ≡ tier }
        ensures records { result.records ≡ records }
    {
        Table {
            tier,
            records,
            outline,
            game: PhantomData,
        }
    }

    /// Takes the indexes by place, if they were laid out and not taken before. The table is unchanged.
    pub(crate) fn take_runs(&mut self) -> Option<Runs>
        ensures runs { IfSome result (AreRunsOf self.old.records) }
        ensures same { self.new ≡ self.old }
    {
        self.outline.runs.take()
    }

    /// Returns the tier of the table.
    pub fn tier(&self) -> u64
        ensures value { result ≡ self.now.tier }
        ensures table { IsTable G.rules self.now }
    {
        self.tier
    }

    /// Returns how many indexes the tier has.
    pub fn size(&self) -> u64
        ensures value { result ≡ length self.now.records }
        ensures table { IsTable G.rules self.now }
    {
        self.records.len() as u64
    }

    /// Returns the records by index.
    pub(crate) fn records(&self) -> &Packed
        ensures value { result.now ≡ self.now.records }
        ensures table { IsTable G.rules self.now }
    {
        &self.records
    }

    /// Returns the value of the canonical legal position with this index; `None` for any other index, also past the size.
    pub fn at(&self, index: u64) -> Option<Solved>
        ensures value { result ≡ record_at self.now.records index }
        ensures is_true { IsRecord G.rules REMOTENESS (IsTrueValue G.rules) (at self.now.tier index) result }
        ensures table { IsTable G.rules self.now }
    {
        self.records.get(index as usize)
    }

    /// Returns the number of the record at an index, as a tier file of version 2 has it; 0 for an index without a record.
    pub fn number(&self, index: u64) -> u32
        ensures { result ≡ record_number Two (record_at self.now.records index) }
    {
        self.records.number(index as usize)
    }

    /// Returns an index from `from` on that no record comes before, so that the indexes up to it need no look; the size of the tier from there on. It takes less
    /// time than to read them.
    pub fn skip_holes(&self, from: u64) -> u64
        ensures low { from ≤ length self.now.records → from ≤ result }
        ensures high { result ≤ length self.now.records }
        ensures holes { (k : ℕ) → from ≤ k → k < result → record_at self.now.records k ≡ None }
    {
        let size = self.records.len();
        self.records.skip_holes((from as usize).min(size)) as u64
    }

    /// Returns the short forms of the records, if each has one, and else an empty list.
    pub(crate) fn shorts(&self) -> &[u8]
        ensures { (i : ℕ) → i < length result.now → record_at self.now.records i ≡ record_of_short (get_or result.now i 0) }
    {
        self.records.shorts()
    }

    /// Returns the greatest remoteness of wins and losses, or of ties; `None` if the table has no such record.
    pub fn greatest(&self, phase: Phase) -> Option<u32>
        ensures value { HasGreatest phase self.now.records result }
        ensures table { IsTable G.rules self.now }
    {
        match phase {
            Phase::WinLose => self.outline.greatest_win_lose,
            Phase::Ties => self.outline.greatest_tie,
        }
    }
}
