//! Tables by tier.
ghost use Rattle.std.specs.Prelude.{◌≡◌, ◌↔◌, ◌<◌, ℕ, [], true, None, IsTrue, IsSome, IfSome, OnOk, OnErr, IfErr, option_copied, length, get_or};
ghost use Rattle.gm_table.specs.Tables.{IsFirstPlaceOf};
ghost use Rattle.std.specs.List.{Contains};
ghost use Rattle.gm_game.specs.Rules.{at, IsCanonical, IsAscending};
ghost use Rattle.gm_game.specs.Places.{StandsAt};
ghost use Rattle.gm_game.specs.Values.{IsTrueValue};

use crate::entry::Entry;
use crate::table::Table;
use gm_game::game::Game;
use gm_game::position::{Phase, Position, Solved};
use std::alloc::{AllocFailed, Global};
use std::marker::Model;

/// The tables that are held, by tier. Contracts see their list. There are few, so a tier is sought one by one, in a list that does not depend on the game.
#[derive(Drop)]
pub struct Tables<G: Game> {
    alloc: Global,
    tiers: Vec<u64>,
    entries: Vec<Entry<G>>,
}

impl<G: Game> Model for Tables<G> {
    ghost use Rattle.std.specs.Prelude.{List};
    ghost use Rattle.gm_table.specs.Tables.{TableData, AreKept};

    ghost Value = { List TableData };

    ghost view = { λ t. t.entries.items };

    ghost invariant = { λ t. AreKept G.rules t.tiers.items t.entries.items };
}

// Returns the place of a tier among these, the first if it is there more than once.
fn place_of(tiers: &[u64], tier: u64) -> Option<usize>
    ensures some { IfSome result (λ k. IsFirstPlaceOf tiers.now tier k) }
    ensures none { result ≡ None → (j : ℕ) → j < length tiers.now → get_or tiers.now j 0 ≡ tier → ⊥ }
{
    for k in 0..tiers.len() {
        if tiers[k] == tier {
            return Some(k);
        }
    }
    None
}

impl<G: Game> Tables<G> {
    ghost use Rattle.gm_table.specs.Tables.{table_of, Inserts, IsHeld, AreHeld, AreTables, IsTable, record_in, value_in, run_of};

    /// Returns an empty map. Inserted tables that are not laid out yet are laid out in memory of this allocator.
    pub fn new(alloc: Global) -> Self
        ensures { result ≡ [] }
    {
        Tables {
            alloc,
            tiers: Vec::new(alloc),
            entries: Vec::new(alloc),
        }
    }

    /// Inserts a table, in place of any other one of its tier, and lays out its indexes by place, unless `check_packed_by` has done so. If memory runs out, the
    /// table comes back and nothing changes.
    pub fn insert(&mut self, table: Table<G>) -> Result<(), AllocFailed<Table<G>>>
        ensures ok { OnOk result (Inserts self.old self.new table) }
        ensures err { OnErr result (self.new ≡ self.old) }
        ensures value_returned { IfErr result (λ e. e.value ≡ table) }
    {
        let tier = table.tier();
        let entry = Entry::of(self.alloc, table)?;
        match place_of(self.tiers.as_slice(), tier) {
            Some(k) => {
                self.entries[k] = entry;
                Ok(())
            }
            None => self.add(tier, entry),
        }
    }

    // Adds the table of a tier that has none. If memory runs out, the table comes back and nothing changes.
    fn add(&mut self, tier: u64, entry: Entry<G>) -> Result<(), AllocFailed<Table<G>>>
        requires tier { entry.tier ≡ tier }
        requires table { IsTable G.rules entry }
        requires none { table_of self.old tier ≡ None }
        ensures ok { OnOk result (Inserts self.old self.new entry) }
        ensures err { OnErr result (self.new ≡ self.old) }
        ensures value_returned { IfErr result (λ e. e.value ≡ entry) }
    {
        if self.tiers.push(tier).is_err() {
            return Err(AllocFailed {
                value: entry.into_table(),
            });
        }
        if let Err(failed) = self.entries.push(entry) {
            let _tier = self.tiers.pop();
            return Err(AllocFailed {
                value: failed.value.into_table(),
            });
        }
        Ok(())
    }

    /// Returns whether the tier has a table.
    pub fn has(&self, tier: u64) -> bool
        ensures value { IsTrue result ↔ IsHeld self.now tier }
        ensures tables { AreTables G.rules self.now }
    {
        self.table(tier).is_some()
    }

    /// Returns whether each child tier of the tier has a table.
    pub fn has_children(&self, tier: u64) -> bool
        ensures value { IsTrue result ↔ AreHeld G.rules self.now tier }
        ensures tables { AreTables G.rules self.now }
    {
        self.truth();
        for child in G::child_tiers(tier).as_slice() {
            if !self.has(*child) {
                return false;
            }
        }
        true
    }

    /// Returns the table of a tier.
    pub fn table(&self, tier: u64) -> Option<&Table<G>>
        ensures value { option_copied result ≡ table_of self.now tier }
        ensures tables { AreTables G.rules self.now }
    {
        Some(self.entry(tier)?.table())
    }

    /// Has no effect; its contract states that each held table is the true one of its tier.
    pub(crate) fn truth(&self)
        ensures { AreTables G.rules self.now }
    {
        let _ = &self.entries;
    }

    // Returns the table of a tier with its layout.
    fn entry(&self, tier: u64) -> Option<&Entry<G>>
        ensures value { option_copied result ≡ table_of self.now tier }
        ensures tables { AreTables G.rules self.now }
    {
        let k = place_of(self.tiers.as_slice(), tier)?;
        self.entries.get(k)
    }

    /// Returns the true value of a legal position of a held tier; `None` for any other position.
    pub fn get(&self, p: Position) -> Option<Solved>
        ensures value { result ≡ value_in G.rules self.now p }
        ensures held { IsSome result ↔ ((G.rules.is_legal p ≡ true) × IsHeld self.now p.tier) }
        ensures is_true { IfSome result (IsTrueValue G.rules p) }
        ensures tables { AreTables G.rules self.now }
    {
        let table = self.table(p.tier)?;
        if !G::is_legal(p) {
            return None;
        }
        table.at(G::canonical(p).index)
    }

    /// Returns the record of a position in the table of its tier.
    pub(crate) fn record(&self, p: Position) -> Option<Solved>
        ensures value { result ≡ record_in self.now p }
        ensures tables { AreTables G.rules self.now }
    {
        self.table(p.tier)?.at(p.index)
    }

    /// Returns the indexes, ascending, of a tier's canonical positions that have a value of the phase with this remoteness. Empty if the tier isn't held.
    pub fn run(&self, tier: u64, phase: Phase, level: u32) -> &[u32]
        ensures value { result.now ≡ run_of self.now tier phase level }
        ensures ascending { IsAscending result.now }
        ensures exact { (i : ℕ) → Contains result.now i
            ↔ (IsHeld self.now tier × IsCanonical G.rules (at tier i) × StandsAt G.rules phase level (at tier i)) }
        ensures tables { AreTables G.rules self.now }
    {
        match self.entry(tier) {
            Some(entry) => entry.run(phase, level),
            None => &[],
        }
    }
}
