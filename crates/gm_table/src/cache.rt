//! The tables that were read last.
ghost use Rattle.std.specs.Prelude.{◌≡◌, ◌<◌, ◌≤◌, ℕ, None, Some, IsTrue, IfNone, IfSome, length, option_copied, get_or, cond};
ghost use Rattle.std.specs.List.{Contains};
ghost use Rattle.gm_game.specs.declared.limits.TheConstants.{MOVES};
ghost use Rattle.gm_game.specs.declared.position.Position.{Position};
ghost use Rattle.gm_table.specs.inner.Caches.{IsSumOf, cache_of, other_table, other_record};
ghost use Rattle.gm_table.specs.inner.Shorts.{record_of_short, is_decided};
ghost use Rattle.gm_table.specs.Tables.{TableData, AreTables, record_at};

use crate::shorts::sum_of_shorts;
use crate::summary::Summary;
use crate::table::Table;
use crate::tables::Tables;
use arrayvec::ArrayVec;
use gm_game::game::Game;
use gm_game::limits::MOVES;
use gm_game::position::{Position, Solved, Value};
use std::marker::Model;

/// How many tables are cached: the child tiers of a tier are mostly few and next to each other.
const SLOTS: usize = 8;

// The short forms of a tier's records.
#[derive(Clone, Copy)]
struct Shorts<'a> {
    tier: u64,
    forms: &'a [u8],
}

/// Reads the tables of the tiers other than its own. Those that were read last are cached, each in the slot of its tier: most children lie in few tiers, so the map
/// of tables is seldom searched. Contracts see the tables and the tier.
#[derive(Drop)]
pub struct TableCache<'a, G: Game> {
    tables: &'a Tables<G>,
    tier: u64,
    last: [Option<&'a Table<G>>; SLOTS],
    // The short forms of the last tables, so that most records are read without the table.
    shorts: [Shorts<'a>; SLOTS],
}

impl<'a, G: Game> Model for TableCache<'a, G> {
    ghost use Rattle.gm_table.specs.inner.Caches.{CacheData, AreCached, cache_of};

    ghost Value = { CacheData };

    ghost view = { λ c. cache_of c.tables.now c.tier };

    ghost invariant = { λ c. AreCached (cache_of c.tables.now c.tier) c.last c.shorts };
}

impl<'a, G: Game> TableCache<'a, G> {
    /// Returns an empty cache of the tables of the tiers other than this one.
    pub fn new(tables: &'a Tables<G>, tier: u64) -> Self
        ensures { result ≡ cache_of tables.now tier }
    {
        TableCache {
            tables,
            tier,
            last: [None; SLOTS],
            shorts: [Shorts { tier, forms: &[] }; SLOTS],
        }
    }

    /// Returns the cache's own tier.
    pub fn tier(&self) -> u64
        ensures { result ≡ self.now.tier }
    {
        self.tier
    }

    /// Returns the table of another tier; `None` for the cache's own.
    pub fn table(&mut self, tier: u64) -> Option<&'a Table<G>>
        ensures table { option_copied result ≡ other_table self.old tier }
        ensures same { self.new ≡ self.old }
    {
        let slot = (tier % SLOTS as u64) as usize;
        let last = &self.last[..];
        let known = last[slot];
        if is_of(known, tier) {
            return known;
        }
        if tier == self.tier {
            return None;
        }
        let found = self.tables.table(tier);
        let last = &mut self.last[..];
        last[slot] = found;
        self.shorts[slot] = Shorts {
            tier,
            forms: shorts_of(found),
        };
        found
    }

    /// Returns the summary of the records of positions of other tiers, and how many of them are not draws; `None` if one of the tiers has no table, or is the
    /// cache's own.
    pub fn sum(&mut self, positions: &[Position]) -> Option<(Summary, u64)>
        requires { length positions.now ≤ MOVES }
        ensures none { IfNone result ((p : Position) × Contains positions.now p × (other_table self.old p.tier ≡ None)) }
        ensures sum { IfSome result (λ found. IsSumOf self.old positions.now found.0 found.1) }
        ensures same { self.new ≡ self.old }
        ensures tables { AreTables G.rules self.old.tables }
    {
        self.tables.truth();
        match self.sum_by_shorts(positions) {
            Some(found) => Some(found),
            None => self.sum_by_records(positions),
        }
    }

    // Returns what `sum` does, if all records have short forms.
    fn sum_by_shorts(&mut self, positions: &[Position]) -> Option<(Summary, u64)>
        requires { length positions.now ≤ MOVES }
        ensures sum { IfSome result (λ found. IsSumOf self.old positions.now found.0 found.1) }
        ensures same { self.new ≡ self.old }
    {
        let mut shorts: ArrayVec<u8, MOVES> = ArrayVec::new();
        for p in positions {
            shorts.push(self.short(*p)?);
        }
        Some(sum_of_shorts(shorts.as_slice()))
    }

    // Returns what `sum` does, for records of any remoteness.
    fn sum_by_records(&mut self, positions: &[Position]) -> Option<(Summary, u64)>
        requires { length positions.now ≤ MOVES }
        ensures none { IfNone result ((p : Position) × Contains positions.now p × (other_table self.old p.tier ≡ None)) }
        ensures sum { IfSome result (λ found. IsSumOf self.old positions.now found.0 found.1) }
        ensures same { self.new ≡ self.old }
    {
        let mut seen = Summary::of_none();
        let mut decided = 0;
        for p in positions {
            let known = self.table(p.tier)?.at(p.index);
            seen = seen.with(known);
            decided += count_decided(known);
        }
        Some((seen, decided))
    }

    // Returns the short form of a position's record, if its table has short forms. It is short, so that a processor waits for many records at once.
    #[inline(always)]
    fn short(&mut self, p: Position) -> Option<u8>
        ensures short { IfSome result (λ short. (t : TableData) × (other_table self.old p.tier ≡ Some t) × (other_record self.old p ≡ record_of_short short)) }
        ensures same { self.new ≡ self.old }
    {
        let shorts = &self.shorts[(p.tier % SLOTS as u64) as usize];
        let index = p.index as usize;
        if shorts.tier == p.tier && index < shorts.forms.len() {
            return Some(shorts.forms[index]);
        }
        self.short_elsewhere(p)
    }

    // Returns the short form of the record of a position whose table isn't cached.
    #[inline(never)]
    fn short_elsewhere(&mut self, p: Position) -> Option<u8>
        ensures short { IfSome result (λ short. (t : TableData) × (other_table self.old p.tier ≡ Some t) × (other_record self.old p ≡ record_of_short short)) }
        ensures same { self.new ≡ self.old }
    {
        let shorts = self.table(p.tier)?.shorts();
        Some(*shorts.get(p.index as usize)?)
    }
}

// Returns whether there is a table, and it is this tier's.
fn is_of<G: Game>(known: Option<&Table<G>>, tier: u64) -> bool
    ensures { IsTrue result → (t : TableData) × (option_copied known.entry ≡ Some t) × (t.tier ≡ tier) }
{
    match known {
        Some(table) => table.tier() == tier,
        None => false,
    }
}

// Returns the short forms of the records of a table, if there is one and all its records have them.
fn shorts_of<G: Game>(found: Option<&Table<G>>) -> &[u8]
    ensures { (i : ℕ) → i < length result.now
        → (t : TableData) × (option_copied found.entry ≡ Some t) × (record_at t.records i ≡ record_of_short (get_or result.now i 0)) }
{
    match found {
        Some(table) => table.shorts(),
        None => &[],
    }
}

// Returns 1 for a record that is no draw, and 0 for a draw or none.
fn count_decided(known: Option<Solved>) -> u64
    ensures { result ≡ cond (is_decided known) 1 0 }
{
    match known {
        None => 0,
        Some(solved) => match solved.value {
            Value::Draw => 0,
            Value::Lose | Value::Tie | Value::Win => 1,
        },
    }
}
