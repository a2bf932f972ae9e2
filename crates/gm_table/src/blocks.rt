//! Records checked by threads.
ghost use Rattle.std.specs.Prelude.{◌≡◌, ◌↔◌, ◌+◌, ◌*◌, ◌/◌, ◌<◌, ◌≤◌, ℕ, length, All, IsTrue, None, MatchOption};
ghost use Rattle.gm_game.specs.Children.{AreResults};
ghost use Rattle.gm_game.specs.Rules.{AreHoles, IsCanonical, at};
ghost use Rattle.gm_game.specs.declared.limits.TheConstants.{TIER_SIZE};
ghost use Rattle.gm_table.specs.inner.Caches.{cache_of};
ghost use Rattle.gm_table.specs.Checks.{FitsAt, IsFirstWrong, IsFirstWrongIn, IsFirstWrongOf, AreFirstWrongOf};

use crate::cache::TableCache;
use crate::fits::{Lists, fits};
use crate::records::Records;
use crate::tables::Tables;
use gm_game::game::Game;
use gm_game::limits::TIER_SIZE;
use gm_game::position::{End, Position};
use rayon::current_num_threads;
use std::sync::atomic::{AtomicUsize, Ordering};
use std::thread::{Threads, for_each_mut, join};

/// Up to this many records are checked by the caller's thread alone.
const FEW: usize = 8192;

/// The number of parts of the records. Each thread takes the next part until none is left, so that all end at about the same time.
const PARTS: usize = 128;

/// The greatest number of threads that check records, besides the one that calls another function first.
const THREADS: usize = 32;

// What a thread found in each part that it took: the least index whose record doesn't fit, if there is one.
#[derive(Clone, Copy, Drop)]
struct Firsts {
    by_part: [Option<Option<u64>>; PARTS],
}

// Records of a tier that are to be checked, with the tables that they are checked against.
#[derive(Drop)]
struct Given<'a, G: Game, C: Records> {
    tier: u64,
    records: &'a C,
    tables: &'a Tables<G>,
    ghost few: { length (C.listed records.now) ≤ TIER_SIZE },
}

impl<'a, G: Game, C: Records> Given<'a, G, C> {
    // Returns the least index from `lo` up to `hi` that has a record, if no index is that of a canonical legal position.
    fn first_filled(&self, lo: usize, hi: usize) -> Option<u64>
        requires within { hi ≤ length (C.listed self.now.records.now) }
        requires holes { AreHoles G.rules self.now.tier lo hi }
        ensures { IsFirstWrongIn G.rules self.now.tables.now self.now.tier (C.listed self.now.records.now) lo hi result }
    {
        for index in lo..hi {
            if self.records.record(index).is_some() {
                return Some(index as u64);
            }
        }
        None
    }

    // Returns whether the record at the index of a canonical legal position fits, at which the game has ended so, or else goes on to the results that the lists
    // hold.
    fn fits_at(
        &self,
        cache: &mut TableCache<'a, G>,
        lists: &mut Lists,
        index: usize,
        end: Option<End>,
    ) -> bool
        requires within { index < length (C.listed self.now.records.now) }
        requires canonical { IsCanonical G.rules (at self.now.tier index) }
        requires end { G.rules.primitive (at self.now.tier index) ≡ end }
        requires results { end ≡ None → AreResults G.rules (at self.now.tier index) lists.old.results.items }
        requires cache { cache.old ≡ cache_of self.now.tables.now self.now.tier }
        ensures value { IsTrue result ↔ FitsAt G.rules self.now.tables.now self.now.tier (C.listed self.now.records.now) index }
        ensures same { cache.new ≡ cache.old }
    {
        let p = Position {
            tier: self.tier,
            index: index as u64,
        };
        fits::<G, C>(
            self.records,
            cache,
            lists,
            p,
            end,
            self.records.record(index),
        )
    }

    // Returns the least index from `lo` up to `hi` whose record doesn't fit. `lists` is scratch space.
    fn first_between(
        &self,
        cache: &mut TableCache<'a, G>,
        lists: &mut Lists,
        lo: usize,
        hi: usize,
    ) -> Option<u64>
        requires order { lo ≤ hi }
        requires within { hi ≤ length (C.listed self.now.records.now) }
        requires cache { cache.old ≡ cache_of self.now.tables.now self.now.tier }
        ensures value { IsFirstWrongIn G.rules self.now.tables.now self.now.tier (C.listed self.now.records.now) lo hi result }
        ensures same { cache.new ≡ cache.old }
    {
        let mut next = lo;
        while let Some((canonical, end)) = G::first_results(
            self.tier,
            next as u64,
            hi as u64,
            &mut lists.results,
        ) {
            let index = canonical as usize;
            let filled = self.first_filled(next, index);
            if filled.is_some() {
                return filled;
            }
            if !self.fits_at(cache, lists, index, end) {
                return Some(canonical);
            }
            next = index + 1;
        }
        self.first_filled(next, hi)
    }

    // Returns the least index of a part whose record doesn't fit.
    fn first_in_part(&self, part: usize) -> Option<u64>
        requires { part < 128 }
        ensures { IsFirstWrongOf G.rules self.now.tables.now self.now.tier (C.listed self.now.records.now) part result }
    {
        let count = self.records.count();
        self.first_between(
            &mut TableCache::new(self.tables, self.tier),
            &mut Lists::new(),
            part * count / PARTS,
            (part + 1) * count / PARTS,
        )
    }

    // Goes through parts that no other thread has taken, until all are taken, and returns what it found.
    fn take_parts(&self, next: &AtomicUsize) -> Firsts
        ensures { AreFirstWrongOf G.rules self.now.tables.now self.now.tier (C.listed self.now.records.now) result.by_part }
    {
        let mut by_part = [None; PARTS];
        for _ in 0..PARTS {
            let part = next.fetch_add(1, Ordering::Relaxed);
            if part >= PARTS {
                break;
            }
            by_part[part] = Some(self.first_in_part(part));
        }
        Firsts { by_part }
    }

    // Returns what threads found in a part. A part that none of them took is gone through now.
    fn found_in_part(&self, part: usize, mine: &Firsts, others: &[Firsts]) -> Option<u64>
        requires part { part < 128 }
        requires mine { AreFirstWrongOf G.rules self.now.tables.now self.now.tier (C.listed self.now.records.now) mine.now.by_part }
        requires others { All (λ f. AreFirstWrongOf G.rules self.now.tables.now self.now.tier (C.listed self.now.records.now) f.by_part) others.now }
        ensures { IsFirstWrongOf G.rules self.now.tables.now self.now.tier (C.listed self.now.records.now) part result }
    {
        if let Some(first) = mine.by_part[part] {
            return first;
        }
        for found in others {
            if let Some(first) = found.by_part[part] {
                return first;
            }
        }
        self.first_in_part(part)
    }

    // Returns the least index whose record doesn't fit, by what threads found.
    fn first_of_parts(&self, mine: &Firsts, others: &[Firsts]) -> Option<u64>
        requires mine { AreFirstWrongOf G.rules self.now.tables.now self.now.tier (C.listed self.now.records.now) mine.now.by_part }
        requires others { All (λ f. AreFirstWrongOf G.rules self.now.tables.now self.now.tier (C.listed self.now.records.now) f.by_part) others.now }
        ensures { IsFirstWrongIn G.rules self.now.tables.now self.now.tier (C.listed self.now.records.now) 0 (length (C.listed self.now.records.now)) result }
    {
        for part in 0..PARTS {
            let first = self.found_in_part(part, mine, others);
            if first.is_some() {
                return first;
            }
        }
        None
    }
}

// Goes through parts as `take_parts` does, by one thread less than there are processors.
fn take_parts_by<G: Game + Send + Sync, C: Records + Sync, R: Threads + Sync>(
    rt: &R,
    tier: u64,
    records: &C,
    tables: &Tables<G>,
    next: &AtomicUsize,
) -> [Firsts; THREADS]
    requires { length (C.listed records.now) ≤ TIER_SIZE }
    ensures { All (λ f. AreFirstWrongOf G.rules tables.now tier (C.listed records.now) f.by_part) result }
{
    let given = Given {
        tier,
        records,
        tables,
    };
    let none = Firsts {
        by_part: [None; PARTS],
    };
    let mut found = [none; THREADS];
    for_each_mut(
        rt,
        &mut found,
        current_num_threads(rt).max(2) - 1,
        &|_thread, theirs| {
            *theirs = given.take_parts(next);
        },
    );
    found
}

// Returns what `meanwhile` returns, and the least index whose record doesn't fit. There are as many threads as processors. One of them calls `meanwhile` first, and
// each takes parts until all are taken.
fn first_of_all<
    G: Game + Send + Sync,
    C: Records + Sync,
    R: Threads + Sync,
    X: Send + Drop,
    B: FnOnce() -> X + Send + Drop,
>(
    rt: &R,
    tier: u64,
    records: &C,
    tables: &Tables<G>,
    next: &AtomicUsize,
    meanwhile: B,
) -> (X, Option<u64>)
    requires few { length (C.listed records.now) ≤ TIER_SIZE }
    requires meanwhile { B.pre meanwhile }
    ensures meanwhile { B.post meanwhile result.0 }
    ensures first { IsFirstWrongIn G.rules tables.now tier (C.listed records.now) 0 (length (C.listed records.now)) result.1 }
{
    let (first, others) = join(
        rt,
        move || -> (X, Firsts)
            requires { B.pre meanwhile × (length (C.listed records.now) ≤ TIER_SIZE) }
            ensures meanwhile { B.post meanwhile result.0 }
            ensures found { AreFirstWrongOf G.rules tables.entry.now tier (C.listed records.entry.now) result.1.by_part }
        {
            let made = meanwhile();
            let given = Given {
                tier,
                records,
                tables,
            };
            (made, given.take_parts(next))
        },
        || -> [Firsts; THREADS]
            requires { length (C.listed records.now) ≤ TIER_SIZE }
            ensures { All (λ f. AreFirstWrongOf G.rules tables.entry.now tier (C.listed records.entry.now) f.by_part) result }
        { take_parts_by(rt, tier, records, tables, next) },
    );
    let (made, mine) = first;
    let given = Given {
        tier,
        records,
        tables,
    };
    (made, given.first_of_parts(&mine, &others))
}

/// Returns the least index whose record doesn't fit.
pub(crate) fn first_wrong<'a, G: Game, C: Records>(
    tier: u64,
    records: &'a C,
    tables: &'a Tables<G>,
) -> Option<u64>
    requires { length (C.listed records.now) ≤ TIER_SIZE }
    ensures { MatchOption result ((i : ℕ) → FitsAt G.rules tables.now tier (C.listed records.now) i)
        (IsFirstWrong G.rules tables.now tier (C.listed records.now)) }
{
    let given = Given {
        tier,
        records,
        tables,
    };
    given.first_between(
        &mut TableCache::new(tables, tier),
        &mut Lists::new(),
        0,
        records.count(),
    )
}

/// Returns what `meanwhile` returns, and the least index whose record doesn't fit, found by threads, one of which calls `meanwhile` first.
#[tactic(auto, using(crate::proofs::CheckLemmas::first_of_all))]
pub(crate) fn first_wrong_by<
    G: Game + Send + Sync,
    C: Records + Sync,
    R: Threads + Sync,
    X: Send + Drop,
    B: FnOnce() -> X + Send + Drop,
>(rt: &R, tier: u64, records: &C, tables: &Tables<G>, meanwhile: B) -> (X, Option<u64>)
    requires few { length (C.listed records.now) ≤ TIER_SIZE }
    requires meanwhile { B.pre meanwhile }
    ensures meanwhile { B.post meanwhile result.0 }
    ensures first { MatchOption result.1 ((i : ℕ) → FitsAt G.rules tables.now tier (C.listed records.now) i)
        (IsFirstWrong G.rules tables.now tier (C.listed records.now)) }
{
    if records.count() <= FEW {
        let made = meanwhile();
        return (made, first_wrong::<G, C>(tier, records, tables));
    }
    first_of_all(rt, tier, records, tables, &AtomicUsize::new(0), meanwhile)
}
