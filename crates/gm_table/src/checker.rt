//! The checker: how records from anywhere become a table.
ghost use Rattle.std.specs.Prelude.{◌≡◌, ◌≢◌, ◌↔◌, ◌≤◌, ℕ, length, None, IfSome, IsOk, IfOk, IfErr, IsErrOf, IsOkUnless, MatchOption};
ghost use Rattle.gm_game.specs.Records.{IsTrueTable};
ghost use Rattle.gm_table.specs.Tables.{IsTable, AreHeld};
ghost use Rattle.gm_table.specs.inner.Outlines.{IsOutlineOf};
ghost use Rattle.gm_table.specs.Checks.{FitTables, FitsAt, IsFirstWrong, AreWrong, check_error_number};

use crate::blocks::{first_wrong, first_wrong_by};
use crate::outline::Outline;
use crate::packed::Packed;
use crate::records::{Listed, Records};
use crate::table::Table;
use crate::tables::Tables;
use gm_game::game::Game;
use gm_game::limits::{REMOTENESS, TIER_SIZE};
use gm_game::position::Solved;
use std::alloc::Global;
use std::thread::Threads;
use thiserror::Error;

/// Why records aren't the table of a tier.
#[derive(Clone, Copy, Debug, PartialEq, Eq, Error)]
pub enum CheckError {
    #[error("out of memory")]
    OutOfMemory,
    #[error("there are not as many records as the tier has indexes")]
    WrongSize,
    #[error("the record at index {index} doesn't follow from its children")]
    WrongRecord { index: u64 },
}

impl CheckError {
    /// Returns the number of the error.
    pub fn number(&self) -> u8
        ensures { result ≡ check_error_number self.now }
    {
        match self {
            CheckError::OutOfMemory => 1,
            CheckError::WrongSize => 2,
            CheckError::WrongRecord { .. } => 3,
        }
    }
}

/// Makes a table of records that fit: each canonical legal position has the value that follows from the records of its canonical children (or from its own
/// end), with a remoteness within the limit, and every other index has none. The tables of the child tiers are given; children in the tier itself are looked up
/// in the records, even if the tier has a table.
///
/// The size is tested first (`WrongSize`), then the records by index (`WrongRecord` names the first that doesn't fit), and memory is asked for last
/// (`OutOfMemory`).
pub fn check<G: Game>(
    alloc: Global,
    tier: u64,
    records: &[Option<Solved>],
    tables: &Tables<G>,
) -> Result<Table<G>, CheckError>
    requires children { AreHeld G.rules tables.now tier }
    requires is_small { G.rules.tier_size tier ≤ TIER_SIZE }

    // The table has the given records.
    ensures tier { IfOk result (λ t. t.tier ≡ tier) }
    ensures records { IfOk result (λ t. t.records ≡ records.now) }
    ensures table { IfOk result (IsTable G.rules) }

    // Unless memory runs out, records are accepted exactly if they fit, and those that fit are the true ones.
    ensures fit { IsOkUnless result CheckError.OutOfMemory ↔ FitTables G.rules tables.now tier records.now }
    ensures are_true { IsOkUnless result CheckError.OutOfMemory ↔ IsTrueTable G.rules REMOTENESS tier records.now }

    // Why records don't fit.
    ensures wrong_size { IsErrOf result CheckError.WrongSize ↔ (length records.now ≢ G.rules.tier_size tier) }
    ensures wrong_record { (i : ℕ) → IsErrOf result (CheckError.WrongRecord i)
        ↔ ((length records.now ≡ G.rules.tier_size tier) × IsFirstWrong G.rules tables.now tier records.now i) }
{
    let fault = fault(tier, &Listed { records }, tables);
    table_unless(alloc, tier, records, tables, fault)
}

/// Works as `check`, by threads: at most as many as there are processors.
pub fn check_by<G: Game + Send + Sync, R: Threads + Sync>(
    rt: &R,
    alloc: Global,
    tier: u64,
    records: &[Option<Solved>],
    tables: &Tables<G>,
) -> Result<Table<G>, CheckError>
    requires children { AreHeld G.rules tables.now tier }
    requires is_small { G.rules.tier_size tier ≤ TIER_SIZE }

    // The table has the given records.
    ensures tier { IfOk result (λ t. t.tier ≡ tier) }
    ensures records { IfOk result (λ t. t.records ≡ records.now) }
    ensures table { IfOk result (IsTable G.rules) }

    // Unless memory runs out, records are accepted exactly if they fit, and those that fit are the true ones.
    ensures fit { IsOkUnless result CheckError.OutOfMemory ↔ FitTables G.rules tables.now tier records.now }
    ensures are_true { IsOkUnless result CheckError.OutOfMemory ↔ IsTrueTable G.rules REMOTENESS tier records.now }

    // Why records don't fit.
    ensures wrong_size { IsErrOf result CheckError.WrongSize ↔ (length records.now ≢ G.rules.tier_size tier) }
    ensures wrong_record { (i : ℕ) → IsErrOf result (CheckError.WrongRecord i)
        ↔ ((length records.now ≡ G.rules.tier_size tier) × IsFirstWrong G.rules tables.now tier records.now i) }
{
    let (_, fault) = fault_by(rt, tier, &Listed { records }, tables, || {});
    table_unless(alloc, tier, records, tables, fault)
}

/// Checks as `check_by` does, but records that are packed already and become the table's. `OutOfMemory` never comes. Also returns what `meanwhile` returns. One
/// of the threads calls `meanwhile`, and then lays out the indexes of more than 65,536 records by place, which `Tables::insert` then need not do. If memory runs
/// out there, the table comes without them.
pub fn check_packed_by<
    G: Game + Send + Sync,
    R: Threads + Sync,
    X: Send + Drop,
    B: FnOnce() -> X + Send + Drop,
>(
    rt: &R,
    tier: u64,
    records: Packed,
    tables: &Tables<G>,
    meanwhile: B,
) -> (Result<Table<G>, CheckError>, X)
    requires children { AreHeld G.rules tables.now tier }
    requires is_small { G.rules.tier_size tier ≤ TIER_SIZE }
    requires meanwhile { B.pre meanwhile }
    ensures tier { IfOk result.0 (λ t. t.tier ≡ tier) }
    ensures records { IfOk result.0 (λ t. t.records ≡ records) }
    ensures table { IfOk result.0 (IsTable G.rules) }
    ensures are_true { IsOk result.0 ↔ IsTrueTable G.rules REMOTENESS tier records }
    ensures wrong { IfErr result.0 (AreWrong G.rules tables.now tier records) }
    ensures meanwhile { B.post meanwhile result.1 }
{
    let all = &records;
    let ((outline, made), fault) = fault_by(
        rt,
        tier,
        all,
        tables,
        move || -> (Outline, X)
            requires { B.pre meanwhile }
            ensures outline { IsOutlineOf all.entry.now result.0 }
            ensures meanwhile { B.post meanwhile result.1 }
        {
            let made = meanwhile();
            (Outline::with_runs(all), made)
        },
    );
    match fault {
        Some(why) => (Err(why), made),
        None => (Ok(Table::outlined(tier, records, outline)), made),
    }
}

// Returns the table of these records, or the reason for which they aren't those of the tier.
fn table_unless<G: Game>(
    alloc: Global,
    tier: u64,
    records: &[Option<Solved>],
    tables: &Tables<G>,
    fault: Option<CheckError>,
) -> Result<Table<G>, CheckError>
    requires children { AreHeld G.rules tables.now tier }
    requires is_small { G.rules.tier_size tier ≤ TIER_SIZE }
    requires none { fault ≡ None ↔ IsTrueTable G.rules REMOTENESS tier records.now }
    requires wrong { IfSome fault (AreWrong G.rules tables.now tier records.now) }

    // The table has the given records.
    ensures tier { IfOk result (λ t. t.tier ≡ tier) }
    ensures records { IfOk result (λ t. t.records ≡ records.now) }
    ensures table { IfOk result (IsTable G.rules) }

    // Unless memory runs out, records are accepted exactly if they fit, and those that fit are the true ones.
    ensures fit { IsOkUnless result CheckError.OutOfMemory ↔ FitTables G.rules tables.now tier records.now }
    ensures are_true { IsOkUnless result CheckError.OutOfMemory ↔ IsTrueTable G.rules REMOTENESS tier records.now }

    // Why records don't fit.
    ensures wrong_size { IsErrOf result CheckError.WrongSize ↔ (length records.now ≢ G.rules.tier_size tier) }
    ensures wrong_record { (i : ℕ) → IsErrOf result (CheckError.WrongRecord i)
        ↔ ((length records.now ≡ G.rules.tier_size tier) × IsFirstWrong G.rules tables.now tier records.now i) }
{
    tables.truth();
    if let Some(why) = fault {
        return Err(why);
    }
    match Table::from_true(alloc, tier, records) {
        Ok(table) => Ok(table),
        Err(_) => Err(CheckError::OutOfMemory),
    }
}

// Returns why records are not those of a tier, if they are not.
fn fault<G: Game, C: Records>(tier: u64, records: &C, tables: &Tables<G>) -> Option<CheckError>
    requires children { AreHeld G.rules tables.now tier }
    requires is_small { G.rules.tier_size tier ≤ TIER_SIZE }
    ensures none { result ≡ None ↔ IsTrueTable G.rules REMOTENESS tier (C.listed records.now) }
    ensures wrong { IfSome result (AreWrong G.rules tables.now tier (C.listed records.now)) }
{
    let first = if records.count() as u64 == G::tier_size(tier) {
        first_wrong::<G, C>(tier, records, tables)
    } else {
        None
    };
    fault_of(tier, records, tables, first)
}

// Works as `fault`, by threads, one of which calls `meanwhile` first. Also returns what that returns.
fn fault_by<
    G: Game + Send + Sync,
    C: Records + Sync,
    R: Threads + Sync,
    X: Send + Drop,
    B: FnOnce() -> X + Send + Drop,
>(rt: &R, tier: u64, records: &C, tables: &Tables<G>, meanwhile: B) -> (X, Option<CheckError>)
    requires children { AreHeld G.rules tables.now tier }
    requires is_small { G.rules.tier_size tier ≤ TIER_SIZE }
    requires meanwhile { B.pre meanwhile }
    ensures meanwhile { B.post meanwhile result.0 }
    ensures none { result.1 ≡ None ↔ IsTrueTable G.rules REMOTENESS tier (C.listed records.now) }
    ensures wrong { IfSome result.1 (AreWrong G.rules tables.now tier (C.listed records.now)) }
{
    let (made, first) = if records.count() as u64 == G::tier_size(tier) {
        first_wrong_by::<G, C, R, X, B>(rt, tier, records, tables, meanwhile)
    } else {
        (meanwhile(), None)
    };
    (made, fault_of(tier, records, tables, first))
}

// Returns why records aren't those of a tier, if this is the first wrong one when there are as many as the tier has indexes.
fn fault_of<G: Game, C: Records>(
    tier: u64,
    records: &C,
    tables: &Tables<G>,
    first: Option<u64>,
) -> Option<CheckError>
    requires children { AreHeld G.rules tables.now tier }
    requires first { length (C.listed records.now) ≡ G.rules.tier_size tier
        → MatchOption first ((i : ℕ) → FitsAt G.rules tables.now tier (C.listed records.now) i) (IsFirstWrong G.rules tables.now tier (C.listed records.now)) }
    ensures none { result ≡ None ↔ IsTrueTable G.rules REMOTENESS tier (C.listed records.now) }
    ensures wrong { IfSome result (AreWrong G.rules tables.now tier (C.listed records.now)) }
{
    tables.truth();
    if records.count() as u64 != G::tier_size(tier) {
        return Some(CheckError::WrongSize);
    }
    match first {
        Some(index) => Some(CheckError::WrongRecord { index }),
        None => None,
    }
}
