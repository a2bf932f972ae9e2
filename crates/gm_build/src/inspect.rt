//! What a tier's entry in a store is found to be.
ghost use Rattle.std.specs.Prelude.{◌≡◌, ◌+◌, ◌<◌, ◌≤◌, ◌↔◌, IsTrue, IsOk, IfOk, IfErr, option_map};
ghost use Rattle.gm_table.specs.Tables.{AreHeld, IsTable};
ghost use Rattle.gm_table.specs.Checks.{AreWrong};
ghost use Rattle.gm_game.specs.Records.{IsTrueTable};
ghost use Rattle.gm_tierdb.specs.StoreTexts.{AreSame, store_view};
ghost use Rattle.gm_tierdb.specs.inner.Seals.{IsSealed};
ghost use Rattle.gm_build.specs.Inspections.{IsInspected, IsStateRead, IsTableFor};
ghost use Rattle.gm_build.specs.Outcomes.{failures_in, IsReadError};

use crate::build_error::BuildError;
use gm_game::game::Game;
use gm_game::limits::{REMOTENESS, TIER_SIZE};
use gm_table::checker::{CheckError, check_packed_by};
use gm_table::packed::Packed;
use gm_table::table::Table;
use gm_table::tables::Tables;
use gm_tierdb::decode::{decode_unsealed, is_sealed};
use gm_tierdb::file_error::FileError;
use gm_tierdb::store::Store;
use gm_tierdb::store_error::StoreError;
use std::alloc::{AllocError, Global};
use std::fs::Files;
use std::thread::Threads;

/// The state of a tier's entry.
#[derive(Clone, Copy, Debug)]
pub enum TierState {
    /// The text of the tier's true table.
    Right,
    /// The store has no entry.
    Missing,
    /// The table of a child tier isn't held, so the entry isn't read.
    NotChecked,
    /// The bytes are no text of a tier file of the present version.
    NoFile(FileError),
    /// They are the text of records that are not the tier's.
    NoTable(CheckError),
}

/// Reads the entry of a tier once, and returns its state, which is not `NotChecked`. It writes nothing. The tables of the child tiers are given. Unless memory
/// runs out, the entry determines the answer. Then `table` has the tier's table if the entry is right.
///
/// The bytes are decoded first, and then the records are checked in turn: `NoFile` and `NoTable` have the first reason that applies.
pub fn inspect_tier<G: Game + Send + Sync, R: Threads + Files + Sync, S: Store>(
    rt: &R,
    alloc: Global,
    tier: u64,
    tables: &Tables<G>,
    store: &mut S,
    table: &mut Option<Table<G>>,
) -> Result<TierState, BuildError>
    requires held { AreHeld G.rules tables.now tier }
    requires small { G.rules.tier_size tier ≤ TIER_SIZE }
    requires few { S.failed store.old < u64.MAX }
    // What was read is the entry, if the store promises its reads.
    ensures found { IfOk result (IsStateRead G.rules tables.now (store_view S.READS (S.texts store.old)) tier) }
    ensures table { IfOk result (λ state. IsTableFor tier state table.new) }
    ensures same { IsTrue S.READS → AreSame (S.texts store.old) (S.texts store.new) }
    ensures error { IfErr result (IsReadError tier) }
    ensures count { S.failed store.new ≡ S.failed store.old + failures_in result }
{
    let text = match read_entry(rt, alloc, tier, store)? {
        Some(text) => text,
        None => {
            *table = None;
            return Ok(TierState::Missing);
        }
    };
    match inspect_text(rt, alloc, tier, text.as_slice(), tables, table) {
        Ok(state) => Ok(state),
        Err(_refused) => Err(BuildError::OutOfMemory),
    }
}

/// Reads the entry of a tier once.
pub(crate) fn read_entry<R: Files, S: Store>(
    rt: &R,
    alloc: Global,
    tier: u64,
    store: &mut S,
) -> Result<Option<Vec<u8>>, BuildError>
    requires { S.failed store.old < u64.MAX }
    ensures text { IsTrue S.READS → IfOk result (λ o. option_map (λ v. v.items) o ≡ S.texts store.old tier) }
    ensures same { IsTrue S.READS → AreSame (S.texts store.old) (S.texts store.new) }
    ensures error { IfErr result (IsReadError tier) }
    ensures count { S.failed store.new ≡ S.failed store.old + failures_in result }
{
    match store.read(rt, alloc, tier) {
        Ok(text) => Ok(text),
        Err(StoreError::OutOfMemory) => Err(BuildError::OutOfMemory),
        Err(StoreError::Failed) => Err(BuildError::StoreFailed { tier }),
    }
}

/// Returns the state of an entry by its bytes: they are decoded first, and then the records are checked in turn, by the tables of the child tiers, while
/// another thread takes the digest of a long one. `NoFile` and `NoTable` have the first reason that applies; `Missing` and `NotChecked` are never the answer.
/// Then `table` has the tier's table if the entry is right. Takes time and memory in proportion to the tier's size.
pub fn inspect_text<G: Game + Send + Sync, R: Threads + Sync>(
    rt: &R,
    alloc: Global,
    tier: u64,
    bytes: &[u8],
    tables: &Tables<G>,
    table: &mut Option<Table<G>>,
) -> Result<TierState, AllocError>
    requires held { AreHeld G.rules tables.now tier }
    requires small { G.rules.tier_size tier ≤ TIER_SIZE }
    ensures exact { IfOk result (IsInspected G.rules tables.now tier bytes.now) }
    ensures table { IfOk result (λ state. IsTableFor tier state table.new) }
{
    *table = None;
    let records = match decode_unsealed::<G, R>(rt, alloc, tier, bytes) {
        Ok(records) => records,
        Err(FileError::OutOfMemory) => return Err(AllocError),
        Err(why) => return Ok(TierState::NoFile(why)),
    };
    let (checked, sealed) = check_beside(rt, tier, records, tables, bytes);
    if !sealed {
        return Ok(TierState::NoFile(FileError::BadDigest));
    }
    match checked {
        Ok(right) => {
            *table = Some(right);
            Ok(TierState::Right)
        }
        Err(why) => Ok(TierState::NoTable(why)),
    }
}

/// Checks the records of a tier, while another thread finds whether these bytes end in their digest. `OutOfMemory` never comes.
pub(crate) fn check_beside<G: Game + Send + Sync, R: Threads + Sync>(
    rt: &R,
    tier: u64,
    records: Packed,
    tables: &Tables<G>,
    bytes: &[u8],
) -> (Result<Table<G>, CheckError>, bool)
    requires held { AreHeld G.rules tables.now tier }
    requires small { G.rules.tier_size tier ≤ TIER_SIZE }
    ensures tier { IfOk result.0 (λ t. t.tier ≡ tier) }
    ensures records { IfOk result.0 (λ t. t.records ≡ records) }
    ensures table { IfOk result.0 (IsTable G.rules) }
    ensures are_true { IsOk result.0 ↔ IsTrueTable G.rules REMOTENESS tier records }
    ensures wrong { IfErr result.0 (AreWrong G.rules tables.now tier records) }
    ensures sealed { IsTrue result.1 ↔ IsSealed bytes.now }
{
    check_packed_by(
        rt,
        tier,
        records,
        tables,
        move || -> bool
            ensures { IsTrue result ↔ IsSealed bytes.entry.now }
        { is_sealed(bytes) },
    )
}
