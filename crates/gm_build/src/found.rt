//! The true table of a tier, by its entry in a store.
ghost use Rattle.std.specs.Prelude.{◌≡◌, ◌+◌, ◌<◌, ◌≤◌, IsTrue, IfOk, IfErr, IfSome, MatchOption};
ghost use Rattle.gm_game.specs.Records.{IsTrueTable};
ghost use Rattle.gm_table.specs.Tables.{AreHeld};
ghost use Rattle.gm_tierdb.specs.StoreTexts.{AreSame};
ghost use Rattle.gm_build.specs.TrueTexts.{IsOldText};
ghost use Rattle.gm_build.specs.Findings.{IsOfTier, IsFound, IsEntryFound};
ghost use Rattle.gm_build.specs.Outcomes.{failures_in, IsTierError};

use crate::build_error::BuildError;
use crate::inspect::{TierState, check_beside, inspect_text, read_entry};
use gm_game::game::Game;
use gm_game::limits::{REMOTENESS, TIER_SIZE};
use gm_table::packed::Packed;
use gm_table::table::Table;
use gm_table::tables::Tables;
use gm_tierdb::decode::decode_packed_v1;
use gm_tierdb::file_error::FileError;
use gm_tierdb::store::Store;
use std::alloc::{AllocError, Global};
use std::fs::Files;
use std::thread::Threads;

/// What a tier's entry is.
#[derive(Drop)]
pub enum Found<G: Game> {
    /// The text of its true table.
    Current(Table<G>),
    /// The text of its true table in version 1.
    Old(Table<G>),
    /// No usable file.
    Nothing,
}

/// Reads the entry of a tier once. The child tiers are held.
pub(crate) fn load_tier<G: Game + Send + Sync, R: Threads + Files + Sync, S: Store>(
    rt: &R,
    alloc: Global,
    tier: u64,
    tables: &Tables<G>,
    store: &mut S,
) -> Result<Found<G>, BuildError>
    requires held { AreHeld G.rules tables.now tier }
    requires small { G.rules.tier_size tier ≤ TIER_SIZE }
    requires few { S.failed store.old < u64.MAX }
    ensures tier { IfOk result (IsOfTier tier) }
    ensures found { IsTrue S.READS → IfOk result (IsEntryFound G.rules (S.texts store.old) tier) }
    ensures same { IsTrue S.READS → AreSame (S.texts store.old) (S.texts store.new) }
    ensures error { IfErr result (IsTierError G.rules tier) }
    ensures count { S.failed store.new ≡ S.failed store.old + failures_in result }
{
    let text = match read_entry(rt, alloc, tier, store)? {
        Some(text) => text,
        None => return Ok(Found::Nothing),
    };
    match read_entry_table(rt, alloc, tier, text.as_slice(), tables) {
        Ok(found) => Ok(found),
        Err(_refused) => Err(BuildError::OutOfMemory),
    }
}

/// Returns whether the bytes of an entry are the text of the tier's true table, in either version, and that table. Takes time and memory in proportion to the
/// tier's size.
pub fn read_entry_table<G: Game + Send + Sync, R: Threads + Sync>(
    rt: &R,
    alloc: Global,
    tier: u64,
    bytes: &[u8],
    tables: &Tables<G>,
) -> Result<Found<G>, AllocError>
    requires held { AreHeld G.rules tables.now tier }
    requires small { G.rules.tier_size tier ≤ TIER_SIZE }
    ensures tier { IfOk result (IsOfTier tier) }
    ensures exact { IfOk result (IsFound G.rules tier bytes.now) }
{
    let mut table = None;
    let state = inspect_text(rt, alloc, tier, bytes, tables, &mut table)?;
    if let Some(current) = table {
        return Ok(Found::Current(current));
    }
    match state {
        TierState::NoFile(FileError::OldVersion) => {
            match old_table(rt, alloc, tier, bytes, tables) {
                Ok(Some(table)) => Ok(Found::Old(table)),
                Ok(None) => Ok(Found::Nothing),
                Err(refused) => Err(refused),
            }
        }
        _ => Ok(Found::Nothing),
    }
}

// Returns the true table of a tier, where these bytes are its text in version 1.
fn old_table<G: Game + Send + Sync, R: Threads + Sync>(
    rt: &R,
    alloc: Global,
    tier: u64,
    bytes: &[u8],
    tables: &Tables<G>,
) -> Result<Option<Table<G>>, AllocError>
    requires held { AreHeld G.rules tables.now tier }
    requires small { G.rules.tier_size tier ≤ TIER_SIZE }
    ensures tier { IfOk result (λ o. MatchOption o (Unit {0}) (λ table. table.tier ≡ tier)) }
    ensures exact { IfOk result (λ o. MatchOption o (IsOldText G.rules tier bytes.now → ⊥) (λ _. IsOldText G.rules tier bytes.now)) }
{
    match decode_packed_v1::<G>(alloc, tier, bytes) {
        Ok(records) => Ok(true_table(rt, tier, records, tables)),
        Err(FileError::OutOfMemory) => Err(AllocError),
        Err(_) => Ok(None),
    }
}

// Returns the table of these records if they are the true ones of a tier.
fn true_table<G: Game + Send + Sync, R: Threads + Sync>(
    rt: &R,
    tier: u64,
    records: Packed,
    tables: &Tables<G>,
) -> Option<Table<G>>
    requires held { AreHeld G.rules tables.now tier }
    requires small { G.rules.tier_size tier ≤ TIER_SIZE }
    ensures tier { IfSome result (λ table. table.tier ≡ tier) }
    ensures exact { MatchOption result (IsTrueTable G.rules REMOTENESS tier records → ⊥) (λ _. IsTrueTable G.rules REMOTENESS tier records) }
{
    // The digest is known: a file of version 1 is decoded only with its own.
    let (checked, _) = check_beside(rt, tier, records, tables, &[]);
    match checked {
        Ok(table) => Some(table),
        Err(_) => None,
    }
}
