//! Writing the file of a tier.
ghost use Rattle.std.specs.Prelude.{◌≡◌, ◌↔◌, ◌≤◌, ◌*◌, ◌++◌, replicate, IsTrue, IfOk, OnOk, MatchOption, All};
ghost use Rattle.std.specs.List.{flat_map};
ghost use Rattle.std.specs.Int.{to_le_bytes, w64};
ghost use Rattle.gm_table.specs.RecordCodes.{width, record_bytes, IsStorable};
ghost use Rattle.gm_table.specs.declared.version.Version.TheVariants.{One};
ghost use Rattle.gm_table.specs.Tables.{record_at};
ghost use Rattle.gm_tierdb.specs.TierText.{IsTierText, IsTierText1, IsVersionText, AreUpTo, IsFor};

use crate::layout::{DIGEST_LEN, HEADER_LEN};
use crate::magic::magic;
use byteorder::{ByteOrder, LittleEndian};
use gm_game::game::Game;
use gm_game::limits::TIER_SIZE;
use gm_game::position::{Phase, Solved};
use gm_table::number::number_in;
use gm_table::table::Table;
use gm_table::version::{REMOTENESS_1, Version};
use sha2::{Digest, Sha256};
use std::alloc::{AllocError, Global};

/// Returns the file of a table's tier: docs/FORMATS.md, "Tier file". It has 72 bytes and 4 for each index of the tier.
pub fn encode<G: Game>(alloc: Global, table: &Table<G>) -> Result<Vec<u8>, AllocError>
    ensures { IfOk result (λ file. IsTierText G.rules table.now.tier table.now.records file.items) }
{
    encode_in(room_for(alloc, Version::Two, table)?, table)
}

/// Returns an empty list with room for the file of a table's tier.
pub fn room<G: Game>(alloc: Global, table: &Table<G>) -> Result<Vec<u8>, AllocError> {
    room_for(alloc, Version::Two, table)
}

/// Returns the file of a table's tier as `encode` does, in a list whose bytes it takes the place of. No more memory is needed if the list is that of `room`.
pub fn encode_in<G: Game>(file: Vec<u8>, table: &Table<G>) -> Result<Vec<u8>, AllocError>
    ensures { IfOk result (λ file. IsTierText G.rules table.now.tier table.now.records file.items) }
{
    write_file(file, Version::Two, table)
}

/// Returns the file of a table's tier in version 1: docs/FORMATS.md, "Version 1". It has 72 bytes and 2 for each index of the tier. No record of the table may
/// have a remoteness above 4,095, which `fits_v1` tests.
pub fn encode_v1<G: Game>(alloc: Global, table: &Table<G>) -> Result<Vec<u8>, AllocError>
    requires { AreUpTo REMOTENESS_1 table.now.records }
    ensures { IfOk result (λ file. IsTierText1 G.rules table.now.tier table.now.records file.items) }
{
    write_file(room_for(alloc, Version::One, table)?, Version::One, table)
}

/// Returns whether a file of version 1 can have the records of a table: whether the `greatest` of both phases is at most 4,095.
pub fn fits_v1<G: Game>(table: &Table<G>) -> bool
    ensures { IsTrue result ↔ AreUpTo REMOTENESS_1 table.now.records }
{
    is_within(table.greatest(Phase::WinLose)) && is_within(table.greatest(Phase::Ties))
}

// Returns whether a file of version 1 can have a remoteness.
fn is_within(greatest: Option<u32>) -> bool
    ensures { IsTrue result ↔ MatchOption greatest (Unit {0}) (λ n. n ≤ REMOTENESS_1) }
{
    match greatest {
        None => true,
        Some(remoteness) => remoteness <= REMOTENESS_1,
    }
}

// Returns an empty list with room for a file of this version.
fn room_for<G: Game>(
    alloc: Global,
    version: Version,
    table: &Table<G>,
) -> Result<Vec<u8>, AllocError> {
    let records = version.record_len() * table.size() as usize;
    Vec::with_capacity(alloc, HEADER_LEN + records + DIGEST_LEN)
}

// Returns the file of a table's tier in this version, in a list whose bytes it takes the place of.
fn write_file<G: Game>(
    mut file: Vec<u8>,
    version: Version,
    table: &Table<G>,
) -> Result<Vec<u8>, AllocError>
    requires { IsFor version table.now.records }
    ensures { IfOk result (λ file. IsVersionText version G.rules table.now.tier table.now.records file.items) }
{
    let size = table.size();
    file.clear();
    file.extend_from_slice(magic(version))?;
    file.extend_from_slice(&G::name())?;
    push_u64(&mut file, table.tier())?;
    push_u64(&mut file, size)?;
    push_records(&mut file, version, table)?;
    let digest = Sha256::digest(file.as_slice());
    file.extend_from_slice(&digest)?;
    Ok(file)
}

// Appends the records of a table.
fn push_records<G: Game>(
    file: &mut Vec<u8>,
    version: Version,
    table: &Table<G>,
) -> Result<(), AllocError>
    requires { All (IsStorable version) table.now.records }
    ensures { OnOk result (file.new.items ≡ file.old.items ++ flat_map (record_bytes version) table.now.records) }
{
    let mut index = 0;
    while index < table.size() {
        push_record(file, version, table, index)?;
        let next = table.skip_holes(index + 1);
        push_holes(file, version, next - (index + 1))?;
        index = next;
    }
    Ok(())
}

// Appends the records of this many indexes that have none.
fn push_holes(file: &mut Vec<u8>, version: Version, count: u64) -> Result<(), AllocError>
    requires { count ≤ TIER_SIZE }
    ensures { OnOk result (file.new.items ≡ file.old.items ++ replicate (width version * count) 0) }
{
    let bytes = version.record_len() * count as usize;
    file.resize(file.len() + bytes, 0)
}

// Appends the record of an index.
fn push_record<G: Game>(
    file: &mut Vec<u8>,
    version: Version,
    table: &Table<G>,
    index: u64,
) -> Result<(), AllocError>
    requires { IsStorable version (record_at table.now.records index) }
    ensures { OnOk result (file.new.items ≡ file.old.items ++ record_bytes version (record_at table.now.records index)) }
{
    match version {
        Version::One => {
            let number = number_in(Version::One, table.at(index));
            file.extend_from_slice(&(number as u16).to_le_bytes())
        }
        Version::Two => file.extend_from_slice(&table.number(index).to_le_bytes()),
    }
}

// Appends a number of eight bytes.
fn push_u64(file: &mut Vec<u8>, number: u64) -> Result<(), AllocError>
    ensures { OnOk result (file.new.items ≡ file.old.items ++ to_le_bytes w64 number) }
{
    let mut bytes = [0u8; 8];
    LittleEndian::write_u64(&mut bytes, number);
    file.extend_from_slice(&bytes)
}
