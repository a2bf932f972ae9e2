//! Reading the file of a tier.
ghost use Rattle.std.specs.Prelude.{◌≡◌, ◌+◌, ◌*◌, ◌^◌, ◌<◌, ◌≤◌, ◌↔◌, IsTrue, IfOk, OnOk, IfErr, IsErrOf, IfSome, IfNone, length, Option, List, MatchResult};
ghost use Rattle.std.specs.Int.{to_le_bytes};
ghost use Rattle.gm_game.specs.declared.position.Solved.{Solved};
ghost use Rattle.gm_table.specs.RecordCodes.{width};
ghost use Rattle.gm_tierdb.specs.TierText.{IsTierText, IsTierText1, IsVersionText};
ghost use Rattle.gm_tierdb.specs.Refusals.{IsFirstBad, AreDecoded, HasHeader, Refuses, Refuses1, RefusesIn, records_part};
ghost use Rattle.gm_tierdb.specs.inner.Parts.{AreParts};
ghost use Rattle.gm_tierdb.specs.inner.Seals.{IsSealed, IsUnsealed, IsWhole, RefusesWhole, RefusesUnsealed};

use crate::file_error::FileError;
use crate::layout::{DIGEST_LEN, HEADER_LEN, MAGIC_LEN, NAME_END, TIER_END};
use crate::magic::{is_older, magic};
use crate::records::{HALVINGS, read_records, read_records_by};
use gm_game::game::Game;
use gm_game::position::Solved;
use gm_table::packed::Packed;
use gm_table::version::Version;
use sha2::{Digest, Sha256};
use std::alloc::Global;
use std::thread::Threads;

/// Returns the records of a tier, from its file: docs/FORMATS.md, "Tier file". Any bytes may be given. All is tested but the digest, which `is_sealed` tests,
/// so that another thread may do so; the records of a large file are read by four threads. `OutOfMemory` is the last reason: only bytes that are those of a
/// file get it. Takes memory as the records do.
///
/// Only the checker of gm_table tells whether the records are the true ones. A file of version 1 is refused as `OldVersion`; `decode_v1` reads it.
pub fn decode_unsealed<G: Game, R: Threads + Sync>(
    rt: &R,
    alloc: Global,
    tier: u64,
    bytes: &[u8],
) -> Result<Packed, FileError>
    ensures found { IfOk result (λ records. IsUnsealed G.rules tier records bytes.now) }
    ensures exact { (records : List (Option Solved)) → IsTierText G.rules tier records bytes.now
        → MatchResult result (λ found. found ≡ records) (λ e. e ≡ FileError.OutOfMemory) }
    ensures old { (records : List (Option Solved)) → IsTierText1 G.rules tier records bytes.now → IsErrOf result FileError.OldVersion }
    ensures refused { IfErr result (RefusesUnsealed G.rules tier bytes.now) }
{
    let parts = parts_of::<G>(Version::Two, tier, bytes)?;
    let read = read_records_by(
        rt,
        alloc,
        Version::Two,
        parts.records,
        parts.size,
        parts.size,
        HALVINGS,
    );
    match read_whole::<G>(Version::Two, tier, bytes, parts, read)? {
        Some(records) => Ok(records),
        None => Err(FileError::OutOfMemory),
    }
}

/// Returns whether bytes end with the digest of those before it, as the file of a tier does.
pub fn is_sealed(bytes: &[u8]) -> bool
    ensures { IsTrue result ↔ IsSealed bytes.now }
{
    let Some(len) = bytes.len().checked_sub(DIGEST_LEN) else {
        return false;
    };
    let (body, digest) = bytes.split_at(len);
    Sha256::digest(body).as_slice() == digest
}

/// Returns the records of a tier, from its file: docs/FORMATS.md, "Tier file". Any bytes may be given; `OutOfMemory` is the last reason. A file of version 1 is
/// refused as `OldVersion`.
pub fn decode<G: Game>(
    alloc: Global,
    tier: u64,
    bytes: &[u8],
) -> Result<Vec<Option<Solved>>, FileError>
    ensures found { IfOk result (λ v. IsTierText G.rules tier v.items bytes.now) }
    ensures exact { (records : List (Option Solved)) → IsTierText G.rules tier records bytes.now
        → MatchResult result (λ v. v.items ≡ records) (λ e. e ≡ FileError.OutOfMemory) }
    ensures old { (records : List (Option Solved)) → IsTierText1 G.rules tier records bytes.now → IsErrOf result FileError.OldVersion }
    ensures refused { IfErr result (Refuses G.rules tier bytes.now) }
{
    read_list::<G>(alloc, Version::Two, tier, bytes)
}

/// Returns the records of a tier, from its file of version 1: docs/FORMATS.md, "Version 1". It answers as `decode` does, but never `OldVersion`.
pub fn decode_v1<G: Game>(
    alloc: Global,
    tier: u64,
    bytes: &[u8],
) -> Result<Vec<Option<Solved>>, FileError>
    ensures found { IfOk result (λ v. IsTierText1 G.rules tier v.items bytes.now) }
    ensures exact { (records : List (Option Solved)) → IsTierText1 G.rules tier records bytes.now
        → MatchResult result (λ v. v.items ≡ records) (λ e. e ≡ FileError.OutOfMemory) }
    ensures refused { IfErr result (Refuses1 G.rules tier bytes.now) }
{
    read_list::<G>(alloc, Version::One, tier, bytes)
}

/// Returns the packed records of a tier, from its file of version 1. It answers as `decode_v1` does.
pub fn decode_packed_v1<G: Game>(
    alloc: Global,
    tier: u64,
    bytes: &[u8],
) -> Result<Packed, FileError>
    ensures found { IfOk result (λ records. IsTierText1 G.rules tier records bytes.now) }
    ensures exact { (records : List (Option Solved)) → IsTierText1 G.rules tier records bytes.now
        → MatchResult result (λ found. found ≡ records) (λ e. e ≡ FileError.OutOfMemory) }
    ensures refused { IfErr result (Refuses1 G.rules tier bytes.now) }
{
    read_file::<G>(alloc, Version::One, tier, bytes)
}

// Returns the records in a list, or why the bytes are refused.
fn read_list<G: Game>(
    alloc: Global,
    version: Version,
    tier: u64,
    bytes: &[u8],
) -> Result<Vec<Option<Solved>>, FileError>
    ensures found { IfOk result (λ v. IsVersionText version G.rules tier v.items bytes.now) }
    ensures refused { IfErr result (RefusesIn version G.rules tier bytes.now) }
{
    let records = read_file::<G>(alloc, version, tier, bytes)?;
    match records.to_vec(alloc) {
        Ok(list) => Ok(list),
        Err(_) => Err(FileError::OutOfMemory),
    }
}

// Returns the records, or why the bytes are refused.
fn read_file<G: Game>(
    alloc: Global,
    version: Version,
    tier: u64,
    bytes: &[u8],
) -> Result<Packed, FileError>
    ensures found { IfOk result (λ records. IsVersionText version G.rules tier records bytes.now) }
    ensures refused { IfErr result (RefusesIn version G.rules tier bytes.now) }
{
    let parts = parts_of::<G>(version, tier, bytes)?;
    let read = read_records(alloc, version, parts.records, parts.size, parts.size);
    let read = read_whole::<G>(version, tier, bytes, parts, read)?;
    if !is_sealed(bytes) {
        return Err(FileError::BadDigest);
    }
    match read {
        Some(records) => Ok(records),
        None => Err(FileError::OutOfMemory),
    }
}

// Returns the records that were read of these parts, if everything but the digest is valid; `None` if memory was refused.
fn read_whole<G: Game>(
    version: Version,
    tier: u64,
    bytes: &[u8],
    parts: Parts,
    read: Result<Option<Packed>, u64>,
) -> Result<Option<Packed>, FileError>
    requires parts { AreParts version G.rules tier bytes.now parts }
    requires found { IfOk read (AreDecoded version parts.size parts.records.now) }
    requires bad { IfErr read (IsFirstBad version parts.size parts.records.now) }
    ensures whole { IfOk result (λ _. IsWhole version G.rules tier bytes.now) }
    ensures found { IfOk result (λ read. AreDecoded version (G.rules.tier_size tier) (records_part version (G.rules.tier_size tier) bytes.now) read) }
    ensures refused { IfErr result (RefusesWhole version G.rules tier bytes.now) }
{
    let read = match read {
        Ok(read) => read,
        Err(index) => return Err(FileError::BadRecord { index }),
    };
    if parts.digest.len() != DIGEST_LEN {
        return Err(FileError::Trailing);
    }
    Ok(read)
}

// The place of the records of a file, their number, and the bytes after them.
#[derive(Clone, Copy)]
struct Parts<'a> {
    records: &'a [u8],
    size: usize,
    digest: &'a [u8],
}

// Returns the parts of a file that has a header and room for the records and the digest.
fn parts_of<G: Game>(version: Version, tier: u64, bytes: &[u8]) -> Result<Parts, FileError>
    ensures parts { IfOk result (AreParts version G.rules tier bytes.now) }
    ensures refused { IfErr result (RefusesWhole version G.rules tier bytes.now) }
{
    let size = G::tier_size(tier);
    check_header::<G>(version, tier, size, bytes)?;
    let Some(len) = records_len(version, size, bytes.len()) else {
        return Err(FileError::Truncated);
    };
    let size = size as usize;
    let (body, digest) = bytes.split_at(HEADER_LEN + len);
    let (_, records) = body.split_at(HEADER_LEN);
    Ok(Parts {
        records,
        size,
        digest,
    })
}

// Checks the header.
fn check_header<G: Game>(
    version: Version,
    tier: u64,
    size: u64,
    bytes: &[u8],
) -> Result<(), FileError>
    requires { size ≡ G.rules.tier_size tier }
    ensures ok { OnOk result (HasHeader version G.rules tier bytes.now) }
    ensures refused { IfErr result (RefusesWhole version G.rules tier bytes.now) }
{
    if bytes.len() < HEADER_LEN {
        return Err(FileError::Truncated);
    }
    let first = &bytes[..MAGIC_LEN];
    if is_older(version, first) {
        return Err(FileError::OldVersion);
    }
    if first != magic(version) {
        return Err(FileError::BadMagic);
    }
    if &bytes[MAGIC_LEN..NAME_END] != G::name().as_slice() {
        return Err(FileError::WrongGame);
    }
    if &bytes[NAME_END..TIER_END] != tier.to_le_bytes().as_slice() {
        return Err(FileError::WrongTier);
    }
    if &bytes[TIER_END..HEADER_LEN] != size.to_le_bytes().as_slice() {
        return Err(FileError::WrongSize);
    }
    Ok(())
}

// Returns the number of bytes of the records of a file; `None` if a file of this length has no room for them and the digest.
fn records_len(version: Version, size: u64, file_len: usize) -> Option<usize>
    ensures some { IfSome result (λ len. (len ≡ width version * size) × (72 + len ≤ file_len)) }
    ensures none { IfNone result (file_len < 72 + width version * size) }
{
    let len = version.record_len().checked_mul(size as usize)?;
    let room = file_len.checked_sub(HEADER_LEN + DIGEST_LEN)?;
    if len <= room { Some(len) } else { None }
}
