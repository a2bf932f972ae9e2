//! The records of a file, from their bytes.
ghost use Rattle.std.specs.Prelude.{◌≡◌, ◌*◌, ◌^◌, ◌<◌, ◌++◌, Some, List, Option, IfOk, IfErr, IfSome, length};
ghost use Rattle.gm_game.specs.declared.position.Solved.{Solved as SolvedSpec};
ghost use Rattle.std.specs.Int.{to_le_bytes};
ghost use Rattle.gm_table.specs.RecordCodes.{record_width, width};
ghost use Rattle.std.specs.Thread.{IsSync};
ghost use Rattle.gm_tierdb.specs.Refusals.{IsFirstBad, AreDecoded};

use gm_table::number::record_in;
use gm_table::packed::Packed;
use gm_table::version::Version;
use std::alloc::Global;
use std::thread::{Threads, join};

// So few records are read by one thread.
const FEW: usize = 262_144;

/// How often records are halved, to be read by four threads.
pub(crate) const HALVINGS: usize = 2;

/// Reads as `read_records` does, by as many threads as there are halves of halves, if there are many records. The list has room for all of them, so that the
/// records of other halves are not moved as they are added.
#[cycle(halves)]
pub(crate) fn read_records_by<R: Threads + Sync>(
    rt: &R,
    alloc: Global,
    version: Version,
    bytes: &[u8],
    size: usize,
    room: usize,
    halvings: usize,
) -> Result<Option<Packed>, u64>
    requires { length bytes.now ≡ width version * size }
    ensures found { IfOk result (AreDecoded version size bytes.now) }
    ensures bad { IfErr result (IsFirstBad version size bytes.now) }
{
    if size <= FEW || halvings == 0 {
        return read_records(alloc, version, bytes, size, room);
    }
    let half = size / 2;
    let more = size - half;
    let (first, rest) = bytes.split_at(version.record_len() * half);
    let (front, back) = join(
        rt,
        || -> Result<Option<Packed>, u64>
            requires { IsSync R.row × (0 < halvings) × (length first.now ≡ width version * half) }
            ensures found { IfOk result (AreDecoded version half first.entry.now) }
            ensures bad { IfErr result (IsFirstBad version half first.entry.now) }
        { read_records_by(rt, alloc, version, first, half, room, halvings - 1) },
        || -> Result<Option<Packed>, u64>
            requires { IsSync R.row × (0 < halvings) × (length rest.now ≡ width version * more) }
            ensures found { IfOk result (AreDecoded version more rest.entry.now) }
            ensures bad { IfErr result (IsFirstBad version more rest.entry.now) }
        { read_records_by(rt, alloc, version, rest, more, more, halvings - 1) },
    );
    let front = front?;
    match back {
        Ok(back) => Ok(joined(front, back)),
        Err(index) => Err(half as u64 + index),
    }
}

// Returns the records of both, if both have records and there is memory for them.
fn joined(front: Option<Packed>, back: Option<Packed>) -> Option<Packed>
    ensures { IfSome result (λ all. (a : List (Option SolvedSpec)) × (b : List (Option SolvedSpec)) × (front ≡ Some a) × (back ≡ Some b) × (all ≡ a ++ b)) }
{
    let mut all = front?;
    match all.append(&back?) {
        Ok(()) => Some(all),
        Err(_) => None,
    }
}

/// Returns the records in the bytes, in a list with this room, or the first index without one; `None` if memory is refused for them.
pub(crate) fn read_records(
    alloc: Global,
    version: Version,
    bytes: &[u8],
    size: usize,
    room: usize,
) -> Result<Option<Packed>, u64>
    requires { length bytes.now ≡ width version * size }
    ensures found { IfOk result (AreDecoded version size bytes.now) }
    ensures bad { IfErr result (IsFirstBad version size bytes.now) }
{
    let mut records = match Packed::with_capacity(alloc, room) {
        Ok(records) => records,
        Err(_) => return without_memory(version, bytes, size),
    };
    let mut rest = bytes;
    for index in 0..size {
        let (record, more) = rest.split_at(version.record_len());
        match record_in(version, number_at(version, record)) {
            None => return Err(index as u64),
            Some(found) => match records.push(found) {
                Ok(()) => rest = more,
                Err(_) => return without_memory(version, bytes, size),
            },
        }
    }
    Ok(Some(records))
}

// Returns no records, or the first index without one.
fn without_memory(version: Version, bytes: &[u8], size: usize) -> Result<Option<Packed>, u64>
    requires { length bytes.now ≡ width version * size }
    ensures found { IfOk result (AreDecoded version size bytes.now) }
    ensures bad { IfErr result (IsFirstBad version size bytes.now) }
{
    let mut rest = bytes;
    for index in 0..size {
        let (record, more) = rest.split_at(version.record_len());
        match record_in(version, number_at(version, record)) {
            None => return Err(index as u64),
            Some(_found) => rest = more,
        }
    }
    Ok(None)
}

// Returns the number that the bytes of a record stand for.
fn number_at(version: Version, bytes: &[u8]) -> u32
    requires { length bytes.now ≡ width version }
    ensures bytes { to_le_bytes (record_width version) result ≡ bytes.now }
    ensures fits { result < 256 ^ width version }
{
    match version {
        Version::One => u32::from(u16::from_le_bytes([bytes[0], bytes[1]])),
        Version::Two => u32::from_le_bytes([bytes[0], bytes[1], bytes[2], bytes[3]]),
    }
}
