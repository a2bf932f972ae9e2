//! The files of Countdown from 10 in each version: docs/FORMATS.md.
use crate::countdowns::{VALUES, countdown, record};
use crate::expect::{expect, expect_eq, must};
use gm_game::position::{Solved, Value};
use gm_table::checker::{CheckError, check};
use gm_table::tables::Tables;
use gm_tierdb::decode::{decode, decode_v1};
use gm_tierdb::encode::{encode, encode_v1, fits_v1};
use gm_tierdb::file_error::FileError;
use gm_toys::chain::Chain;
use gm_toys::countdown::Countdown;
use sha2::{Digest, Sha256};
use std::alloc::Global;
use std::process::Abort;

type Game = Countdown<10>;

// A version of the format: that of today, and version 1.
#[derive(Clone, Copy, Debug, PartialEq)]
enum Version {
    Today,
    First,
}

const VERSIONS: [Version; 2] = [Version::Today, Version::First];

// The file in the version of today: `file_of_countdown`. It has a front of 40 bytes, eleven records of four, and the digest.
const FILE: [u8; 116] = *b"GMTIER02countdown\0\0\0\0\0\0\0\0\0\0\0\0\0\0\0\x0b\0\0\0\0\0\0\0\
    \0\0\x10\0\x01\0\x40\0\x01\0\x40\0\x02\0\x10\0\x03\0\x40\0\x03\0\x40\0\x04\0\x10\0\x05\0\x40\0\
    \x05\0\x40\0\x06\0\x10\0\x07\0\x40\0\x2e\xf8\x81\x3d\x47\x8f\xdc\xe4\xab\xd4\x0b\xf6\
    \x24\x82\x9f\x9a\x01\xbd\x2c\x77\x00\xa0\xac\x79\x69\x57\x2a\x95\x4a\xe3\x9b\xd4";

// The file in version 1: `old_file_of_countdown`. It has a front of 40 bytes, eleven records of two, and the digest.
const OLD_FILE: [u8; 94] = *b"GMTIER01countdown\0\0\0\0\0\0\0\0\0\0\0\0\0\0\0\x0b\0\0\0\0\0\0\0\
    \0\x10\x01\x40\x01\x40\x02\x10\x03\x40\x03\x40\x04\x10\x05\x40\x05\x40\x06\x10\x07\x40\
    \xb9\xdf\x1f\xd1\x0f\x8b\x71\x5f\xfd\xae\xaf\xac\xde\x68\x86\xf7\
    \x91\xd7\x0c\xb2\xb7\xc0\x03\x1d\x4f\xcd\xeb\x40\xa4\x4c\xa2\xae";

impl Version {
    // Returns the file of Countdown from 10.
    fn file(self) -> &'static [u8] {
        match self {
            Version::Today => &FILE,
            Version::First => &OLD_FILE,
        }
    }

    // Reads a file of Countdown.
    fn decoded(self, alloc: Global, file: &[u8]) -> Result<Vec<Option<Solved>>, FileError> {
        match self {
            Version::Today => decode::<Game>(alloc, 0, file),
            Version::First => decode_v1::<Game>(alloc, 0, file),
        }
    }

    // Returns the reason why these bytes are refused as the file of Countdown.
    fn refusal(self, alloc: Global, file: &[u8]) -> Option<FileError> {
        self.decoded(alloc, file).err()
    }

    // Returns the file with the bytes from `at` on changed, and with a fresh digest.
    fn with_bytes(self, rt: &impl Abort, alloc: Global, at: usize, bytes: &[u8]) -> Vec<u8> {
        let (front, _digest) = self
            .file()
            .split_last_chunk::<32>()
            .unwrap_or((&[], &[0; 32]));
        let mut file = must(rt, Vec::from_slice(alloc, front));
        for (place, byte) in file.as_mut_slice().iter_mut().skip(at).zip(bytes) {
            *place = *byte;
        }
        let digest = Sha256::digest(file.as_slice());
        must(rt, file.extend_from_slice(&digest));
        file
    }

    // Returns the reason why the file is refused if one of its bytes is changed. In a file of today a record may then have a code
    // that no record has, since its highest byte is changed.
    fn why_changed(self, at: usize) -> FileError {
        match at {
            0..=7 => FileError::BadMagic,
            8..=23 => FileError::WrongGame,
            24..=31 => FileError::WrongTier,
            32..=39 => FileError::WrongSize,
            40..=83 if self == Version::Today && at % 4 == 3 => FileError::BadRecord {
                index: (at as u64 - 40) / 4,
            },
            _ => FileError::BadDigest,
        }
    }
}

#[test]
fn a_table_is_written(rt: HostRuntime) {
    let table = countdown(&rt, rt.alloc());
    expect(&rt, fits_v1(&table));
    let files = (encode(rt.alloc(), &table), encode_v1(rt.alloc(), &table));
    drop(table);
    expect_eq(&rt, must(&rt, files.0).as_slice(), Version::Today.file());
    expect_eq(&rt, must(&rt, files.1).as_slice(), Version::First.file());
}

#[test]
fn a_file_is_read_in_its_version_only(rt: HostRuntime) {
    for version in VERSIONS {
        let found = must(&rt, version.decoded(rt.alloc(), version.file()));
        expect_eq(&rt, found.as_slice(), VALUES.map(record).as_slice());
    }
    let today = Version::Today.refusal(rt.alloc(), Version::First.file());
    expect_eq(&rt, today, Some(FileError::OldVersion));
    let old = Version::First.refusal(rt.alloc(), Version::Today.file());
    expect_eq(&rt, old, Some(FileError::BadMagic));
}

// The place of the first changed byte, the new bytes, and the reason for the refusal.
const CHANGES: &[(usize, &[u8], FileError)] = &[
    (0, b"X", FileError::BadMagic),
    (16, b"m", FileError::WrongGame),
    (24, b"\x01", FileError::WrongTier),
    (32, b"\x0c", FileError::WrongSize),
    (40, b"\x03\x00\x20\x00", FileError::BadRecord { index: 0 }),
    (80, b"\x00\x00\x50\x00", FileError::BadRecord { index: 10 }),
];

#[test]
fn changed_files_are_refused(rt: HostRuntime) {
    for (at, bytes, why) in CHANGES {
        let file = Version::Today.with_bytes(&rt, rt.alloc(), *at, bytes);
        let found = Version::Today.refusal(rt.alloc(), file.as_slice());
        expect_eq(&rt, (at, found), (at, Some(*why)));
    }
    // A draw in 3 as the first record.
    let old = Version::First.with_bytes(&rt, rt.alloc(), 40, b"\x03\x20");
    let found = Version::First.refusal(rt.alloc(), old.as_slice());
    expect_eq(&rt, found, Some(FileError::BadRecord { index: 0 }));
    let mut longer = must(&rt, Vec::from_slice(rt.alloc(), &FILE));
    must(&rt, longer.push(0));
    let found = Version::Today.refusal(rt.alloc(), longer.as_slice());
    expect_eq(&rt, found, Some(FileError::Trailing));
    let other_tier = decode::<Game>(rt.alloc(), 1, &FILE).err();
    expect_eq(&rt, other_tier, Some(FileError::WrongTier));
}

// Checks a file, cut before a byte or with that byte changed.
fn check_found(rt: &impl Abort, alloc: Global, version: Version, at: usize) {
    let cut = version.file().get(..at).unwrap_or(&[]);
    let found = version.refusal(alloc, cut);
    let truncated = Some(FileError::Truncated);
    expect_eq(rt, (version, at, found), (version, at, truncated));
    let mut file = must(rt, Vec::from_slice(alloc, version.file()));
    if let Some(byte) = file.get_mut(at) {
        *byte ^= 1;
    }
    let changed = version.refusal(alloc, file.as_slice());
    let today = Version::Today.refusal(alloc, file.as_slice());
    drop(file);
    let why = Some(version.why_changed(at));
    expect_eq(rt, (version, at, changed), (version, at, why));
    // Read as one of today, a file of version 1 is refused as old, independently of the bytes after the first eight.
    let is_old = version == Version::First && at >= 8;
    let why_today = if is_old {
        Some(FileError::OldVersion)
    } else {
        why
    };
    expect_eq(rt, (version, at, today), (version, at, why_today));
}

#[test]
fn files_that_are_cut_or_changed(rt: HostRuntime) {
    for version in VERSIONS {
        for at in 0..version.file().len() {
            check_found(&rt, rt.alloc(), version, at);
        }
    }
}

// Checks a file with these bits of one record changed, and with a fresh digest. It is read, and its records are not true.
fn expect_false(rt: &impl Abort, alloc: Global, index: u8, bits: u8) {
    let at = 40 + 4 * usize::from(index);
    let low = FILE.get(at).map_or(0, |byte| byte ^ bits);
    let file = Version::Today.with_bytes(rt, alloc, at, &[low]);
    let records = must(rt, decode::<Game>(alloc, 0, file.as_slice()));
    let tables: Tables<Game> = Tables::new(alloc);
    let found = check(alloc, 0, records.as_slice(), &tables).err();
    drop((file, records, tables));
    let index = u64::from(index);
    expect_eq(rt, found, Some(CheckError::WrongRecord { index }));
}

#[test]
fn a_new_digest_does_not_make_records_true(rt: HostRuntime) {
    for index in 0..11u8 {
        expect_false(&rt, rt.alloc(), index, 1);
    }
    // The win in 7 of the last record becomes one in 8.
    expect_false(&rt, rt.alloc(), 10, 15);
}

// Tests whether version 1 can hold the table of a chain. Each of its positions is one move further from the end.
fn chain_fits<const N: u32>(rt: &impl Abort, alloc: Global) -> bool {
    let mut records = Vec::new(alloc);
    for remoteness in 0..=N {
        let value = if remoteness % 2 == 0 {
            Value::Lose
        } else {
            Value::Win
        };
        must(rt, records.push(record((value, remoteness))));
    }
    let tables: Tables<Chain<N>> = Tables::new(alloc);
    expect(rt, tables.has_children(0) && N < 16_777_216);
    let table = check(alloc, 0, records.as_slice(), &tables);
    drop((records, tables));
    let table = must(rt, table);
    fits_v1(&table)
}

#[test]
fn version_1_ends_at_4095(rt: HostRuntime) {
    expect(&rt, chain_fits::<4095>(&rt, rt.alloc()));
    expect(&rt, !chain_fits::<4096>(&rt, rt.alloc()));
}

#[test]
fn file_errors_have_numbers(rt: HostRuntime) {
    for (error, number) in [
        (FileError::OutOfMemory, 1),
        (FileError::Truncated, 2),
        (FileError::BadMagic, 3),
        (FileError::WrongGame, 4),
        (FileError::WrongTier, 5),
        (FileError::WrongSize, 6),
        (FileError::BadRecord { index: 5 }, 7),
        (FileError::Trailing, 8),
        (FileError::BadDigest, 9),
        (FileError::OldVersion, 10),
    ] {
        expect_eq(&rt, (error, error.number()), (error, number));
    }
}
