//! The versions of a tier file.
ghost use Rattle.std.specs.Prelude.{◌≡◌, ◌<◌, ◌≤◌};
ghost use Rattle.gm_table.specs.RecordCodes.{width, step as step_of};

use crate::number::STEP;

/// The greatest remoteness of a record in a file of version 1.
pub const REMOTENESS_1: u32 = 4095;

/// The form of a tier file: docs/FORMATS.md, "Tier file". The two versions differ in their first bytes and in how a record is stored.
#[derive(Clone, Copy, Debug, PartialEq, Eq)]
pub enum Version {
    /// Records of two bytes, of remoteness at most 4,095.
    One,
    /// Records of four bytes.
    Two,
}

impl Version {
    /// Returns the bytes of a record.
    pub fn record_len(self) -> usize
        ensures value { result ≡ width self }
        ensures some { 0 < result }
        ensures few { result ≤ 4 }
    {
        match self {
            Version::One => 2,
            Version::Two => 4,
        }
    }

    /// Returns how many numbers of records there are for each code.
    pub fn step(self) -> u32
        ensures value { result ≡ step_of self }
        ensures some { 0 < result }
        ensures few { result ≤ STEP }
    {
        match self {
            Version::One => 1 << 12,
            Version::Two => STEP,
        }
    }
}
