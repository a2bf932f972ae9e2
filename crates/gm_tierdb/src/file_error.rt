//! Why bytes are not the file of a tier.
ghost use Rattle.std.specs.Prelude.{◌≡◌};
ghost use Rattle.gm_tierdb.specs.Refusals.{file_error_number};

use thiserror::Error;

/// Why bytes are not the file of a tier. docs/FORMATS.md has the order in which they are tested.
#[derive(Clone, Copy, Debug, PartialEq, Eq, Error)]
pub enum FileError {
    #[error("out of memory")]
    OutOfMemory,
    #[error("truncated")]
    Truncated,
    #[error("bad magic")]
    BadMagic,
    #[error("wrong game")]
    WrongGame,
    #[error("wrong tier")]
    WrongTier,
    #[error("wrong size")]
    WrongSize,
    #[error("bad record {index}")]
    BadRecord { index: u64 },
    #[error("trailing bytes")]
    Trailing,
    #[error("bad digest")]
    BadDigest,
    /// The file is of version 1, which `decode_v1` reads.
    #[error("old version")]
    OldVersion,
}

impl FileError {
    /// Returns the number of the error.
    pub fn number(&self) -> u8
        ensures { result ≡ file_error_number self.now }
    {
        match self {
            FileError::OutOfMemory => 1,
            FileError::Truncated => 2,
            FileError::BadMagic => 3,
            FileError::WrongGame => 4,
            FileError::WrongTier => 5,
            FileError::WrongSize => 6,
            FileError::BadRecord { .. } => 7,
            FileError::Trailing => 8,
            FileError::BadDigest => 9,
            FileError::OldVersion => 10,
        }
    }
}
