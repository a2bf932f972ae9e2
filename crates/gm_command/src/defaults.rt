//! The defaults for solving: each number, and the same number as the word that help shows.

/// The number of threads that solve a tier.
pub const WORKERS: usize = 4;

pub(crate) const WORKERS_WORD: &str = "4";

/// The number of parts that a tier is split into.
pub const SHARDS: usize = 4;

pub(crate) const SHARDS_WORD: &str = "4";

/// The number of notes that a thread takes at a time.
pub const PIECE: usize = 64;

pub(crate) const PIECE_WORD: &str = "64";
