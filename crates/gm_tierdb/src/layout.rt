//! The layout of the file of a tier.

use gm_game::limits::TIER_SIZE;

/// The bytes before the game's name.
pub(crate) const MAGIC_LEN: usize = 8;

/// The bytes up to the end of the game's name.
pub(crate) const NAME_END: usize = 24;

/// The bytes up to the end of the tier's number.
pub(crate) const TIER_END: usize = 32;

/// The bytes before the records.
pub(crate) const HEADER_LEN: usize = 40;

/// The bytes of the widest record.
pub(crate) const RECORD_LEN: usize = 4;

/// The bytes of the digest after the records.
pub(crate) const DIGEST_LEN: usize = 32;

/// The bytes of the longest file.
pub(crate) const FILE_LEN: usize = HEADER_LEN + RECORD_LEN * TIER_SIZE as usize + DIGEST_LEN;
