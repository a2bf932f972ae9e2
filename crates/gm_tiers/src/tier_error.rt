//! Why a game has no order of tiers.
ghost use Rattle.std.specs.Prelude.{◌≡◌};
ghost use Rattle.gm_tiers.specs.Limits.{tier_error_number};

use thiserror::Error;

/// Why a game has no order of tiers: memory ran out, more than 1,024 tiers are reached, or a tier that is reached has more than 16,777,216 positions.
#[derive(Clone, Copy, Debug, PartialEq, Eq, Error)]
pub enum TierError {
    #[error("out of memory")]
    OutOfMemory,
    #[error("too many tiers")]
    TooManyTiers,
    #[error("tier {tier} too large")]
    TierTooLarge { tier: u64 },
}

impl TierError {
    /// Returns the number of the error.
    pub fn number(&self) -> u8
        ensures { result ≡ tier_error_number self.now }
    {
        match self {
            TierError::OutOfMemory => 1,
            TierError::TooManyTiers => 2,
            TierError::TierTooLarge { .. } => 3,
        }
    }
}
