//! Why a game is not built.
ghost use Rattle.std.specs.Prelude.{◌≡◌};
ghost use Rattle.gm_build.specs.Outcomes.{build_error_number};

use gm_backward::error::SolveError;
use gm_tiers::tier_error::TierError;
use std::alloc::AllocError;
use thiserror::Error;

/// Why a game is not built. The texts of the tiers before the one at which a build stopped are written, so the next build reuses them.
#[derive(Clone, Copy, Debug, PartialEq, Eq, Error)]
pub enum BuildError {
    #[error("out of memory")]
    OutOfMemory,
    /// A canonical legal position of the tier has a true remoteness one above the limit.
    #[error("too far in tier {tier}")]
    TooFar { tier: u64 },
    /// A read or a write of the tier's text failed.
    #[error("store failed at tier {tier}")]
    StoreFailed { tier: u64 },
    /// More tiers are reached than a game may have.
    #[error("too many tiers")]
    TooManyTiers,
    /// A tier that is reached has more positions than a tier may have.
    #[error("tier {tier} too large")]
    TierTooLarge { tier: u64 },
}

impl BuildError {
    /// Returns the number of the error.
    pub fn number(&self) -> u8
        ensures { result ≡ build_error_number self.now }
    {
        match self {
            BuildError::OutOfMemory => 1,
            BuildError::TooFar { .. } => 2,
            BuildError::StoreFailed { .. } => 3,
            BuildError::TooManyTiers => 4,
            BuildError::TierTooLarge { .. } => 5,
        }
    }
}

impl From<TierError> for BuildError {
    ghost use Rattle.std.specs.Prelude.{◌≡◌};
    ghost use Rattle.gm_build.specs.Outcomes.{of_tier_error};

    ghost from_gives = { λ error e. e ≡ of_tier_error error };

    fn from(error: TierError) -> BuildError {
        match error {
            TierError::OutOfMemory => BuildError::OutOfMemory,
            TierError::TooManyTiers => BuildError::TooManyTiers,
            TierError::TierTooLarge { tier } => BuildError::TierTooLarge { tier },
        }
    }
}

impl From<SolveError> for BuildError {
    ghost use Rattle.std.specs.Prelude.{◌≡◌};
    ghost use Rattle.gm_build.specs.Outcomes.{of_solve_error};

    ghost from_gives = { λ error e. e ≡ of_solve_error error };

    fn from(error: SolveError) -> BuildError {
        match error {
            SolveError::OutOfMemory => BuildError::OutOfMemory,
            SolveError::TooFar { tier } => BuildError::TooFar { tier },
        }
    }
}

impl From<AllocError> for BuildError {
    ghost use Rattle.std.specs.Prelude.{◌≡◌};
    ghost use Rattle.gm_build.specs.declared.build_error.BuildError.TheVariants.{OutOfMemory};

    ghost from_gives = { λ _ error. error ≡ OutOfMemory };

    fn from(_refused: AllocError) -> BuildError {
        BuildError::OutOfMemory
    }
}
