//! Why a tier is not solved.
ghost use Rattle.std.specs.Prelude.{◌≡◌};
ghost use Rattle.gm_backward.specs.Solving.{solve_error_number};

use std::alloc::AllocError;
use thiserror::Error;

/// Why a tier is not solved.
#[derive(Clone, Copy, Debug, PartialEq, Eq, Error)]
pub enum SolveError {
    #[error("out of memory")]
    OutOfMemory,
    /// A canonical legal position of the tier has a true remoteness one above the limit.
    #[error("too far in tier {tier}")]
    TooFar { tier: u64 },
}

impl SolveError {
    /// Returns the number of the error.
    pub fn number(&self) -> u8
        ensures { result ≡ solve_error_number self.now }
    {
        match self {
            SolveError::OutOfMemory => 1,
            SolveError::TooFar { .. } => 2,
        }
    }
}

impl From<AllocError> for SolveError {
    ghost use Rattle.std.specs.Prelude.{◌≡◌};
    ghost use Rattle.gm_backward.specs.declared.error.SolveError.TheVariants.{OutOfMemory};

    ghost from_gives = { λ _ e. e ≡ OutOfMemory };

    fn from(_refused: AllocError) -> SolveError {
        SolveError::OutOfMemory
    }
}
