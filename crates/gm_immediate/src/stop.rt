//! Why a pass over a tier stops.

use std::alloc::AllocError;

/// Why a pass over a tier stops before its end.
#[derive(Clone, Copy, Debug, PartialEq, Eq)]
pub enum Stop {
    /// Memory was refused.
    OutOfMemory,
    /// A move from a position of the tier leads to the tier itself.
    Stays,
    /// A position has a true remoteness one above the limit.
    TooFar,
}

impl From<AllocError> for Stop {
    ghost use Rattle.std.specs.Prelude.{◌≡◌};
    ghost use Rattle.gm_immediate.specs.declared.stop.Stop.TheVariants.{OutOfMemory};

    ghost from_gives = { λ _ e. e ≡ OutOfMemory };

    fn from(_refused: AllocError) -> Stop {
        Stop::OutOfMemory
    }
}
