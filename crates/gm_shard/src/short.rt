//! Why a level is not closed.
ghost use Rattle.std.specs.Prelude.{◌≡◌};

use thiserror::Error;

/// Fewer pairs were delivered than expected.
#[derive(Clone, Copy, Debug, PartialEq, Eq, Error)]
#[error("{delivered} of {expected} pairs delivered")]
pub struct Short {
    pub delivered: u64,
    pub expected: u64,
}

impl Short {
    /// Returns the number of the error.
    pub fn number(&self) -> u8
        ensures { result ≡ 1 }
    {
        1
    }
}
