//! Why a store did not do what it was asked.
ghost use Rattle.std.specs.Prelude.{◌≡◌};
ghost use Rattle.gm_tierdb.specs.StoreTexts.{error_number};

use thiserror::Error;

/// Why a store did not do what it was asked.
#[derive(Clone, Copy, Debug, PartialEq, Eq, Error)]
pub enum StoreError {
    #[error("out of memory")]
    OutOfMemory,
    #[error("failed")]
    Failed,
}

impl StoreError {
    /// Returns the number of the error.
    pub fn number(&self) -> u8
        ensures { result ≡ error_number self.now }
    {
        match self {
            StoreError::OutOfMemory => 1,
            StoreError::Failed => 2,
        }
    }
}
