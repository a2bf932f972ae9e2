//! Why a service ended before its input did.
ghost use Rattle.std.specs.Prelude.{◌≡◌};
ghost use Rattle.gm_json.specs.Asking.{ask_error_number};

use thiserror::Error;

/// Why a service ended before its input did.
#[derive(Clone, Copy, Debug, PartialEq, Eq, Error)]
pub enum AskError {
    #[error("out of memory")]
    OutOfMemory,
    /// A table that an answer rests on is not held.
    #[error("not held")]
    NotHeld,
    #[error("read failed")]
    ReadFailed,
    #[error("write failed")]
    WriteFailed,
    /// The reader has closed the output.
    #[error("output closed")]
    OutputClosed,
}

impl AskError {
    /// Returns the number of the error.
    pub fn number(&self) -> u8
        ensures { result ≡ ask_error_number self.now }
    {
        match self {
            AskError::OutOfMemory => 1,
            AskError::NotHeld => 2,
            AskError::ReadFailed => 3,
            AskError::WriteFailed => 4,
            AskError::OutputClosed => 5,
        }
    }
}
