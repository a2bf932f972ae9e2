//! Why a session ends early.
ghost use Rattle.std.specs.Prelude.{◌≡◌};
ghost use Rattle.gm_play.specs.Sessions.{session_error_number};

use thiserror::Error;

/// The reason why a session ended early.
#[derive(Clone, Copy, Debug, PartialEq, Eq, Error)]
pub enum SessionError {
    #[error("input failed")]
    ReadFailed,
    #[error("output failed")]
    WriteFailed,
    /// The input has more bytes than one session reads.
    #[error("too much input")]
    TooMuchInput,
    /// The reader has closed the output.
    #[error("output closed")]
    OutputClosed,
}

impl SessionError {
    /// Returns the number of the error.
    pub fn number(&self) -> u8
        ensures { result ≡ session_error_number self.now }
    {
        match self {
            SessionError::ReadFailed => 1,
            SessionError::WriteFailed => 2,
            SessionError::TooMuchInput => 3,
            SessionError::OutputClosed => 4,
        }
    }
}
