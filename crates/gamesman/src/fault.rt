//! The reasons for refusing a line of words.

use gm_build::build_error::BuildError;
use gm_json::ask_error::AskError;
use gm_play::session_error::SessionError;
use gm_tiers::tier_error::TierError;
use std::alloc::AllocError;
use std::fmt::{self, Display};
use std::io::{self, ErrorKind};

/// A refusal, with the words that the program prints for it.
#[derive(Debug, Drop)]
pub enum Fault {
    NoSuchGame,
    NoSuchPosition,
    /// This line of the input, counted from 1, is not the text of a position.
    NoSuchPositionInLine { line: u64 },
    /// This line of the input, counted from 1, has no name of a game.
    NoSuchGameInLine { line: u64 },
    NoSuchTier { tier: u64 },
    NoSuchIndex { tier: u64, index: u64 },
    /// The index is not that of a legal position.
    NotLegal { tier: u64, index: u64 },
    /// The position with this index is legal but not canonical.
    NotCanonical { tier: u64, index: u64 },
    OutOfMemory(AllocError),
    NotBuilt(BuildError),
    /// The file of a tier is an intact one of another game. It is not overwritten.
    AnotherGames { tier: u64 },
    InputFailed,
    OutputFailed,
    /// The reader has closed the output: nothing more is printed.
    OutputClosed,
    TooMuchInput,
    /// There is no ordinary file with the engine's path, or it can't be read.
    EngineNotRead,
    /// The file has other bytes than digits of base64 and one line end, no digit, or more than `ENGINE_LEN` bytes.
    NotAnEngine,
}

impl Display for Fault {
    ghost use Rattle.gamesman.specs.Reasons.{words_for};

    ghost output = { words_for };

    fn fmt<W: fmt::Write>(&self, f: &mut fmt::Formatter<W>) -> fmt::Result {
        match self {
            Fault::NoSuchGame => write!(f, "no such game"),
            Fault::NoSuchPosition => write!(f, "no such position"),
            Fault::NoSuchPositionInLine { line } => write!(f, "no such position in line {line}"),
            Fault::NoSuchGameInLine { line } => write!(f, "no such game in line {line}"),
            Fault::NoSuchTier { tier } => write!(f, "no such tier {tier}"),
            Fault::NoSuchIndex { tier, index } => write!(f, "no such index {index} in tier {tier}"),
            Fault::NotLegal { tier, index } => write!(
                f,
                "index {index} of tier {tier} is no position"
            ),
            Fault::NotCanonical { tier, index } => write!(
                f,
                "index {index} of tier {tier} is not canonical"
            ),
            Fault::OutOfMemory(_) => write!(f, "out of memory"),
            Fault::NotBuilt(error) => write!(f, "{error}"),
            Fault::AnotherGames { tier } => write!(f, "tier {tier} is another game's"),
            Fault::InputFailed => write!(f, "input failed"),
            Fault::OutputFailed => write!(f, "output failed"),
            Fault::OutputClosed => write!(f, "output closed"),
            Fault::TooMuchInput => write!(f, "too much input"),
            Fault::EngineNotRead => write!(f, "engine not read"),
            Fault::NotAnEngine => write!(f, "file is no engine"),
        }
    }
}

impl From<AllocError> for Fault {
    ghost use Rattle.std.specs.Prelude.{◌≡◌};
    ghost use Rattle.gamesman.specs.declared.fault.Fault.TheVariants.{OutOfMemory};

    ghost from_gives = { λ error fault. fault ≡ OutOfMemory error };

    fn from(error: AllocError) -> Fault {
        Fault::OutOfMemory(error)
    }
}

// Only writes to standard output are converted here, so a failure is one of standard output.
impl From<io::Error> for Fault {
    ghost use Rattle.gamesman.specs.Outputs.{IsOutputFault};

    ghost from_gives = { λ _ fault. IsOutputFault fault };

    fn from(error: io::Error) -> Fault {
        match error.kind() {
            ErrorKind::BrokenPipe => Fault::OutputClosed,
            _ => Fault::OutputFailed,
        }
    }
}

impl From<SessionError> for Fault {
    ghost use Rattle.gamesman.specs.Plays.{IsSessionFault};

    ghost from_gives = { λ error fault. IsSessionFault error fault };

    fn from(error: SessionError) -> Fault {
        match error {
            SessionError::ReadFailed => Fault::InputFailed,
            SessionError::WriteFailed => Fault::OutputFailed,
            SessionError::TooMuchInput => Fault::TooMuchInput,
            SessionError::OutputClosed => Fault::OutputClosed,
        }
    }
}

// The program holds each tier of a game and its child tiers, so `NotHeld` doesn't occur.
impl From<AskError> for Fault {
    ghost use Rattle.gamesman.specs.Asks.{IsFaultOf};

    ghost from_gives = { λ error fault. IsFaultOf error fault };

    fn from(error: AskError) -> Fault {
        match error {
            AskError::OutOfMemory => Fault::OutOfMemory(AllocError),
            AskError::NotHeld => Fault::NoSuchPosition,
            AskError::ReadFailed => Fault::InputFailed,
            AskError::WriteFailed => Fault::OutputFailed,
            AskError::OutputClosed => Fault::OutputClosed,
        }
    }
}

impl From<TierError> for Fault {
    ghost use Rattle.std.specs.Prelude.{◌≡◌};
    ghost use Rattle.gm_build.specs.Outcomes.{of_tier_error};
    ghost use Rattle.gamesman.specs.declared.fault.Fault.TheVariants.{NotBuilt};

    ghost from_gives = { λ error fault. fault ≡ NotBuilt (of_tier_error error) };

    fn from(error: TierError) -> Fault {
        Fault::NotBuilt(BuildError::from(error))
    }
}
