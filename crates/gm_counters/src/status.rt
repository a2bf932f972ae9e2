//! What is known of an index, and what a delivery makes of it.
ghost use Rattle.std.specs.Prelude.{◌≡◌, ◌+◌, ◌<◌, ◌^◌, ◌↔◌, IsTrue};
ghost use Rattle.gm_frontier.specs.Notes.{phase_of};
ghost use Rattle.gm_game.specs.Records.{solved};
ghost use Rattle.gm_counters.specs.Delivery.{next_status, is_settling, refused_number};
ghost use Rattle.gm_counters.specs.inner.Begin.{first_left};
ghost use Rattle.gm_counters.specs.inner.Queues.{HasPhase};
ghost use Rattle.gm_counters.specs.declared.status.Status.TheVariants.{Settled};

use gm_game::position::{End, Phase, Solved, Value};
use thiserror::Error;

/// What an index is at the start.
#[derive(Clone, Copy, Debug, PartialEq, Eq)]
pub enum Start {
    Hole,
    Ended(End),
    Inner { children: u8 },
}

/// What is known of an index.
#[derive(Clone, Copy, Debug, PartialEq, Eq)]
pub enum Status {
    Hole,
    Undecided,
    Settled(Solved),
}

/// What a delivery did.
#[derive(Clone, Copy, Debug, PartialEq, Eq)]
pub enum Delivery {
    Fresh,
    FreshSettled,
    Repeat,
}

/// Why a delivery was refused.
#[derive(Clone, Copy, Debug, PartialEq, Eq, Error)]
pub enum Refused {
    /// The note is not one of the present level.
    #[error("not of this level")]
    NotThisLevel,
    /// The parent's index is outside the shard's range.
    #[error("outside the shard")]
    NotMine,
    /// The index is not that of a parent of the note.
    #[error("not a parent")]
    NotAParent,
    /// The parent's remoteness would be above the limit.
    #[error("too far")]
    TooFar,
}

impl Refused {
    /// Returns the number of the refusal.
    pub fn number(&self) -> u8
        ensures { result ≡ refused_number self.now }
    {
        match self {
            Refused::NotThisLevel => 1,
            Refused::NotMine => 2,
            Refused::NotAParent => 3,
            Refused::TooFar => 4,
        }
    }
}

/// Returns the status after a note is delivered; `last`: no other child is missing.
pub(crate) fn next_status(old: Status, note: Solved, last: bool) -> Status
    requires { note.remoteness + 1 < 2 ^ 32 }
    ensures { result ≡ next_status old note last }
{
    match (old, note.value) {
        (Status::Undecided, Value::Lose) => one_above(Value::Win, note),
        (Status::Undecided, Value::Tie) => one_above(Value::Tie, note),
        (Status::Undecided, Value::Win) if last => one_above(Value::Lose, note),
        _ => old,
    }
}

// Returns the settled status of this value, one move above a note.
fn one_above(value: Value, note: Solved) -> Status
    requires { note.remoteness + 1 < 2 ^ 32 }
    ensures { result ≡ Settled (solved value (note.remoteness + 1)) }
{
    Status::Settled(Solved {
        value,
        remoteness: note.remoteness + 1,
    })
}

/// Returns the counter that an index begins with.
pub(crate) fn first_left(start: Start) -> u8
    ensures { result ≡ first_left start }
{
    match start {
        Start::Hole | Start::Ended(_) => 0,
        Start::Inner { children } => children,
    }
}

/// Returns the phase in which a value is settled.
pub fn phase_of(value: Value) -> Phase
    ensures { result ≡ phase_of value }
{
    match value {
        Value::Lose | Value::Draw | Value::Win => Phase::WinLose,
        Value::Tie => Phase::Ties,
    }
}

/// Returns whether a status is settled in the step from `old` to `next`.
pub(crate) fn is_settling(old: Status, next: Status) -> bool
    ensures { result ≡ is_settling old next }
{
    match (old, next) {
        (Status::Undecided, Status::Settled(_)) => true,
        _ => false,
    }
}

/// Returns whether a delivery settled its parent.
pub(crate) fn has_settled(answer: &Result<Delivery, Refused>) -> bool
    ensures { IsTrue result ↔ (answer.now ≡ Ok Delivery.FreshSettled) }
{
    match answer {
        Ok(Delivery::FreshSettled) => true,
        Ok(Delivery::Fresh | Delivery::Repeat) | Err(_) => false,
    }
}

/// Returns whether a status is a settled one of this phase.
pub(crate) fn has_phase(status: Status, phase: Phase) -> bool
    ensures { IsTrue result ↔ HasPhase phase status }
{
    match status {
        Status::Settled(solved) => phase_of(solved.value) == phase,
        Status::Hole | Status::Undecided => false,
    }
}
