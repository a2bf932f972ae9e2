//! Reasons for refusals.
ghost use Rattle.std.specs.Prelude.{◌≡◌};
ghost use Rattle.gm_engine.specs.Replies.{refusal_number};

/// The reason why there is no answer.
#[derive(Clone, Copy, Debug, PartialEq, Eq)]
pub enum Refusal {
    /// There is no memory left.
    Memory,
    /// A tier comes before one of its child tiers, or is too large.
    Order,
    /// The bytes are not the records of the tiers.
    Records,
    /// The remoteness of a position of the tier is too great for a record.
    TooFar,
    /// There is less room than the answer takes, or the room for the records has another size.
    Room,
    /// No canonical position has this index of the tier.
    Position,
    /// A line names a position of a tier that is not among the given ones.
    NotSolved,
}

impl Refusal {
    /// Returns the number of the refusal.
    pub fn number(&self) -> u32
        ensures { result ≡ refusal_number self.now }
    {
        match self {
            Refusal::Memory => 1,
            Refusal::Order => 2,
            Refusal::Records => 3,
            Refusal::TooFar => 4,
            Refusal::Room => 5,
            Refusal::Position => 6,
            Refusal::NotSolved => 7,
        }
    }
}
