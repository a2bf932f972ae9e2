//! The number of a move from one point to another.
ghost use Rattle.std.specs.Prelude.{◌≡◌, ◌<◌};
ghost use Rattle.gm_pieces.specs.Steps.{from_point, to_point};

/// A move from one point to another of at most 16. Its number is `16*from + to` (docs/GAMES.md, Common forms).
#[derive(Clone, Copy, Debug, PartialEq, Eq)]
pub struct Step {
    pub from: u32,
    pub to: u32,
}

impl Step {
    /// Returns the move with this number.
    #[tactic(auto, unfolding(crate::specs::Steps::from_point, crate::specs::Steps::to_point))]
    pub fn numbered(number: u32) -> Step
        ensures from { result.from ≡ from_point number }
        ensures to { result.to ≡ to_point number }
    {
        Step {
            from: number / 16,
            to: number % 16,
        }
    }
}
