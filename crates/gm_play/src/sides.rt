//! Who moves.
ghost use Rattle.std.specs.Prelude.{◌≡◌};
ghost use Rattle.gm_play.specs.Sides.{other as other_spec};

/// A side of a game that is played.
#[derive(Clone, Copy, Debug, PartialEq, Eq)]
pub enum Side {
    You,
    Computer,
}

impl Side {
    /// Returns the other side.
    pub fn other(self) -> Side
        ensures { result ≡ other_spec self }
    {
        match self {
            Side::You => Side::Computer,
            Side::Computer => Side::You,
        }
    }
}
