//! How the host keeps the records of a game.
ghost use Rattle.std.specs.Prelude.{◌≡◌};
ghost use Rattle.gm_engine.specs.Records.{bytes_of};

/// The number of bytes of each record of a game.
#[derive(Clone, Copy, Debug, PartialEq, Eq)]
pub enum Width {
    /// One byte: the upper three bits are the code of the value, and the others the remoteness, which is at most 31.
    Byte,
    /// Four bytes, the lowest first: the code of the value times 1,048,576, plus the remoteness, which is at most that of every game.
    Word,
}

impl Width {
    /// Returns the number of bytes.
    pub fn bytes(self) -> u64
        ensures { result ≡ bytes_of self }
    {
        match self {
            Width::Byte => 1,
            Width::Word => 4,
        }
    }
}
