//! The members that an answer has.

/// The members of an answer besides the value and the moves.
#[derive(Clone, Copy, Debug, PartialEq, Eq)]
pub struct With {
    /// The canonical position: its index, its text and its tier.
    pub canonical: bool,
    /// The canonical positions from which a move leads to the canonical position or to one that is symmetric to it.
    pub parents: bool,
    /// How many positions are the same but for symmetry, this one among them.
    pub symmetric: bool,
    /// The moves of the line of best play.
    pub best: bool,
}

/// The members that an answer has.
#[derive(Clone, Copy, Debug, PartialEq, Eq)]
pub struct Asked {
    /// Its value and remoteness without its moves.
    pub values: bool,
    /// Of moves that lead to one canonical position, the first alone.
    pub distinct: bool,
    pub with: With,
}

impl Asked {
    /// The position with all of its moves, and nothing more.
    pub const PLAIN: Asked = Asked {
        values: false,
        distinct: false,
        with: With {
            canonical: false,
            parents: false,
            symmetric: false,
            best: false,
        },
    };
}
