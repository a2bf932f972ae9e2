//! What is looked for.

use gm_game::position::Value;

/// A span of remoteness: from the least to the most, both counted.
#[derive(Clone, Copy, Debug, PartialEq, Eq)]
pub struct Span {
    pub least: u32,
    pub most: u32,
}

/// Canonical positions of a value, and what else is asked of them.
#[derive(Clone, Copy, Debug, PartialEq, Eq)]
pub struct Sought {
    pub value: Value,
    /// Those of a remoteness in this span, if there is one.
    pub remoteness: Option<Span>,
    /// Those from which exactly one move keeps the value.
    pub only_move: bool,
    /// Wins from which exactly one move wins in the fewest moves.
    pub only_fastest: bool,
    /// Wins in which, against every longest defence, exactly one move keeps the win at each turn of the winner but the last; with `only_fastest` exactly one wins
    /// in the fewest moves there.
    pub whole_line: bool,
    /// Whether moves whose results are the same but for symmetry count as one.
    pub distinct: bool,
    /// Those with at least this many moves.
    pub min_moves: usize,
    /// Those with at least this many tries at each turn of the side that moves first, along the solution; no draws unless it is 0.
    pub min_tries: usize,
    /// Whether the tries of each position are counted.
    pub tries: bool,
}

/// An order of found positions, the simplest first. Equal positions come tier by tier and by ascending index.
#[derive(Clone, Copy, Debug, PartialEq, Eq)]
pub enum Order {
    /// By remoteness.
    Long,
    /// By the sum of the tries along the solution, and then by remoteness.
    Hard,
}

/// Which of the positions that are sought are taken.
#[derive(Clone, Copy, Debug, PartialEq, Eq)]
pub enum Choice {
    /// The first of them, at most this many.
    First(usize),
    /// A random choice of this many, or all if there are fewer: the same for the same seed.
    Random {
        number: usize,
        seed: u64,
    },
    /// All of them in this order, and then the first, at most this many.
    Sorted {
        order: Order,
        limit: usize,
    },
    /// In this order, or in that of their indexes, each that is not met along best play from one taken before, nor one of those along best play from it, and of
    /// those with one best move at most `per_move`: the first `limit` of them, or with a seed a random choice of `limit` from all of them. With a seed to
    /// turn by, a symmetric position is drawn in place of each.
    Apart {
        order: Option<Order>,
        per_move: usize,
        limit: usize,
        seed: Option<u64>,
        turn: Option<u64>,
    },
}
