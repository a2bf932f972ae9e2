//! What the host requests of a game.

use std::alloc::Global;

/// A request, apart from the lists that are written to.
#[derive(Clone, Copy)]
pub enum Request<'a> {
    /// The number of bytes of each record.
    Width,
    /// The number of indexes of a tier.
    Size {
        tier: u64,
    },
    /// The tiers of the game, child tiers first.
    Order {
        alloc: Global,
    },
    /// The tiers of the game, child tiers first, and their records.
    Game {
        alloc: Global,
    },
    /// The records of a tier, from those of these tiers.
    Tier {
        alloc: Global,
        solved: &'a [u64],
        records: &'a [u8],
        tier: u64,
    },
    /// Whether these are the records of these tiers.
    Check {
        alloc: Global,
        tiers: &'a [u64],
        records: &'a [u8],
    },
    /// Answers to lines, from the records of these tiers.
    Lines {
        alloc: Global,
        solved: &'a [u64],
        records: &'a [u8],
        asked: u32,
        lines: &'a [u8],
    },
    /// The text of the canonical position with this index of a tier.
    Text {
        tier: u64,
        index: u64,
    },
}
