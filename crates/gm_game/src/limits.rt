//! The limits that every game and every crate keeps to.
ghost use Rattle.std.specs.Prelude.{◌≡◌};
ghost use Rattle.gm_game.specs.declared.limits.TheConstants.{MOVES, PARENTS, CHILD_TIERS, TIER_SIZE, TIERS, REMOTENESS, NAME, LINE};

/// The greatest number of moves of a position, and so of its canonical children.
pub const MOVES: usize = 128;

/// The greatest number of canonical parents of a position in one tier.
pub const PARENTS: usize = 128;

/// The greatest number of child tiers of a tier.
pub const CHILD_TIERS: usize = 16;

/// The greatest number of positions of a tier that is solved.
pub const TIER_SIZE: u64 = 16_777_216;

/// The greatest number of tiers of a game that is solved.
pub const TIERS: usize = 1024;

/// The greatest remoteness of a record.
pub const REMOTENESS: u32 = 1_048_575;

/// The number of bytes of a game's name, padded with zeros.
pub const NAME: usize = 16;

/// The greatest number of bytes of the text of a position or a move.
pub const LINE: usize = 64;

/// The limits, as one value: the constants above, by name.
#[derive(Clone, Copy, Debug, PartialEq, Eq)]
pub struct Limits {
    pub moves: usize,
    pub parents: usize,
    pub child_tiers: usize,
    pub tier_size: u64,
    pub tiers: usize,
    pub remoteness: u32,
    pub name: usize,
    pub line: usize,
}

impl Limits {
    /// Returns the limits, stated by the contract as numbers, those of docs/DEFINITIONS.md, and as the constants above.
    pub fn all() -> Limits
        ensures moves { result.moves ≡ 128 }
        ensures parents { result.parents ≡ 128 }
        ensures child_tiers { result.child_tiers ≡ 16 }
        ensures tier_size { result.tier_size ≡ 16777216 }
        ensures tiers { result.tiers ≡ 1024 }
        ensures remoteness { result.remoteness ≡ 1048575 }
        ensures name { result.name ≡ 16 }
        ensures line { result.line ≡ 64 }
        ensures constants { (result.moves ≡ MOVES) × (result.parents ≡ PARENTS) × (result.child_tiers ≡ CHILD_TIERS) × (result.tier_size ≡ TIER_SIZE)
            × (result.tiers ≡ TIERS) × (result.remoteness ≡ REMOTENESS) × (result.name ≡ NAME) × (result.line ≡ LINE) }
    {
        Limits {
            moves: MOVES,
            parents: PARENTS,
            child_tiers: CHILD_TIERS,
            tier_size: TIER_SIZE,
            tiers: TIERS,
            remoteness: REMOTENESS,
            name: NAME,
            line: LINE,
        }
    }
}
