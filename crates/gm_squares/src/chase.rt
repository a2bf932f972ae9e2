//! Boards: the squares of the hounds and of the fox, and the side to move; men that go.
ghost use Rattle.std.specs.Prelude.{◌≡◌, ◌+◌, ◌<◌, count_ones};
ghost use Rattle.std.specs.Int.{trailing_zeros, w32};
ghost use Rattle.gm_board.specs.Masks.{has_cell};
ghost use Rattle.gm_squares.specs.FoxHounds.{toggled as toggled_of, can_go as can_go_of, gone as gone_of};

/// The men on the dark squares: square k is the k-th of a1, c1, .. h8, four in a row (docs/GAMES.md, Fox and Hounds).
#[derive(Clone, Copy, Debug, PartialEq, Eq)]
pub struct Chase {
    /// Whether the hounds are to move.
    pub hounds_move: bool,
    /// The mask of the hounds' squares: bit k for square k.
    pub hounds: u32,
    /// The square of the fox.
    pub fox: u32,
}

/// Returns whether the mask has a square.
#[tactic(auto, using(std::proofs::lemmas::Nat::Bits::shr_and_one))]
pub fn has_square(mask: u32, square: u32) -> bool
    requires { square < 32 }
    ensures { result ≡ has_cell mask square }
{
    mask >> square & 1 == 1
}

/// Returns the mask with one square more, or one less if it has this one.
#[tactic(auto, using(std::proofs::lemmas::Nat::one_shl))]
pub fn toggled(mask: u32, square: u32) -> u32
    requires { square < 32 }
    ensures { result ≡ toggled_of mask square }
{
    mask ^ 1 << square
}

/// Returns the lowest square of a mask, and the mask without it.
#[tactic(auto, using(crate::specs::laws::MaskFacts::lowest))]
pub fn lowest(mask: u32) -> (u32, u32)
    requires { 0 < count_ones mask }
    ensures square { result.0 ≡ trailing_zeros w32 mask }
    ensures small { result.0 < 32 }
    ensures rest { result.1 ≡ toggled_of mask (trailing_zeros w32 mask) }
    ensures fewer { count_ones result.1 + 1 ≡ count_ones mask }
{
    let square = mask.trailing_zeros();
    (square, toggled(mask, square))
}

/// Returns whether a side has a man on one square, and the other is free.
#[tactic(auto, unfolding(crate::specs::FoxHounds::can_go))]
pub fn can_go(hounds: bool, board: Chase, from: u32, to: u32) -> bool
    requires from { from < 32 }
    requires to { to < 32 }
    ensures { result ≡ can_go_of hounds board from to }
{
    let has_man = if hounds {
        has_square(board.hounds, from)
    } else {
        from == board.fox
    };
    has_man && (!has_square(board.hounds, to) && to != board.fox)
}

/// Returns the board after a man of a side has gone from one square to another.
pub fn gone(hounds: bool, board: Chase, from: u32, to: u32) -> Chase
    requires from { from < 32 }
    requires to { to < 32 }
    ensures { result ≡ gone_of hounds board from to }
{
    let moved = toggled(toggled(board.hounds, from), to);
    Chase {
        hounds_move: !board.hounds_move,
        hounds: if hounds { moved } else { board.hounds },
        fox: if hounds { board.fox } else { to },
    }
}
