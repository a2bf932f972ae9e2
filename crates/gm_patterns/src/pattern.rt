//! Patterns: what may lie on the cells of a board.
ghost use Rattle.std.specs.Prelude.{◌≡◌};
ghost use Rattle.gm_board.specs.Images.{board_of};
ghost use Rattle.gm_patterns.specs.Patterns.{fits as fits_of, has_some as has_some_of};

use gm_pieces::board::Board;

/// What may lie on the cells of a board: each mask has the cells on which one thing may not lie.
#[derive(Clone, Copy, Debug, PartialEq, Eq)]
pub struct Pattern {
    /// The cells that may not be empty.
    pub not_empty: u32,
    /// The cells that may not have a piece of the mover's.
    pub not_mine: u32,
    /// The cells that may not have a piece of the opponent's.
    pub not_theirs: u32,
}

impl Pattern {
    /// Returns whether a board has the pattern.
    #[tactic(auto, using(crate::specs::laws::MaskFacts::fits_masks))]
    #[inline(always)]
    pub fn fits<const CELLS: u32>(self, board: Board<CELLS>) -> bool
        ensures { result ≡ fits_of self (board_of CELLS board.entry.mine board.entry.theirs) }
    {
        let empty = !(board.mine | board.theirs) & ((1 << CELLS) - 1);
        let wrong = board.mine & self.not_mine
            | board.theirs & self.not_theirs
            | empty & self.not_empty;
        wrong == 0
    }
}

/// Returns whether a board has one of the patterns. All patterns are tested, so that the loop has no branches.
#[inline(always)]
pub fn has_some<const CELLS: u32>(board: Board<CELLS>, patterns: &[Pattern]) -> bool
    ensures { result ≡ has_some_of patterns.now (board_of CELLS board.entry.mine board.entry.theirs) }
{
    let mut found = false;
    for pattern in patterns {
        found |= pattern.fits(board);
    }
    found
}
