//! Steps: what a board has before and after.
ghost use Rattle.std.specs.Prelude.{◌≡◌, ◌^◌, ◌<◌};
ghost use Rattle.gm_board.specs.Images.{board_of};
ghost use Rattle.gm_patterns.specs.Patterns.{without as without_of};
ghost use Rattle.gm_patterns.specs.Steps.{cells_in, laid as laid_of, stepped, taken_back};

use crate::pattern::Pattern;
use gm_pieces::board::Board;

/// A step: a board that has the pattern before it gets what the pattern after it says, and is as it was elsewhere. Two cells name it, or one if they are the
/// same.
#[derive(Clone, Copy, Debug, PartialEq, Eq)]
pub struct Step {
    pub from: u32,
    pub to: u32,
    pub before: Pattern,
    pub after: Pattern,
}

// Returns the cells of the first mask that the second does not have.
#[inline(always)]
fn without(mask: u32, cells: u32) -> u32
    ensures { result ≡ without_of mask cells }
{
    mask ^ mask & cells
}

// Returns the board with a pattern laid on these cells.
#[tactic(auto, using(crate::specs::laws::MaskFacts::laid_masks))]
#[inline(always)]
fn laid<const CELLS: u32>(board: Board<CELLS>, cells: u32, pattern: Pattern) -> Board<CELLS>
    requires { cells < 2 ^ CELLS }
    ensures { board_of CELLS result.mine result.theirs ≡ laid_of cells pattern (board_of CELLS board.entry.mine board.entry.theirs) }
{
    Board {
        mine: without(board.mine, cells) | without(cells, pattern.not_mine),
        theirs: without(board.theirs, cells)
            | without(cells & pattern.not_mine, pattern.not_theirs),
    }
}

impl Step {
    /// Returns the cells that the step changes.
    #[inline(always)]
    pub fn cells(self) -> u32
        ensures { result ≡ cells_in self.after }
    {
        self.after.not_empty | (self.after.not_mine | self.after.not_theirs)
    }

    /// Returns the board after the step, before it passes to the other player.
    #[inline(always)]
    pub fn made<const CELLS: u32>(self, board: Board<CELLS>) -> Board<CELLS>
        requires { cells_in self.after < 2 ^ CELLS }
        ensures { board_of CELLS result.mine result.theirs ≡ stepped self (board_of CELLS board.entry.mine board.entry.theirs) }
    {
        laid(board, self.cells(), self.after)
    }

    /// Returns the board before the step.
    #[inline(always)]
    pub fn taken_back<const CELLS: u32>(self, board: Board<CELLS>) -> Board<CELLS>
        requires { cells_in self.after < 2 ^ CELLS }
        ensures { board_of CELLS result.mine result.theirs ≡ taken_back self (board_of CELLS board.entry.mine board.entry.theirs) }
    {
        laid(board, self.cells(), self.before)
    }
}
