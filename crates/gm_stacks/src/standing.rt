//! Whether pieces stand on one another.
ghost use Rattle.std.specs.Prelude.{◌≡◌, ◌*◌, ◌<◌, ◌^◌, ◌↔◌, IsTrue};
ghost use Rattle.gm_board.specs.Masks.{has_cell};
ghost use Rattle.gm_stacks.specs.Stacks.{IsStacked};

use crate::columns::Stacks;

impl Stacks {
    /// Returns whether the cell below each cell of the mask, if there is one, is in the mask too.
    #[inline(always)]
    pub fn are_stacked(self, taken: u32) -> bool
        requires { taken < 2 ^ (self.rows * self.columns) }
        ensures { IsTrue result ↔ IsStacked self.columns self.rows (has_cell taken) }
    {
        let above_bottom = (1 << self.cells().saturating_sub(self.columns)) - 1;
        taken & !(taken >> self.columns) & above_bottom == 0
    }
}
