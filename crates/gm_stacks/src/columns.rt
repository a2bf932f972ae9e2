//! The heights of columns of pieces, and their ranks.
ghost use Rattle.std.specs.Prelude.{◌≡◌, ℕ, ◌+◌, ◌-◌, ◌*◌, ◌/◌, ◌<◌, ◌≤◌, ◌^◌, ◌↔◌, IsTrue};
ghost use Rattle.gm_board.specs.Masks.{has_cell};
ghost use Rattle.gm_stacks.specs.Heights.{side as side_of, middle_heights, outer_heights, rank_heights, rank_split, unrank_heights, total};
ghost use Rattle.gm_stacks.specs.Stacks.{height_of, heights};

use crate::counts::stackings;
use crate::ranked::Ranked;

/// The size of a board: up to 6 rows and 6 columns, with at most 25 cells. Some columns in the middle may be numbered apart from the others.
#[derive(Clone, Copy, Debug, PartialEq, Eq)]
pub struct Stacks {
    pub rows: u32,
    pub columns: u32,
    /// How many middle columns are numbered apart.
    pub middle: u32,
    ghost low: { rows ≤ 6 },
    ghost narrow: { columns ≤ 6 },
    ghost inside: { middle ≤ columns },
    ghost few: { rows * columns ≤ 25 },
}

impl Stacks {
    /// Returns the number of cells.
    #[inline(always)]
    pub fn cells(self) -> u32
        ensures { result ≡ self.rows * self.columns }
    {
        self.rows * self.columns
    }

    /// Returns how many cells of a column the mask has.
    #[tactic(auto, using(crate::proofs::ColumnSteps::cell_within, crate::proofs::ColumnSteps::one_row))]
    #[inline(always)]
    pub fn height(self, taken: u32, column: u32) -> u32
        requires { column < self.columns }
        ensures value { result ≡ height_of self.columns self.rows (has_cell taken) column }
        ensures low { result ≤ self.rows }
    {
        let mut height = 0;
        for row in 0..self.rows {
            height += taken >> (row * self.columns + column) & 1;
        }
        height
    }

    /// Returns how many columns are to the left of the middle ones.
    #[inline(always)]
    pub fn side(self) -> u32
        ensures { result ≡ side_of self.columns self.middle }
    {
        (self.columns - self.middle) / 2
    }

    /// Returns whether a column is one of the middle ones.
    #[inline(always)]
    pub fn is_middle(self, column: u32) -> bool
        ensures { IsTrue result ↔ ((side_of self.columns self.middle ≤ column) × (column < side_of self.columns self.middle + self.middle)) }
    {
        self.side() <= column && column < self.side() + self.middle
    }

    /// Returns the heights of the mask's middle columns, and those of the others.
    #[inline(always)]
    pub fn ranked(self, taken: u32) -> (Ranked, Ranked)
        requires { taken < 2 ^ (self.rows * self.columns) }
        ensures rows { (result.0.rows ≡ self.rows) × (result.1.rows ≡ self.rows) }
        ensures middle { unrank_heights result.0.rows result.0.columns result.0.pieces result.0.rank
            ≡ middle_heights self.middle (heights self.columns self.rows (has_cell taken)) }
        ensures outer { unrank_heights result.1.rows result.1.columns result.1.pieces result.1.rank
            ≡ outer_heights self.middle (heights self.columns self.rows (has_cell taken)) }
    {
        let mut middle = Ranked::none(self.rows);
        let mut outer = Ranked::none(self.rows);
        for column in (0..self.columns).rev() {
            let height = self.height(taken, column);
            if self.is_middle(column) {
                middle = middle.with_first(height);
            } else {
                outer = outer.with_first(height);
            }
        }
        (middle, outer)
    }

    /// Returns how many cells of the middle columns the mask has.
    #[inline(always)]
    pub fn middle_pieces(self, taken: u32) -> u32
        requires { taken < 2 ^ (self.rows * self.columns) }
        ensures { result ≡ total (middle_heights self.middle (heights self.columns self.rows (has_cell taken))) }
    {
        let (middle, _) = self.ranked(taken);
        middle.pieces
    }

    /// Returns the rank of the heights of the mask's columns among those with as many pieces on the middle columns and on the others.
    #[inline(always)]
    pub fn rank(self, taken: u32) -> u64
        requires { taken < 2 ^ (self.rows * self.columns) }
        ensures value { result ≡ rank_split self.rows self.middle (heights self.columns self.rows (has_cell taken)) }

        // With no middle columns apart it is the rank of all heights.
        ensures whole { self.middle ≡ 0 → result ≡ rank_heights self.rows (heights self.columns self.rows (has_cell taken)) }
    {
        let (middle, outer) = self.ranked(taken);
        middle.rank * stackings(self.rows, outer.columns, outer.pieces) + outer.rank
    }
}
