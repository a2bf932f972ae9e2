//! The cells of columns of some heights.
ghost use Rattle.std.specs.Prelude.{◌≡◌, ℕ, ◌+◌, ◌-◌, ◌*◌, ◌/◌, ◌%◌, ◌<◌, ◌≤◌, ◌^◌, ◌==◌, ◌&&◌, nat_lt, nat_le};
ghost use Rattle.gm_board.specs.Masks.{has_cell};
ghost use Rattle.gm_stacks.specs.Heights.{stackings as stackings_of, split_stackings, unrank_heights, unrank_split};
ghost use Rattle.gm_stacks.specs.Stacks.{is_filled};

use crate::columns::Stacks;
use crate::counts::stackings;
use crate::ranked::Ranked;

impl Stacks {
    /// Returns the mask of the lowest cells of a column, as many as its height.
    #[inline(always)]
    pub fn column_cells(self, column: u32, height: u32) -> u32
        requires column { column < self.columns }
        requires height { height ≤ self.rows }
        ensures within { result < 2 ^ (self.rows * self.columns) }
        ensures cells { (k : ℕ) → k < self.rows * self.columns → has_cell result k ≡ (k % self.columns == column && nat_le self.rows (k / self.columns + height)) }
    {
        let mut mask = 0;
        for row in self.rows - height..self.rows {
            mask |= 1 << (row * self.columns + column);
        }
        mask
    }

    /// Returns the heights of the middle columns, and those of the others, by the rank of both.
    #[inline(always)]
    fn parts(self, outer: u32, middle: u32, rank: u64) -> (Ranked, Ranked)
        requires few { outer + middle ≤ 25 }
        requires rank { rank < split_stackings self.rows self.columns self.middle outer middle }
        ensures rows { (result.0.rows ≡ self.rows) × (result.1.rows ≡ self.rows) }
        ensures middle { unrank_heights result.0.rows result.0.columns result.0.pieces result.0.rank
            ≡ unrank_heights self.rows self.middle middle (rank / stackings_of self.rows (self.columns - self.middle) outer) }
        ensures outer { unrank_heights result.1.rows result.1.columns result.1.pieces result.1.rank
            ≡ unrank_heights self.rows (self.columns - self.middle) outer (rank % stackings_of self.rows (self.columns - self.middle) outer) }
    {
        let others = self.columns - self.middle;
        let (high, low) = digits(rank, stackings(self.rows, others, outer));
        let middle = Ranked {
            rows: self.rows,
            columns: self.middle,
            pieces: middle,
            rank: high,
        };
        let outer = Ranked {
            rows: self.rows,
            columns: others,
            pieces: outer,
            rank: low,
        };
        (middle, outer)
    }

    /// Returns the mask of the cells of the columns whose heights have this rank, given how many pieces the middle columns and the others have.
    #[inline(always)]
    pub fn filled(self, outer: u32, middle: u32, rank: u64) -> u32
        requires few { outer + middle ≤ 25 }
        requires rank { rank < split_stackings self.rows self.columns self.middle outer middle }
        ensures within { result < 2 ^ (self.rows * self.columns) }
        ensures cells { (k : ℕ) → k < self.rows * self.columns
            → has_cell result k ≡ is_filled self.columns self.rows (unrank_split self.rows self.columns self.middle outer middle rank) k }
    {
        let (mut inner, mut others) = self.parts(outer, middle, rank);
        let mut taken = 0;
        for column in 0..self.columns {
            if self.is_middle(column) {
                let (height, rest) = inner.split_first();
                taken |= self.column_cells(column, height);
                inner = rest;
            } else {
                let (height, rest) = others.split_first();
                taken |= self.column_cells(column, height);
                others = rest;
            }
        }
        taken
    }
}

// Returns the quotient and the remainder. Mostly the number is less than the base, and nothing is divided.
#[inline(always)]
fn digits(number: u64, base: u64) -> (u64, u64)
    requires { 0 < base }
    ensures high { result.0 ≡ number / base }
    ensures low { result.1 ≡ number % base }
{
    if number < base {
        (0, number)
    } else {
        (number / base, number % base)
    }
}
