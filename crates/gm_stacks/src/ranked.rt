//! Heights of columns as their rank.
ghost use Rattle.std.specs.Prelude.{◌≡◌, ℕ, ◌+◌, ◌-◌, ◌<◌, ◌≤◌, List, [], ◌∷◌};
ghost use Rattle.gm_stacks.specs.Heights.{stackings, first_height as first_height_of, sum_down, unrank_heights};

use crate::counts::with_less;

/// A list of heights: how many columns and pieces there are, and the rank of the list among those of as many.
#[derive(Clone, Copy, Debug, PartialEq, Eq)]
pub struct Ranked {
    pub rows: u32,
    pub columns: u32,
    pub pieces: u32,
    pub rank: u64,
    ghost low: { rows ≤ 6 },
    ghost narrow: { columns ≤ 6 },
    ghost few: { pieces ≤ 25 },
    ghost below: { rank < stackings rows columns pieces },
}

impl Ranked {
    /// Returns the list of no heights.
    #[tactic(auto, unfolding(crate::specs::Heights::stackings, crate::specs::Heights::unrank_heights))]
    #[inline(always)]
    pub fn none(rows: u32) -> Ranked
        requires { rows ≤ 6 }
        ensures rows { result.rows ≡ rows }
        ensures list { unrank_heights result.rows result.columns result.pieces result.rank ≡ [] }
    {
        Ranked {
            rows,
            columns: 0,
            pieces: 0,
            rank: 0,
        }
    }

    /// Returns the list with one more height before the first.
    #[inline(always)]
    pub fn with_first(self, height: u32) -> Ranked
        requires height { height ≤ self.rows }
        requires room { self.columns < 6 }
        requires few { self.pieces + height ≤ 25 }
        ensures rows { result.rows ≡ self.rows }
        ensures list { unrank_heights result.rows result.columns result.pieces result.rank ≡ height ∷ unrank_heights self.rows self.columns self.pieces self.rank }
    {
        let pieces = self.pieces + height;
        Ranked {
            rows: self.rows,
            columns: self.columns + 1,
            pieces,
            rank: with_less(self.rows, self.columns, pieces, height) + self.rank,
        }
    }

    /// Returns the first height, and the list of the others.
    #[inline(always)]
    pub fn split_first(self) -> (u32, Ranked)
        requires { 0 < self.columns }
        ensures low { result.0 ≤ self.rows }
        ensures rows { result.1.rows ≡ self.rows }
        ensures list { unrank_heights self.rows self.columns self.pieces self.rank
            ≡ result.0 ∷ unrank_heights result.1.rows result.1.columns result.1.pieces result.1.rank }
    {
        let columns = self.columns - 1;
        let height = first_height(self.rows, columns, self.pieces, self.rank);
        let rest = Ranked {
            rows: self.rows,
            columns,
            pieces: self.pieces - height,
            rank: self.rank - with_less(self.rows, columns, self.pieces, height),
        };
        (height, rest)
    }
}

/// Returns the height of the first column by a rank, given the number of further columns.
#[inline(always)]
pub fn first_height(rows: u32, others: u32, pieces: u32, rank: u64) -> u32
    requires rows { rows ≤ 6 }
    requires others { others ≤ 6 }
    requires pieces { pieces ≤ 25 }
    requires rank { rank < sum_down (stackings rows others) (rows + 1) pieces }
    ensures { result ≡ first_height_of (stackings rows others) rows pieces rank }
{
    let mut height = 0;
    while height < pieces && with_less(rows, others, pieces, height + 1) <= rank {
        height += 1;
    }
    height
}
