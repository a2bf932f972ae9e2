//! The indexes of boards whose pieces stand on one another.
ghost use Rattle.std.specs.Prelude.{◌≡◌, ℕ, not, ◌+◌, ◌*◌, ◌<◌, ◌≤◌, ◌^◌, bit_and};
ghost use Rattle.gm_board.specs.Binomials.{binomial as binomial_of};
ghost use Rattle.gm_board.specs.Images.{board_of};
ghost use Rattle.gm_board.specs.Masks.{has_cell};
ghost use Rattle.gm_stacks.specs.Heights.{stackings as stackings_of};
ghost use Rattle.gm_stacks.specs.Stacks.{stacked_boards, stacked_index, stacked_board};

use crate::columns::Stacks;
use crate::counts::stackings;
use gm_board::arrangement::{pack, spread};
use gm_board::pascal::binomial;
use gm_board::subset::{rank_subset, unrank_subset};

impl Stacks {
    /// Returns how many boards have these numbers of pieces on the middle columns and on the others, of which the mover has `own`.
    pub fn size(self, outer: u32, middle: u32, own: u32) -> u64
        requires { outer + middle ≤ 25 }
        ensures value { result ≡ stacked_boards self.columns self.rows self.middle outer middle own }

        // With no middle columns apart they are as many as with this number of pieces.
        ensures whole { self.middle ≡ 0 → middle ≡ 0 → result ≡ stackings_of self.rows self.columns outer * binomial_of outer own }
    {
        let lists = stackings(self.rows, self.middle, middle)
            * stackings(self.rows, self.columns - self.middle, outer);
        lists * binomial(outer + middle, own)
    }

    /// Returns the mask of the cells that a mask of taken cells does not have.
    #[tactic(auto, using(crate::proofs::NumberingSteps::free_within, crate::proofs::NumberingSteps::free_is))]
    #[inline(always)]
    fn free(self, taken: u32) -> u32
        requires { taken < 2 ^ (self.rows * self.columns) }
        ensures within { result < 2 ^ (self.rows * self.columns) }
        ensures cells { (k : ℕ) → k < self.rows * self.columns → has_cell result k ≡ not (has_cell taken k) }
    {
        !taken & ((1 << self.cells()) - 1)
    }

    /// Returns the index of the board with these masks of pieces among those with as many pieces on the middle columns, on the others, and of each side.
    #[inline(always)]
    pub fn index(self, mine: u32, theirs: u32) -> u64
        requires mine { mine < 2 ^ (self.rows * self.columns) }
        requires theirs { theirs < 2 ^ (self.rows * self.columns) }
        requires apart { bit_and mine theirs ≡ 0 }
        ensures { result ≡ stacked_index self.columns self.rows self.middle (board_of (self.rows * self.columns) mine theirs) }
    {
        let taken = mine | theirs;
        let own = rank_subset(pack(self.cells(), self.free(taken), mine));
        self.rank(taken) * binomial(taken.count_ones(), mine.count_ones()) + own
    }

    /// Returns the masks of the mover's and of the opponent's pieces on the board with this index, given how many pieces the middle columns and the others have.
    #[inline(always)]
    pub fn masks(self, outer: u32, middle: u32, own: u32, index: u64) -> (u32, u32)
        requires pieces { outer + middle ≤ 25 }
        requires index { index < stacked_boards self.columns self.rows self.middle outer middle own }
        ensures mine { result.0 < 2 ^ (self.rows * self.columns) }
        ensures theirs { result.1 < 2 ^ (self.rows * self.columns) }
        ensures apart { bit_and result.0 result.1 ≡ 0 }
        ensures board { board_of (self.rows * self.columns) result.0 result.1 ≡ stacked_board self.columns self.rows self.middle outer middle own index }
    {
        let pieces = outer + middle;
        let ways = binomial(pieces, own);
        let taken = self.filled(outer, middle, index / ways);
        let packed = unrank_subset(pieces, own, index % ways);
        let mine = spread(self.cells(), self.free(taken), packed);
        (mine, taken & !mine)
    }
}
