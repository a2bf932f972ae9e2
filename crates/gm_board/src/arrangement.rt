//! Numbers of the arrangements of two sides' pieces.
ghost use Rattle.std.specs.Prelude.{◌≡◌, ◌<◌, ◌≤◌, ◌^◌, ◌-◌, bit_and, count_ones};
ghost use Rattle.gm_board.specs.Arrangements.{their_bits, arrangement_index, arrangements};
ghost use Rattle.gm_board.specs.Binomials.{binomial as binomial_of};
ghost use Rattle.gm_board.specs.Masks.{mask_of};
ghost use Rattle.gm_board.specs.Pieces.{cells_of, HasPieces, mine_mask, their_mask, spread_mask};

use crate::pascal::binomial;
use crate::subset::{rank_subset, unrank_subset};

/// Boards of `cells` cells, at most 32, on which the mover has `mine` pieces and the opponent `theirs`.
///
/// The index of an arrangement is `rank(mine) * C(cells - mine, theirs) + rank'(theirs)`, where `rank'` numbers the
/// cells without the mover's pieces from 0 in ascending order.
#[derive(Clone, Copy, Debug, PartialEq, Eq)]
pub struct Arrangement {
    pub cells: u32,
    pub mine: u32,
    pub theirs: u32,
    ghost within: { cells ≤ 32 },
}

impl Arrangement {
    /// Returns the number of arrangements: `C(cells, mine) * C(cells - mine, theirs)`.
    #[tactic(auto, unfolding(crate::specs::Arrangements::arrangements))]
    pub fn size(self) -> u64
        ensures { result ≡ arrangements self.cells self.mine self.theirs }
    {
        binomial(self.cells, self.mine) * self.ways()
    }

    /// Returns the index of the arrangement with these masks of pieces. Inlined, as `masks` is.
    #[tactic(auto, using(crate::specs::laws::Binomials::binomial_small, crate::proofs::IndexSteps::index_is))]
    #[inline(always)]
    pub fn index(self, mine: u32, theirs: u32) -> u64
        requires { HasPieces self.cells self.mine self.theirs mine theirs }
        ensures value { result ≡ arrangement_index (cells_of self.cells mine theirs) }
        ensures below { result < arrangements self.cells self.mine self.theirs }
        ensures mine_back { mine_mask self.cells self.mine self.theirs result ≡ mine }
        ensures theirs_back { their_mask self.cells self.mine self.theirs result ≡ theirs }
    {
        let packed = pack(self.cells, mine, theirs);
        rank_subset(mine) * self.ways() + rank_subset(packed)
    }

    /// Returns the masks of the mover's and of the opponent's pieces in the arrangement with this index. Inlined, so that a game with constant numbers of
    /// pieces divides by constants.
    #[tactic(auto, using(crate::proofs::IndexSteps::digits_are, crate::proofs::IndexSteps::mine_mask_is, crate::proofs::IndexSteps::their_mask_is))]
    #[inline(always)]
    pub fn masks(self, index: u64) -> (u32, u32)
        requires { index < arrangements self.cells self.mine self.theirs }
        ensures mine { result.0 ≡ mine_mask self.cells self.mine self.theirs index }
        ensures theirs { result.1 ≡ their_mask self.cells self.mine self.theirs index }
        ensures pieces { HasPieces self.cells self.mine self.theirs result.0 result.1 }
        ensures back { arrangement_index (cells_of self.cells result.0 result.1) ≡ index }
    {
        let free = self.free();
        let ways = self.ways();
        let mine = unrank_subset(self.cells, self.mine, index / ways);
        let packed = unrank_subset(free, self.theirs, index % ways);
        let theirs = spread(self.cells, mine, packed);
        (mine, theirs)
    }

    /// Returns the number of ways to place the opponent's pieces on the cells without the mover's.
    #[inline(always)]
    fn ways(self) -> u64
        ensures value { result ≡ binomial_of (self.cells - self.mine) self.theirs }
        ensures small { result < 2 ^ 32 }
    {
        binomial(self.free(), self.theirs)
    }

    /// Returns the number of cells without the mover's pieces, 0 if the mover has more pieces than there are cells.
    #[inline(always)]
    fn free(self) -> u32
        ensures { result ≡ self.cells - self.mine }
    {
        self.cells.saturating_sub(self.mine)
    }
}

/// Returns the mask of the opponent's pieces on the cells without the mover's pieces, where these cells are numbered from 0 in ascending order.
#[tactic(auto, using(crate::proofs::PackSteps::packing, crate::proofs::PackSteps::pack_turn))]
#[inline(always)]
pub fn pack(cells: u32, mine: u32, theirs: u32) -> u32
    requires cells { cells ≤ 32 }
    requires mine { mine < 2 ^ cells }
    requires theirs { theirs < 2 ^ cells }
    requires apart { bit_and mine theirs ≡ 0 }
    ensures { result ≡ mask_of (their_bits (cells_of cells mine theirs)) }
{
    let mut packed = theirs;
    let mut rest = mine;
    let mut passed = 0;
    while rest != 0 {
        let cell = rest.trailing_zeros();
        // The mover has a piece on this cell: the opponent's pieces past it move one place down.
        packed -= (theirs >> cell >> 1) << (cell - passed);
        passed += 1;
        rest &= rest - 1;
    }
    packed
}

/// Returns the mask of the opponent's pieces on all cells, from their mask on the cells without the mover's pieces.
#[tactic(auto, using(crate::proofs::PackSteps::spreading))]
pub fn spread(cells: u32, mine: u32, packed: u32) -> u32
    requires cells { cells ≤ 32 }
    requires mine { mine < 2 ^ cells }
    requires packed { packed < 2 ^ (cells - count_ones mine) }
    ensures { result ≡ spread_mask cells mine packed }
{
    let mut theirs = u64::from(packed);
    let mut rest = mine;
    while rest != 0 {
        let cell = rest.trailing_zeros();
        // The mover has a piece on this cell: the opponent's pieces from here on move one place up.
        theirs += theirs >> cell << cell;
        rest &= rest - 1;
    }
    theirs as u32
}
