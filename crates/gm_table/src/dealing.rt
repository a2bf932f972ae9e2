//! A tier's indexes in blocks, for as many threads as there are processors.
ghost use Rattle.std.specs.Prelude.{◌≡◌, ◌+◌, ◌*◌, ◌<◌, ◌≤◌, min, suc};
ghost use Rattle.gm_game.specs.declared.limits.TheConstants.{TIER_SIZE};
ghost use Rattle.gm_table.specs.inner.Dealing.{block_in};

use gm_game::limits::TIER_SIZE;

/// How many indexes a block has.
const BLOCK: u64 = 512;

/// The number of classes. Blocks are dealt out to the classes in turn, and gone through class after class: canonical positions have low indexes, so contiguous
/// parts of the tier would mean unequal work.
const CLASSES: u64 = 32;

/// The indexes of one row of blocks, one for each class.
const ROW: u64 = 16_384;

/// The indexes of a tier in blocks of 512, which are dealt out to 32 classes in turn. Each class has `rows` blocks, of which those past the tier's end are
/// empty.
#[derive(Clone, Copy, Debug, Drop)]
pub struct Dealing {
    size: u64,
    rows: u64,
    ghost within: { size ≤ TIER_SIZE },
    ghost some: { 0 < rows },
    ghost few: { rows ≤ 1024 },
    ghost enough: { size ≤ rows * 16384 },
}

impl Dealing {
    /// Returns the blocks of `size` indexes.
    pub fn of(size: u64) -> Dealing
        requires { size ≤ TIER_SIZE }
        ensures { result.size ≡ size }
    {
        Dealing {
            size,
            rows: size.div_ceil(ROW).max(1),
        }
    }

    /// Returns how many indexes there are.
    pub fn size(&self) -> u64
        ensures { result ≡ self.now.size }
    {
        self.size
    }

    /// Returns how many blocks there are, and as many places at which they are gone through.
    pub fn blocks(&self) -> u32
        ensures count { result ≡ self.now.rows * 32 }
        ensures enough { self.now.size ≤ result * 512 }
    {
        (self.rows * CLASSES) as u32
    }

    /// Returns the first index of the block at a place, and the first one past it.
    pub fn range(&self, place: u32) -> (u64, u64)
        ensures lo { result.0 ≡ min (block_in self.now.rows place * 512) self.now.size }
        ensures hi { result.1 ≡ min (suc (block_in self.now.rows place) * 512) self.now.size }
        ensures order { result.0 ≤ result.1 }
        ensures within { result.1 ≤ TIER_SIZE }
    {
        let place = u64::from(place);
        let block = place % self.rows * CLASSES + place / self.rows;
        (
            (block * BLOCK).min(self.size),
            ((block + 1) * BLOCK).min(self.size),
        )
    }

    /// Returns the place at which the block with this number is gone through.
    pub fn place_of(&self, block: u32) -> u32
        requires { block < self.now.rows * 32 }
        ensures within { result < self.now.rows * 32 }
        ensures value { block_in self.now.rows result ≡ block }
    {
        let block = u64::from(block);
        (block % CLASSES * self.rows + block / CLASSES) as u32
    }
}
