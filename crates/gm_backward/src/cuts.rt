//! Where a tier is cut into four tiles.
ghost use Rattle.std.specs.Prelude.{◌≡◌, ℕ, suc, ◌<◌, ◌≤◌, length};
ghost use Rattle.gm_game.specs.declared.limits.TheConstants.{TIER_SIZE};
ghost use Rattle.gm_backward.specs.inner.Cuts.{cut_at, AreCuts};

use gm_counters::status::Start;
use gm_game::game::Game;
use gm_game::limits::TIER_SIZE;

// Up to this many start values are looked at to find where a tier is cut.
const SAMPLES: usize = 4_096;

// An index at which the game goes on takes about as long as this many others.
const WEIGHT: usize = 4;

/// The first index of each of four tiles but the first, which begins at 0.
#[derive(Clone, Copy)]
pub struct Cuts {
    pub b: u64,
    pub c: u64,
    pub d: u64,
}

impl Cuts {
    /// Returns the cuts after which the first tile has all indexes of a tier.
    pub(crate) fn of_one<G: Game>(tier: u64) -> Cuts
        requires { G.rules.tier_size tier ≤ TIER_SIZE }
        ensures { AreCuts G.rules tier result }
    {
        let size = G::tier_size(tier);
        Cuts {
            b: size,
            c: size,
            d: size,
        }
    }

    /// Returns cuts into this many tiles that take about as long each. An index at which the game goes on counts as `WEIGHT` others, since it gets deliveries;
    /// all are begun and read at the end. The tiles past this number have no index.
    pub(crate) fn balanced<G: Game>(tier: u64, starts: &[Start], shards: usize) -> Cuts
        requires whole { length starts.now ≡ G.rules.tier_size tier }
        requires small { G.rules.tier_size tier ≤ TIER_SIZE }
        requires some { 0 < shards }
        ensures { AreCuts G.rules tier result }
    {
        let share = weight_of(starts).div_ceil(shards).max(1);
        let b = end_of(starts, share);
        let c = end_of(starts, share.saturating_mul(2)).max(b);
        let d = end_of(starts, share.saturating_mul(3)).max(c);
        Cuts { b, c, d }
    }

    /// Returns the indexes of a tile of a tier of this size: the first one, and the one past the last.
    pub(crate) fn range(self, size: u64, k: u64) -> (u64, u64)
        requires { k < 4 }
        ensures lo { result.0 ≡ cut_at size self k }
        ensures hi { result.1 ≡ cut_at size self (suc k) }
    {
        match k {
            0 => (0, self.b),
            1 => (self.b, self.c),
            2 => (self.c, self.d),
            _ => (self.d, size),
        }
    }

    /// Returns the number of the tile that has an index of the tier.
    pub(crate) fn tile_of(&self, index: u64) -> usize
        ensures few { result < 4 }
        ensures low { (size : ℕ) → index < size → cut_at size self.now result ≤ index }
        ensures high { (size : ℕ) → index < size → index < cut_at size self.now (suc result) }
    {
        if index < self.b {
            0
        } else if index < self.c {
            1
        } else if index < self.d {
            2
        } else {
            3
        }
    }
}

// Returns how far apart the start values are that are looked at.
fn step_of(starts: &[Start]) -> usize
    ensures { 0 < result }
{
    (starts.len() / SAMPLES).saturating_add(1)
}

// Returns the weight of all samples.
fn weight_of(starts: &[Start]) -> usize {
    let mut sum = 0usize;
    for start in starts.iter().step_by(step_of(starts)) {
        sum = sum.saturating_add(weight(*start));
    }
    sum
}

// Returns the index of the first sample up to which the samples, itself included, weigh more than this, or the number of start values.
fn end_of(starts: &[Start], wanted: usize) -> u64
    ensures { result ≤ length starts.now }
{
    let step = step_of(starts);
    let mut sum = 0usize;
    let mut index = 0usize;
    for start in starts.iter().step_by(step) {
        sum = sum.saturating_add(weight(*start));
        if sum > wanted {
            return index.min(starts.len()) as u64;
        }
        index = index.saturating_add(step);
    }
    starts.len() as u64
}

// Returns the weight of an index.
fn weight(start: Start) -> usize {
    match start {
        Start::Inner { children: _ } => WEIGHT,
        Start::Hole | Start::Ended(_) => 1,
    }
}
