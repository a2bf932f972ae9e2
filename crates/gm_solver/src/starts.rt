//! The shard of a range of a tier, for callers with shards of their own.
ghost use Rattle.std.specs.Prelude.{◌≡◌, ◌-◌, ◌≤◌, IfOk};
ghost use Rattle.gm_counters.specs.inner.Begin.{first_state};

pub use gm_backward::starts::starts;
use gm_game::game::Game;
use gm_game::limits::TIER_SIZE;
use gm_shard::shard::Shard;
use std::alloc::{AllocError, Global};

/// Makes the shard of the indexes of a tier from `lo` up to `hi`, before the first level.
pub fn begin_range<G: Game>(
    alloc: Global,
    tier: u64,
    lo: u64,
    hi: u64,
) -> Result<Shard<G>, AllocError>
    requires order { lo ≤ hi }
    requires within { hi ≤ TIER_SIZE }
    ensures { IfOk result (λ shard. shard ≡ first_state tier lo (hi - lo)) }
{
    let list = starts::<G>(alloc, tier, lo, hi)?;
    Shard::begin(alloc, tier, lo, list.as_slice())
}
