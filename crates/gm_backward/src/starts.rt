//! The start values of the indexes of a tier.
ghost use Rattle.std.specs.Prelude.{◌≡◌, ◌-◌, ◌≤◌, length, IfOk};
ghost use Rattle.gm_counters.specs.inner.Begin.{AreStarts};

use gm_counters::begin::start_of_canonical;
use gm_counters::status::Start;
use gm_game::game::Game;
use gm_game::position::Position;
use std::alloc::{AllocError, Global};

/// Returns the start value of each index of a tier from `lo` up to `hi`, in order.
pub fn starts<G: Game>(alloc: Global, tier: u64, lo: u64, hi: u64) -> Result<Vec<Start>, AllocError>
    requires { lo ≤ hi }
    ensures length { IfOk result (λ list. length list.items ≡ hi - lo) }
    ensures starts { IfOk result (λ list. AreStarts G.rules tier lo list.items) }
{
    let mut list = Vec::with_capacity(alloc, (hi - lo) as usize)?;
    let mut next = lo;
    while let Some(index) = G::first_canonical(tier, next, hi) {
        list.resize((index - lo) as usize, Start::Hole)?;
        list.push(start_of_canonical::<G>(Position { tier, index }))?;
        next = index + 1;
    }
    list.resize((hi - lo) as usize, Start::Hole)?;
    Ok(list)
}
