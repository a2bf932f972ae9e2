//! A random choice of positions.
ghost use Rattle.std.specs.Prelude.{◌<◌, IfOk};
ghost use Rattle.gm_find.specs.Samples.{IsSample};

use rand::RngExt;
use rand_core::SeedableRng;
use rand_xoshiro::Xoshiro256PlusPlus;
use std::alloc::{AllocError, Global};

/// Returns `number` of the items in their order, each at most once, or all of them if there are fewer. They are drawn by xoshiro256++ from this seed, and
/// the same seed makes the same choice. How evenly it chooses is tested, and not proved.
pub fn sample_of<T: Copy>(
    alloc: Global,
    items: &[T],
    number: usize,
    seed: u64,
) -> Result<Vec<T>, AllocError>
    ensures { IfOk result (λ v. IsSample number items.now v.items) }
{
    let mut random = Xoshiro256PlusPlus::seed_from_u64(seed);
    let mut chosen = Vec::new(alloc);
    let mut wanted = number.min(items.len());
    for place in 0..items.len() {
        let left = items.len() - place;
        if random.random_range(0..left as u64) < wanted as u64 {
            chosen.push(items[place])?;
            wanted -= 1;
        }
    }
    Ok(chosen)
}
