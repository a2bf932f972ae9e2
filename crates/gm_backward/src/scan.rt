//! The start values of the indexes of a tier, found block by block by at most as many threads as workers or processors.
ghost use Rattle.std.specs.Prelude.{◌≡◌, ◌≤◌, length, IfOk};
ghost use Rattle.gm_counters.specs.inner.Begin.{AreStarts};
ghost use Rattle.gm_table.specs.inner.Dealing.{block_in};
ghost use Rattle.gm_game.specs.declared.limits.TheConstants.{TIER_SIZE};
ghost use Rattle.gm_backward.specs.inner.Blocks.{IsPart, ArePartsOf};

use crate::starts::starts;
use gm_counters::status::Start;
use gm_game::game::Game;
use gm_table::dealing::Dealing;
use rayon::prelude::*;
use std::alloc::{AllocError, Global};
use std::marker::PhantomData;
use std::thread::Threads;

// A tier within the limits that is to be scanned in blocks.
#[derive(Drop)]
struct Scan<G: Game> {
    tier: u64,
    dealing: Dealing,
    game: PhantomData<G>,
    ghost size_is: { dealing.size ≡ G.rules.tier_size tier },
}

impl<G: Game> Scan<G> {
    // Returns the scan of a tier.
    fn of(tier: u64) -> Self
        requires { G.rules.tier_size tier ≤ TIER_SIZE }
        ensures { result.tier ≡ tier }
    {
        Scan {
            tier,
            dealing: Dealing::of(G::tier_size(tier)),
            game: PhantomData,
        }
    }

    // Returns the start values of the block that belongs to a place.
    fn start_block(&self, alloc: Global, place: u32) -> Result<Vec<Start>, AllocError>
        ensures { IfOk result (λ part. IsPart G.rules self.now.tier (block_in self.now.dealing.rows place) part.items) }
    {
        let (lo, hi) = self.dealing.range(place);
        starts::<G>(alloc, self.tier, lo, hi)
    }

    // Returns the start values of the tier in order, from the blocks, which are found in the order of their places.
    fn in_order_of(
        &self,
        alloc: Global,
        found: &[Result<Vec<Start>, AllocError>],
    ) -> Result<Vec<Start>, AllocError>
        requires { ArePartsOf G.rules self.now.tier self.now.dealing.rows found.now }
        ensures length { IfOk result (λ all. length all.items ≡ G.rules.tier_size self.now.tier) }
        ensures starts { IfOk result (λ all. AreStarts G.rules self.now.tier 0 all.items) }
    {
        let mut all = Vec::with_capacity(alloc, self.dealing.size() as usize)?;
        for block in 0..self.dealing.blocks() {
            match &found[self.dealing.place_of(block) as usize] {
                Ok(part) => all.extend_from_slice(part.as_slice())?,
                Err(_refused) => return Err(AllocError),
            }
        }
        Ok(all)
    }
}

impl<G: Game + Send + Sync> Scan<G> {
    // Returns the start values of all blocks, by at most as many threads as workers or processors.
    fn start_all<R: Threads + Sync>(
        &self,
        rt: &R,
        alloc: Global,
        workers: usize,
    ) -> Result<Vec<Result<Vec<Start>, AllocError>>, AllocError>
        ensures { IfOk result (λ found. ArePartsOf G.rules self.now.tier self.now.dealing.rows found.items) }
    {
        let blocks = self.dealing.blocks();
        (0..blocks)
            .into_par_iter()
            .with_min_len((blocks as usize).div_ceil(workers.max(1)))
            .map(
                |place: u32| -> Result<Vec<Start>, AllocError>
                    ensures { IfOk result (λ part. IsPart G.rules self.entry.now.tier (block_in self.entry.now.dealing.rows place) part.items) }
                { self.start_block(alloc, place) },
            )
            .collect(rt, alloc)
    }
}

/// Returns the start value of each index of a tier, in order, found by at most as many threads as workers or processors. The tier has at most `TIER_SIZE`
/// indexes.
pub(crate) fn starts_by_threads<G: Game + Send + Sync, R: Threads + Sync>(
    rt: &R,
    alloc: Global,
    tier: u64,
    workers: usize,
) -> Result<Vec<Start>, AllocError>
    requires { G.rules.tier_size tier ≤ TIER_SIZE }
    ensures length { IfOk result (λ all. length all.items ≡ G.rules.tier_size tier) }
    ensures starts { IfOk result (λ all. AreStarts G.rules tier 0 all.items) }
{
    let scan = Scan::<G>::of(tier);
    let found = scan.start_all(rt, alloc, workers)?;
    scan.in_order_of(alloc, found.as_slice())
}
