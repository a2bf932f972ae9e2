//! One pass over a tier, block by block of its indexes.
ghost use Rattle.std.specs.Prelude.{◌≡◌, ◌*◌, ◌≤◌, IfOk, IfErr, OnOk};
ghost use Rattle.gm_table.specs.Tables.{AreHeld};
ghost use Rattle.gm_table.specs.inner.Dealing.{block_in};
ghost use Rattle.gm_table.specs.Solving.{AreDeliveries, IsTooFar};
ghost use Rattle.gm_game.specs.declared.limits.TheConstants.{TIER_SIZE};
ghost use Rattle.gm_immediate.specs.OnePass.{IsStop, AreTrue, IsBlockFound, AreFound};

use crate::observer::Observer;
use crate::range::settle_range;
use crate::stop::Stop;
use gm_game::game::Game;
use gm_table::dealing::Dealing;
use gm_table::packed::Packed;
use gm_table::tables::Tables;
use rayon::prelude::*;
use std::alloc::{AllocError, Global};
use std::thread::Threads;

/// A tier of at most this many indexes is gone through by the calling thread: starting threads would cost more than it saves.
pub const FEW: u64 = 16_384;

/// One pass over a tier within the limits, whose child tiers are held.
#[derive(Drop)]
pub(crate) struct OnePass<'a, G: Game, O: Observer> {
    tier: u64,
    dealing: Dealing,
    tables: &'a Tables<G>,
    observer: &'a O,
    ghost size_is: { dealing.size ≡ G.rules.tier_size tier },
    ghost held: { AreHeld G.rules tables.now tier },
}

impl<'a, G: Game, O: Observer> OnePass<'a, G, O> {
    /// Returns the pass over a tier.
    pub(crate) fn of(tables: &'a Tables<G>, observer: &'a O, tier: u64) -> Self
        requires within { G.rules.tier_size tier ≤ TIER_SIZE }
        requires held { AreHeld G.rules tables.now tier }
        ensures { result.tier ≡ tier }
    {
        OnePass {
            tier,
            dealing: Dealing::of(G::tier_size(tier)),
            tables,
            observer,
        }
    }

    // Settles the block that belongs to a place.
    fn settle_block(&self, alloc: Global, place: u32) -> Result<(Packed, u64), Stop>
        ensures { IsBlockFound G.rules self.now.tier (block_in self.now.dealing.rows place) result }
    {
        let (lo, hi) = self.dealing.range(place);
        settle_range::<G>(alloc, self.tables, self.tier, lo, hi)
    }

    // Settles the block that belongs to a place, and reports its indexes to the observer.
    fn settle_and_report(&self, alloc: Global, place: u32) -> Result<(Packed, u64), Stop>
        ensures { IsBlockFound G.rules self.now.tier (block_in self.now.dealing.rows place) result }
    {
        let found = self.settle_block(alloc, place);
        let (lo, hi) = self.dealing.range(place);
        self.observer.settled(hi - lo);
        found
    }

    /// Settles the first block only. If a move stays in the tier, one mostly stays in that block, and the other blocks need no look.
    pub(crate) fn try_first(&self, alloc: Global) -> Result<(), Stop>
        ensures { IfErr result (IsStop G.rules self.now.tier) }
    {
        let (_records, _number) = self.settle_block(alloc, 0)?;
        Ok(())
    }

    // Settles all blocks, one after another.
    fn settle_in_turn(&self, alloc: Global) -> Result<Vec<Result<(Packed, u64), Stop>>, AllocError>
        ensures { IfOk result (λ found. AreFound G.rules self.now.tier self.now.dealing.rows found.items) }
    {
        let mut found = Vec::new(alloc);
        for place in 0..self.dealing.blocks() {
            found.push(self.settle_and_report(alloc, place))?;
        }
        Ok(found)
    }

    /// Returns the records of the tier in the order of its indexes, and the number of deliveries.
    pub(crate) fn join(
        &self,
        alloc: Global,
        found: &[Result<(Packed, u64), Stop>],
    ) -> Result<(Packed, u64), Stop>
        requires { AreFound G.rules self.now.tier self.now.dealing.rows found.now }
        ensures records { IfOk result (λ all. AreTrue G.rules self.now.tier all.0) }
        ensures number { IfOk result (λ all. AreDeliveries G.rules self.now.tier all.1) }
        ensures near { OnOk result (IsTooFar G.rules self.now.tier → ⊥) }
        ensures stop { IfErr result (IsStop G.rules self.now.tier) }
    {
        let mut all = Packed::with_capacity(alloc, self.dealing.size() as usize)?;
        let mut number = 0;
        for block in 0..self.dealing.blocks() {
            match &found[self.dealing.place_of(block) as usize] {
                Ok((records, more)) => {
                    all.append(records)?;
                    number += *more;
                }
                Err(stop) => return Err(*stop),
            }
        }
        Ok((all, number))
    }
}

impl<'a, G: Game + Send + Sync, O: Observer> OnePass<'a, G, O> {
    /// Settles all blocks. If there are many indexes and several workers, at most as many threads as workers or processors do so.
    pub(crate) fn settle_all<R: Threads + Sync>(
        &self,
        rt: &R,
        alloc: Global,
        workers: usize,
    ) -> Result<Vec<Result<(Packed, u64), Stop>>, AllocError>
        ensures { IfOk result (λ found. AreFound G.rules self.now.tier self.now.dealing.rows found.items) }
    {
        if workers <= 1 || self.dealing.size() <= FEW {
            return self.settle_in_turn(alloc);
        }
        let blocks = self.dealing.blocks();
        (0..blocks)
            .into_par_iter()
            .with_min_len((blocks as usize).div_ceil(workers))
            .map(
                |place: u32| -> Result<(Packed, u64), Stop>
                    ensures { IsBlockFound G.rules self.entry.now.tier (block_in self.entry.now.dealing.rows place) result }
                { self.settle_and_report(alloc, place) },
            )
            .collect(rt, alloc)
    }
}
