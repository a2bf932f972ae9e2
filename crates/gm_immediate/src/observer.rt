//! What is called as a build goes on.

use gm_game::position::Place;
use std::sync::Wait;

/// Follows a build. Nothing that is built depends on what an observer does. The thread that builds makes all calls but those of `settled`, and may wait in them.
pub trait Observer: Drop + Sync {
    /// Called once, when the order of tiers is made, with the number of tiers.
    fn begin<R: Wait>(&self, rt: &R, tiers: usize);

    /// Called for each tier of the order, before its entry in the store is read.
    fn read<R: Wait>(&self, rt: &R, tier: u64);

    /// Called before the one-pass attempt on a tier of `size` indexes, which may give up.
    fn settle<R: Wait>(&self, rt: &R, tier: u64, size: u64);

    /// Called by the threads of the one-pass attempt, each time that `indexes` more indexes are settled.
    fn settled(&self, indexes: u64);

    /// Called before a tier is solved level by level.
    fn solve<R: Wait>(&self, rt: &R, tier: u64);

    /// Called before the pairs of a level are delivered.
    fn level<R: Wait>(&self, rt: &R, place: Place);

    /// Called after a level, with the number of its pairs.
    fn delivered<R: Wait>(&self, rt: &R, pairs: u64);
}

/// An observer that does nothing.
#[derive(Clone, Copy, Debug, Drop)]
pub struct NoObserver;

impl Observer for NoObserver {
    fn begin<R: Wait>(&self, _rt: &R, _tiers: usize) {}

    fn read<R: Wait>(&self, _rt: &R, _tier: u64) {}

    fn settle<R: Wait>(&self, _rt: &R, _tier: u64, _size: u64) {}

    fn settled(&self, _indexes: u64) {}

    fn solve<R: Wait>(&self, _rt: &R, _tier: u64) {}

    fn level<R: Wait>(&self, _rt: &R, _place: Place) {}

    fn delivered<R: Wait>(&self, _rt: &R, _pairs: u64) {}
}
