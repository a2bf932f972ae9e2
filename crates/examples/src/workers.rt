//! A source and a gate of one's own. They can't change the tables, so they may count, log, slow down, or choose.
use gm_game::position::Place;
use gm_solver::gate::Gate;
use gm_solver::source::Source;
use std::sync::Wait;
use std::sync::atomic::{AtomicU64, AtomicUsize, Ordering};

/// Hands out the pieces of a level from the last to the first.
#[derive(Drop)]
pub struct Backwards {
    left: AtomicUsize,
}

impl Backwards {
    pub fn new() -> Self {
        Backwards {
            left: AtomicUsize::new(0),
        }
    }
}

impl Source for Backwards {
    fn begin<R: Wait>(&self, _rt: &R, pieces: usize) {
        self.left.store(pieces, Ordering::SeqCst);
    }

    fn next<R: Wait>(&self, _rt: &R, _worker: usize) -> Option<usize> {
        let left = self.left.fetch_sub(1, Ordering::SeqCst);
        // Below zero the number wraps round; a number that names no piece is ignored.
        left.checked_sub(1)
    }
}

/// Counts the deliveries of the workers.
#[derive(Drop)]
pub struct Tachometer {
    deliveries: AtomicU64,
}

impl Tachometer {
    pub fn new() -> Self {
        Tachometer {
            deliveries: AtomicU64::new(0),
        }
    }

    pub fn deliveries(&self) -> u64 {
        self.deliveries.load(Ordering::SeqCst)
    }
}

impl Gate for Tachometer {
    // It only counts, so a worker may deliver many pairs at a time.
    const EACH: bool = false;

    fn before<R: Wait>(&self, _rt: &R, _worker: usize, _place: Place) {}

    fn after<R: Wait>(&self, _rt: &R, _worker: usize, _place: Place) {
        self.deliveries.fetch_add(1, Ordering::SeqCst);
    }
}
