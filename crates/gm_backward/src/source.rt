//! What tells workers which piece of a level to take next.

use std::sync::Wait;
use std::sync::atomic::{AtomicUsize, Ordering};

/// Hands out the numbers of a level's pieces. The table of the tier does not depend on its answers.
pub trait Source: Drop + Sync {
    /// Called once for each level that is run, before its workers start, with the number of its pieces.
    fn begin<R: Wait>(&self, rt: &R, pieces: usize);

    /// Returns the number of the piece that a worker takes next, or `None` if there is nothing for it.
    fn next<R: Wait>(&self, rt: &R, worker: usize) -> Option<usize>;
}

/// Hands out the numbers of the pieces, from 0 on and each once, and then `None`.
#[derive(Debug, Drop)]
pub struct Counter {
    pieces: AtomicUsize,
    next: AtomicUsize,
}

impl Counter {
    /// Returns a counter before the first level, which hands out nothing.
    pub fn new() -> Self {
        Counter {
            pieces: AtomicUsize::new(0),
            next: AtomicUsize::new(0),
        }
    }
}

impl Source for Counter {
    fn begin<R: Wait>(&self, _rt: &R, pieces: usize) {
        self.pieces.store(0, Ordering::SeqCst);
        self.next.store(0, Ordering::SeqCst);
        self.pieces.store(pieces, Ordering::SeqCst);
    }

    fn next<R: Wait>(&self, _rt: &R, _worker: usize) -> Option<usize> {
        let piece = self.next.fetch_add(1, Ordering::SeqCst);
        (piece < self.pieces.load(Ordering::SeqCst)).then_some(piece)
    }
}
