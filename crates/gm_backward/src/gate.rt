//! What is called before and after each delivery of a worker.

use gm_game::position::Place;
use std::sync::Wait;

/// Called before and after each delivery of a worker, whose number is given. It may wait, as tests do to make workers meet. No shard is locked during these
/// calls.
pub trait Gate: Drop + Sync {
    /// Whether each delivery comes between its own two calls, so that a gate may take something in `before` and free it in `after`. If this is false, a worker
    /// may deliver many pairs while it holds a lock once: then `before` is called for each of them first, and `after` for each when all are delivered.
    const EACH: bool;

    /// Called before a delivery at this place.
    fn before<R: Wait>(&self, rt: &R, worker: usize, place: Place);

    /// Called after a delivery at this place.
    fn after<R: Wait>(&self, rt: &R, worker: usize, place: Place);
}

/// A gate that does nothing.
#[derive(Clone, Copy, Debug, Drop)]
pub struct NoGate;

impl Gate for NoGate {
    const EACH: bool = false;

    fn before<R: Wait>(&self, _rt: &R, _worker: usize, _place: Place) {}

    fn after<R: Wait>(&self, _rt: &R, _worker: usize, _place: Place) {}
}
