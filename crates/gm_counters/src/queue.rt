//! Indexes in the order in which they were settled.
ghost use Rattle.std.specs.Prelude.{◌≡◌, ◌≤◌, ◌<◌, [], ◌∷◌, ◌++◌, length, IfOk, slice_range};

use std::alloc::{AllocError, Global};
use std::marker::Model;

/// Indexes in the order in which they were settled, with room for all that can come. The indexes of the present level are a part in the middle.
#[derive(Drop)]
pub(crate) struct Queue {
    indexes: Vec<u32>,
    from: usize,
    to: usize,
}

impl Model for Queue {
    ghost use Rattle.std.specs.Prelude.{◌≤◌, length, vec_capacity};
    ghost use Rattle.gm_counters.specs.inner.Queues.{QueueData};

    ghost Value = { QueueData };

    ghost view = { λ q. record { indexes = q.indexes.items; from = q.from; to = q.to; room = vec_capacity q.indexes } };

    ghost invariant = { λ q. (q.from ≤ q.to) × (q.to ≤ length q.indexes.items) };
}

impl Queue {
    /// Returns an empty queue with room for this many indexes.
    pub(crate) fn new(alloc: Global, room: usize) -> Result<Self, AllocError>
        ensures { IfOk result (λ q. (q.indexes ≡ []) × (q.from ≡ 0) × (q.to ≡ 0) × (room ≤ q.room)) }
    {
        let mut indexes = Vec::new(alloc);
        indexes.reserve(room)?;
        Ok(Queue {
            indexes,
            from: 0,
            to: 0,
        })
    }

    /// Adds an index at the end, if there is room.
    pub(crate) fn push(&mut self, index: u32)
        requires { length self.old.indexes < self.old.room }
        ensures items { self.new.indexes ≡ self.old.indexes ++ index ∷ [] }
        ensures from { self.new.from ≡ self.old.from }
        ensures to { self.new.to ≡ self.old.to }
        ensures room { self.old.room ≤ self.new.room }
    {
        let _done = self.indexes.push(index);
    }

    /// Turns to the next level: what was added after the present part becomes the present part.
    pub(crate) fn advance(&mut self)
        ensures { self.new ≡ record self.old { from = self.old.to; to = length self.old.indexes } }
    {
        self.from = self.to;
        self.to = self.indexes.len();
    }

    /// Returns the indexes of the present level, in the order in which they were settled.
    pub(crate) fn present(&self) -> &[u32]
        ensures { result.now ≡ slice_range self.now.indexes self.now.from self.now.to }
    {
        &self.indexes[self.from..self.to]
    }
}
