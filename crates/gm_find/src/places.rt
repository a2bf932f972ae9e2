//! Sets of positions.
ghost use Rattle.std.specs.Prelude.{◌≡◌, ◌⊎◌, ◌↔◌, [], IsTrue, IfOk, OnOk};
ghost use Rattle.std.specs.List.{Contains};
ghost use Rattle.gm_game.specs.declared.position.Position.{Position};
ghost use Rattle.gm_find.specs.Reaching.{key_of};

use gm_game::position::Position;
use std::alloc::{AllocError, Global};
use std::collections::HashSet;

/// A set of positions. It takes 16 bytes and a place in a hash table for each.
#[derive(Drop)]
pub(crate) struct Places {
    set: HashSet<(u64, u64)>,
}

impl Places {
    /// Returns the set without positions.
    pub(crate) fn new(alloc: Global) -> Self
        ensures { result.set.keys ≡ [] }
    {
        Places {
            set: HashSet::new(alloc),
        }
    }

    /// Tests whether a position is in the set. It takes no memory.
    pub(crate) fn has(&self, p: Position) -> bool
        ensures { IsTrue result ↔ Contains self.now.set.keys (key_of p) }
    {
        self.set.contains(&(p.tier, p.index))
    }

    /// Adds a position, if the set does not have it.
    pub(crate) fn add(&mut self, p: Position) -> Result<(), AllocError>
        ensures { OnOk result ((q : Position) → Contains self.new.set.keys (key_of q) ↔ (Contains self.old.set.keys (key_of q) ⊎ (p ≡ q))) }
    {
        match self.set.insert((p.tier, p.index)) {
            Ok(_) => Ok(()),
            Err(_) => Err(AllocError),
        }
    }
}
