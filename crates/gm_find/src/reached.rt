//! The positions that play from the start reaches.
ghost use Rattle.std.specs.Prelude.{◌↔◌, IsTrue, IfOk, is_some};
ghost use Rattle.gm_find.specs.Reaching.{IsReachedByPlay, AreReachedKeys};

use crate::search::search;
use gm_game::game::Game;
use gm_game::position::Position;
use std::alloc::{AllocError, Global};
use std::collections::HashSet;
use std::marker::{Model, PhantomData};

// The tiers and indexes of positions: a type that does not depend on the game.
#[derive(Drop)]
struct Keys {
    set: HashSet<(u64, u64)>,
}

/// The canonical positions that play from the start reaches: 16 bytes and a place in a hash table for each.
pub struct Reached<G: Game> {
    keys: Keys,
    game: PhantomData<G>,
}

// Dropped in one call, so that the prover tracks one value instead of every field.
impl<G: Game> Drop for Reached<G> {
    fn drop(self) {
        let Reached { keys: _, game: _ } = self;
    }
}

impl<G: Game> Model for Reached<G> {
    ghost use Rattle.std.specs.Prelude.{ℕ, List};
    ghost use Rattle.gm_find.specs.Reaching.{AreReachedKeys};

    ghost Value = { List (ℕ × ℕ) };

    ghost view = { λ s. s.keys.set.keys };

    ghost invariant = { λ s. AreReachedKeys G.rules s.keys.set.keys };
}

impl<G: Game> Reached<G> {
    /// Finds all canonical positions that play from the start reaches: each of them once, with its canonical children.
    pub fn from_start(alloc: Global) -> Result<Self, AllocError>
        ensures { IfOk result (AreReachedKeys G.rules) }
    {
        Ok(Reached {
            keys: Keys {
                set: search::<G>(alloc)?,
            },
            game: PhantomData,
        })
    }

    /// Returns whether some line of play from the start ends in a position that has this one as its canonical position. It takes no memory.
    pub fn has(&self, c: Position) -> bool
        ensures { IsTrue result ↔ IsReachedByPlay G.rules c }
    {
        self.keys.set.contains(&(c.tier, c.index))
    }
}

/// Returns true if no set is given, or if some line of play from the start ends in a position that has this one as its canonical position.
pub fn is_in<G: Game>(reached: Option<&Reached<G>>, c: Position) -> bool
    ensures { IsTrue result ↔ (IsTrue (is_some reached.entry) → IsReachedByPlay G.rules c) }
{
    match reached {
        None => true,
        Some(reached) => reached.has(c),
    }
}
