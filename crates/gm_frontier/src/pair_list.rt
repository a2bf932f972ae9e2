//! Lists of pairs.
ghost use Rattle.std.specs.Prelude.{◌≡◌, ◌<◌, [], ◌++◌, ◌∷◌, length, slice_get, Some, OnOk, OnErr};

use crate::note::Note;
use gm_game::game::Game;
use gm_game::position::{Position, Solved};
use std::alloc::{AllocError, Global};
use std::marker::{Model, PhantomData};

// A note's position and value, and the index of a parent. It names no game, so all games share the code of its lists.
#[derive(Clone, Copy)]
struct Pair {
    position: Position,
    solved: Solved,
    parent: u64,
}

/// A list of notes, each with the index of a parent. Contracts see these pairs.
#[derive(Drop)]
pub struct PairList<G: Game> {
    pairs: Vec<Pair>,
    game: PhantomData<G>,
}

impl<G: Game> Model for PairList<G> {
    ghost use Rattle.std.specs.Prelude.{ℕ, List, map};
    ghost use Rattle.gm_frontier.specs.Notes.{NoteData};
    ghost use Rattle.gm_frontier.specs.inner.PairLists.{pair_of, ArePairs};

    ghost Value = { List (NoteData × ℕ) };

    ghost view = { λ l. map pair_of l.pairs.items };

    ghost invariant = { λ l. ArePairs G.rules l.pairs.items };
}

impl<G: Game> PairList<G> {
    /// Returns an empty list.
    pub fn new(alloc: Global) -> PairList<G>
        ensures { result ≡ [] }
    {
        PairList {
            pairs: Vec::new(alloc),
            game: PhantomData,
        }
    }

    /// Adds a pair at the end. If memory is refused, the list is unchanged.
    pub fn push(&mut self, note: &Note<G>, parent: u64) -> Result<(), AllocError>
        ensures ok { OnOk result (self.new ≡ self.old ++ (note.now, parent) ∷ []) }
        ensures err { OnErr result (self.new ≡ self.old) }
    {
        self.pairs.push(Pair {
            position: note.position(),
            solved: note.solved(),
            parent,
        })?;
        Ok(())
    }

    /// Removes all pairs.
    pub fn clear(&mut self)
        ensures { self.new ≡ [] }
    {
        self.pairs.clear();
    }

    /// Returns how many pairs there are.
    pub fn len(&self) -> usize
        ensures { result ≡ length self.now }
    {
        self.pairs.len()
    }

    /// Returns the pair with this number, from 0.
    pub fn at(&self, k: usize) -> (Note<G>, u64)
        requires { k < length self.now }
        ensures { slice_get self.now k ≡ Some result }
    {
        let pair = self.pairs[k];
        (Note::of(pair.position, pair.solved), pair.parent)
    }
}
