//! The notes of one place in a part of a tier.
ghost use Rattle.std.specs.Prelude.{◌≡◌};

use crate::note::Note;
use gm_game::game::Game;
use gm_game::position::Place;
use std::marker::{Model, PhantomData};

/// All notes of one phase and remoteness in an index range of a tier, ascending.
#[derive(Drop)]
pub struct Run<G: Game> {
    place: Place,
    lo: u64,
    hi: u64,
    notes: Vec<Note<G>>,
}

impl<G: Game> Model for Run<G> {
    ghost use Rattle.gm_frontier.specs.Levels.{RunData, IsRunOfNotes};

    ghost Value = { RunData };

    ghost view = { λ r. record { place = r.place; lo = r.lo; hi = r.hi; notes = r.notes.items } };

    ghost invariant = { λ r. IsRunOfNotes G.rules r.place r.lo r.hi r.notes.items };
}

impl<G: Game> Run<G> {
    ghost use Rattle.gm_frontier.specs.Levels.{IsRunOfNotes};

    /// Makes a run of the notes of the place with indexes from `lo` up to `hi`.
    pub fn of(place: Place, lo: u64, hi: u64, list: Vec<Note<G>>) -> Self
        requires { IsRunOfNotes G.rules place lo hi list.items }
        ensures { result ≡ record { place = place; lo = lo; hi = hi; notes = list.items } }
    {
        Run {
            place,
            lo,
            hi,
            notes: list,
        }
    }

    /// Returns the notes, ascending by index.
    pub fn list(&self) -> &[Note<G>]
        ensures value { result.now ≡ self.now.notes }
        ensures run { IsRunOfNotes G.rules self.now.place self.now.lo self.now.hi self.now.notes }
    {
        self.notes.as_slice()
    }

    /// Returns the tier.
    pub fn tier(&self) -> u64
        ensures { result ≡ self.now.place.tier }
    {
        self.place.tier
    }

    /// Returns the place.
    pub fn place(&self) -> Place
        ensures { result ≡ self.now.place }
    {
        self.place
    }

    /// Returns the index range: the first index, and the one past the last.
    pub fn range(&self) -> (u64, u64)
        ensures lo { result.0 ≡ self.now.lo }
        ensures hi { result.1 ≡ self.now.hi }
    {
        (self.lo, self.hi)
    }
}
