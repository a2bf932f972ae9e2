//! The end of a phase.
ghost use Rattle.std.specs.Prelude.{◌≡◌, ◌↔◌, IsTrue};
ghost use Rattle.gm_table.specs.Tables.{IsHeld, AreHeld};
ghost use Rattle.gm_frontier.specs.Levels.{IsBelow, AreBelow};

use gm_game::game::Game;
use gm_game::position::Place;
use gm_table::tables::Tables;
use std::marker::{Model, PhantomData};

/// The tier and its child tiers have no value of this phase at this remoteness or above.
#[derive(Drop)]
pub struct Last<G: Game> {
    place: Place,
    game: PhantomData<G>,
}

impl<G: Game> Model for Last<G> {
    ghost use Rattle.gm_game.specs.declared.position.Place.{Place};
    ghost use Rattle.gm_game.specs.Places.{IsLastLevel};

    ghost Value = { Place };

    ghost view = { λ l. l.place };

    ghost invariant = { λ l. IsLastLevel G.rules l.place.tier l.place.phase l.place.level };
}

// Returns whether a held tier has no value of the place's phase with its remoteness or more.
fn is_below<G: Game>(tables: &Tables<G>, tier: u64, place: Place) -> bool
    requires { IsHeld tables.now tier }
    ensures { IsTrue result ↔ IsBelow G.rules place tier }
{
    match tables.table(tier).unwrap().greatest(place.phase) {
        Some(level) => level < place.level,
        None => true,
    }
}

/// Returns whether no child tier has a value of the place's phase with its remoteness or more.
pub(crate) fn are_below<G: Game>(tables: &Tables<G>, place: Place) -> bool
    requires { AreHeld G.rules tables.now place.tier }
    ensures { IsTrue result ↔ AreBelow G.rules place }
{
    for tier in G::child_tiers(place.tier).as_slice() {
        if !is_below(tables, *tier, place) {
            return false;
        }
    }
    true
}

impl<G: Game> Last<G> {
    ghost use Rattle.gm_game.specs.Places.{IsLastLevel};

    pub(crate) fn of(place: Place) -> Self
        requires { IsLastLevel G.rules place.tier place.phase place.level }
        ensures { result ≡ place }
    {
        Last {
            place,
            game: PhantomData,
        }
    }

    /// Returns the tier.
    pub fn tier(&self) -> u64
        ensures { result ≡ self.now.tier }
    {
        self.place.tier
    }

    /// Returns the place from which on nothing of its phase is left.
    pub fn place(&self) -> Place
        ensures value { result ≡ self.now }
        ensures last { IsLastLevel G.rules self.now.tier self.now.phase self.now.level }
    {
        self.place
    }
}
