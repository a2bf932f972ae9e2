//! Exact counts of the pairs into a range, level by level.
ghost use Rattle.std.specs.Prelude.{◌≡◌, ◌↔◌, ◌+◌, ◌≤◌, IsTrue, None, Some};

use crate::last::Last;
use crate::level::Level;
use crate::tally::{Tally, tallied};
use gm_game::game::Game;
use gm_game::limits::TIER_SIZE;
use gm_game::position::{Phase, Place};
use std::marker::{Model, PhantomData};

/// How many pairs there are into an index range of a tier, from all levels added so far.
#[derive(Drop)]
pub struct Expected<G: Game> {
    tier: u64,
    lo: u64,
    hi: u64,
    last: Option<Place>,
    phase: Phase,
    number: u64,
    game: PhantomData<G>,
}

impl<G: Game> Model for Expected<G> {
    ghost use Rattle.gm_frontier.specs.Counts.{ExpectedData, IsExpected, next_level};

    ghost Value = { ExpectedData };

    ghost view = { λ e. record { tier = e.tier; lo = e.lo; hi = e.hi; last = e.last; phase = e.phase; level = next_level e.last e.phase; number = e.number } };

    ghost invariant = { λ e. IsExpected G.rules
        (record { tier = e.tier; lo = e.lo; hi = e.hi; last = e.last; phase = e.phase; level = next_level e.last e.phase; number = e.number }) };
}

impl<G: Game> Expected<G> {
    ghost use Rattle.gm_game.specs.declared.position.Phase.TheVariants.{WinLose, Ties};
    ghost use Rattle.gm_frontier.specs.Levels.{place_at};
    ghost use Rattle.gm_frontier.specs.Counts.{ExpectedData, IsExpected, with_level};
    ghost use Rattle.gm_frontier.specs.inner.Tallies.{number_into, AreTallies};

    /// Returns the count before the first level: no pairs into the indexes of the tier from `lo` up to `hi`.
    pub fn start(tier: u64, lo: u64, hi: u64) -> Self
        requires { G.rules.tier_size tier ≤ TIER_SIZE }
        ensures { result ≡ record { tier = tier; lo = lo; hi = hi; last = None; phase = WinLose; level = 0; number = 0 } }
    {
        Expected {
            tier,
            lo,
            hi,
            last: None,
            phase: Phase::WinLose,
            number: 0,
            game: PhantomData,
        }
    }

    /// Returns whether the level is the next one, as `add` and `add_counted` want it.
    pub fn takes(&self, level: &Level<G>) -> bool
        ensures { IsTrue result ↔ (level.now.place ≡ place_at self.now.tier self.now.phase self.now.level) }
    {
        let place = level.place();
        let before = match self.last {
            Some(last) if last.phase == self.phase => Some(last.level),
            _ => None,
        };
        place.tier == self.tier && place.phase == self.phase && place.level.checked_sub(1) == before
    }

    /// Adds the pairs of the next level: it walks them.
    pub fn add(&mut self, level: &Level<G>)
        requires { level.now.place ≡ place_at self.old.tier self.old.phase self.old.level }
        ensures { self.new ≡ with_level self.old level.now.place (number_into G.rules self.old.tier self.old.lo self.old.hi level.now.notes) }
    {
        let place = level.place();
        self.number += level.number_into(self.lo, self.hi);
        self.last = Some(place);
    }

    /// Adds the pairs of the next level by the tallies of its pieces, without a walk.
    pub fn add_counted(&mut self, level: &Level<G>, tallies: &[Tally<G>])
        requires next { level.now.place ≡ place_at self.old.tier self.old.phase self.old.level }
        requires tallies { AreTallies G.rules level.now self.old.lo self.old.hi tallies.now }
        ensures { self.new ≡ with_level self.old level.now.place (number_into G.rules self.old.tier self.old.lo self.old.hi level.now.notes) }
    {
        let place = level.place();
        self.number += tallied(level, tallies, self.lo, self.hi);
        self.last = Some(place);
    }

    /// Turns to ties, when no win or loss is left.
    pub fn next_phase(&mut self, last: &Last<G>)
        requires stands { last.now ≡ place_at self.old.tier WinLose self.old.level }
        requires phase { self.old.phase ≡ WinLose }
        ensures { self.new ≡ record self.old { phase = Ties; level = 0 } }
    {
        let _last = last.place();
        self.phase = Phase::Ties;
    }

    /// Returns the number of pairs, which is exact.
    pub fn number(&self) -> u64
        ensures value { result ≡ self.now.number }
        ensures exact { IsExpected G.rules self.now }
    {
        self.number
    }

    /// Returns the tier.
    pub fn tier(&self) -> u64
        ensures { result ≡ self.now.tier }
    {
        self.tier
    }

    /// Returns the index range: the first index, and the one past the last.
    pub fn range(&self) -> (u64, u64)
        ensures lo { result.0 ≡ self.now.lo }
        ensures hi { result.1 ≡ self.now.hi }
    {
        (self.lo, self.hi)
    }

    /// Returns the place of the last level that was added, or `None` before the first.
    pub fn last(&self) -> Option<Place>
        ensures { result ≡ self.now.last }
    {
        self.last
    }
}
