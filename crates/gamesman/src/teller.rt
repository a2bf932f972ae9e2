//! Progress reports of a build or a check on standard error.

use crate::live::Live;
use gm_build::progress::Progress;
use gm_command::requests::Telling;
use gm_game::game::Game;
use gm_game::position::Place;
use gm_immediate::observer::Observer;
use std::alloc::{AllocError, Global};
use std::io::Write;
use std::sync::Wait;
use std::time::Clock;

/// The reporter of a build: by lines, by one line at a terminal, or not at all. One type covers all three, since a build is
/// compiled once for each type of observer.
#[derive(Drop)]
pub enum Teller<'a, C, E: Write> {
    Lines(Progress<'a, C, E>),
    Live(Live<'a, C, E>),
}

impl<'a, C: Clock, E: Write> Teller<'a, C, E> {
    /// Returns the reporter for a build or a check of these tiers of a game.
    pub fn new<G: Game>(
        alloc: Global,
        clock: &'a C,
        errors: &'a mut E,
        telling: Telling,
        tiers: &[u64],
    ) -> Result<Self, AllocError> {
        match telling {
            Telling::Quiet => Ok(Teller::Lines(Progress::quiet(clock, errors))),
            Telling::Lines => Ok(Teller::Lines(Progress::new(clock, errors))),
            Telling::Terminal => {
                let sizes = sizes_of::<G>(alloc, tiers)?;
                Ok(Teller::Live(Live::new(clock, errors, sizes)))
            }
        }
    }

    /// Removes the line at a terminal, if there is one.
    pub fn clear(&self) {
        match self {
            Teller::Lines(_) => {}
            Teller::Live(live) => live.clear(),
        }
    }
}

// Returns the number of indexes of each of these tiers.
fn sizes_of<G: Game>(alloc: Global, tiers: &[u64]) -> Result<Vec<u64>, AllocError> {
    let mut sizes = Vec::new(alloc);
    for tier in tiers {
        sizes.push(G::tier_size(*tier))?;
    }
    Ok(sizes)
}

impl<C: Clock + Sync, E: Write + Send> Observer for Teller<'_, C, E> {
    fn begin<R: Wait>(&self, rt: &R, tiers: usize) {
        match self {
            Teller::Lines(lines) => lines.begin(rt, tiers),
            Teller::Live(live) => live.begin(rt, tiers),
        }
    }

    fn read<R: Wait>(&self, rt: &R, tier: u64) {
        match self {
            Teller::Lines(lines) => lines.read(rt, tier),
            Teller::Live(live) => live.read(rt, tier),
        }
    }

    fn settle<R: Wait>(&self, rt: &R, tier: u64, size: u64) {
        match self {
            Teller::Lines(lines) => lines.settle(rt, tier, size),
            Teller::Live(live) => live.settle(rt, tier, size),
        }
    }

    fn settled(&self, indexes: u64) {
        match self {
            Teller::Lines(lines) => lines.settled(indexes),
            Teller::Live(live) => live.settled(indexes),
        }
    }

    fn solve<R: Wait>(&self, rt: &R, tier: u64) {
        match self {
            Teller::Lines(lines) => lines.solve(rt, tier),
            Teller::Live(live) => live.solve(rt, tier),
        }
    }

    fn level<R: Wait>(&self, rt: &R, place: Place) {
        match self {
            Teller::Lines(lines) => lines.level(rt, place),
            Teller::Live(live) => live.level(rt, place),
        }
    }

    fn delivered<R: Wait>(&self, rt: &R, pairs: u64) {
        match self {
            Teller::Lines(lines) => lines.delivered(rt, pairs),
            Teller::Live(live) => live.delivered(rt, pairs),
        }
    }
}
