//! A level that workers share in pieces.
ghost use Rattle.std.specs.Prelude.{◌≡◌, ◌<◌, ◌≤◌};
ghost use Rattle.gm_backward.specs.inner.Cuts.{AreCuts};

use crate::cuts::Cuts;
use gm_frontier::level::Level;
use gm_game::game::Game;

/// A level, the number of notes in a piece of it, and the cuts of its tier.
#[derive(Drop)]
pub struct LevelJob<'a, G: Game> {
    pub level: &'a Level<'a, G>,
    pub notes: usize,
    pub cuts: Cuts,
    ghost some: { 0 < notes },
    ghost cuts_are: { AreCuts G.rules level.now.place.tier cuts },
}
