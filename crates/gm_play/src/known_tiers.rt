//! Tiers about whose positions every question has an answer.
ghost use Rattle.std.specs.Prelude.{ℕ};
ghost use Rattle.std.specs.List.{Contains};
ghost use Rattle.gm_play.specs.Reached.{AreAllHeld};

use gm_game::game::Game;
use gm_table::tables::Tables;

/// Tiers, with tables of every tier that play from them can come to.
#[derive(Drop)]
pub struct KnownTiers<'t, G: Game> {
    pub tables: &'t Tables<G>,
    pub tiers: &'t [u64],
    pub ghost held: { (tier : ℕ) → Contains tiers.now tier → AreAllHeld G.rules tables.now tier },
}
