//! Tables that all answers about their positions can be read from.
ghost use Rattle.gm_play.specs.Reached.{AreClosed};

use crate::known::Known;
use gm_game::game::Game;
use gm_game::position::Position;
use gm_table::tables::Tables;

/// Tables that, with each tier, hold every tier that play from it can come to.
#[derive(Drop)]
pub struct Closed<'t, G: Game> {
    pub tables: &'t Tables<G>,
    pub ghost closed: { AreClosed G.rules tables.now },
}

impl<'t, G: Game> Closed<'t, G> {
    ghost use Rattle.std.specs.Prelude.{◌≡◌, ◌↔◌, true, IsSome, IfSome};
    ghost use Rattle.gm_table.specs.Tables.{IsHeld};

    /// Returns a legal position, if its tier has a table. It takes no memory.
    pub fn known(&self, position: Position) -> Option<Known<'t, G>>
        requires { G.rules.is_legal position ≡ true }
        ensures known { IfSome result (λ known. known.position ≡ position) }
        ensures held { IsSome result ↔ IsHeld self.now.tables.now position.tier }
    {
        if !self.tables.has(position.tier) {
            return None;
        }
        Some(Known {
            tables: self.tables,
            position,
        })
    }
}
