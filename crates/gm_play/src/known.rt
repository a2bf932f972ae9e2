//! Positions about which every question has an answer.
ghost use Rattle.std.specs.Prelude.{◌≡◌, true};
ghost use Rattle.gm_play.specs.Reached.{AreAllHeld};

use crate::best_moves::best_of;
use gm_game::game::Game;
use gm_game::position::{Position, Solved};
use gm_table::tables::Tables;
use std::alloc::AllocError;

/// A legal position, with tables of every tier that play from it can come to: each question about it, and about the positions that play comes to, has an
/// answer.
pub struct Known<'t, G: Game> {
    pub tables: &'t Tables<G>,
    pub position: Position,
    pub ghost legal: { G.rules.is_legal position ≡ true },
    pub ghost held: { AreAllHeld G.rules tables.now position.tier },
}

impl<G: Game> Clone for Known<'_, G> {
    ghost is_clone = { λ known copy. copy ≡ known };

    fn clone(&self) -> Result<Self, AllocError> {
        Ok(*self)
    }
}

impl<G: Game> Copy for Known<'_, G> {}

impl<'t, G: Game> Known<'t, G> {
    ghost use Rattle.std.specs.Prelude.{◌≤◌};
    ghost use Rattle.std.specs.List.{Contains};
    ghost use Rattle.gm_game.specs.declared.limits.TheConstants.{REMOTENESS};
    ghost use Rattle.gm_game.specs.Values.{IsTrueValue};
    ghost use Rattle.gm_table.specs.Tables.{AreTables};
    ghost use Rattle.gm_play.specs.BestMoves.{IsBestMove};
    ghost use Rattle.gm_play.specs.Reached.{IsReached};

    /// Returns the true value of the position with its remoteness. It takes no memory.
    pub fn value(&self) -> Solved
        ensures value { IsTrueValue G.rules self.now.position result }
        ensures small { result.remoteness ≤ REMOTENESS }
    {
        self.tables.get(self.position).unwrap()
    }

    /// Returns the number of the best move, or `None` at an end. It takes no memory.
    pub fn best_move(&self) -> Option<u32>
        ensures { IsBestMove G.rules self.now.position result }
    {
        best_of(self.tables, self.position)
    }

    /// Returns the result of a move. It takes no memory.
    pub fn play(&self, number: u32) -> Known<'t, G>
        requires { Contains (G.rules.moves self.now.position) number }
        ensures { result.position ≡ G.rules.play self.now.position number }
    {
        self.at(G::play(self.position, number))
    }

    /// Returns a position to whose tier play from this one can come.
    pub fn at(&self, position: Position) -> Known<'t, G>
        requires { IsReached G.rules self.now.position.tier position }
        ensures { result.position ≡ position }
    {
        Known {
            tables: self.tables,
            position,
        }
    }

    /// Has no effect; its contract states that each held table is the true one of its tier.
    pub fn truth(&self)
        ensures { AreTables G.rules self.now.tables.now }
    {
        let _held = self.tables.has(self.position.tier);
    }
}
