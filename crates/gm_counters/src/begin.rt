//! The start values of the positions of a shard.
ghost use Rattle.gm_game.specs.Rules.{IsCanonical};
ghost use Rattle.gm_counters.specs.inner.Begin.{IsStart};

use crate::status::Start;
use gm_game::game::Game;
use gm_game::position::{Kind, Position};

/// Returns the start value of a position.
pub fn start<G: Game>(p: Position) -> Start
    ensures { IsStart G.rules p result }
{
    match G::kind(p) {
        Kind::Hole => Start::Hole,
        Kind::Ended(_) | Kind::Inner => start_of_canonical::<G>(p),
    }
}

/// Returns the start value of a canonical legal position.
pub fn start_of_canonical<G: Game>(p: Position) -> Start
    requires { IsCanonical G.rules p }
    ensures { IsStart G.rules p result }
{
    match G::primitive(p) {
        Some(end) => Start::Ended(end),
        None => Start::Inner {
            children: G::count_children(p) as u8,
        },
    }
}
