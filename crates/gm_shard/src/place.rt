//! The place of a child among the canonical children of a parent.
ghost use Rattle.gm_shard.specs.inner.Masks.{IsPlaceOf};

use gm_frontier::note::Note;
use gm_game::children::{child_place, is_inner};
use gm_game::game::Game;
use gm_game::position::Position;

/// Returns the place of a note's position among the canonical children of a parent, or `None` if it is not one of them or the parent is no canonical legal
/// position at which the game goes on. Finding this place is the most expensive part of a delivery and needs no shard, so it is done before a lock is taken.
pub fn place_of<G: Game>(note: &Note<G>, tier: u64, parent: u64) -> Option<u32>
    ensures { IsPlaceOf G.rules note.now.position tier parent result }
{
    let p = Position {
        tier,
        index: parent,
    };
    if is_inner::<G>(p) {
        child_place::<G>(p, note.position())
    } else {
        None
    }
}
