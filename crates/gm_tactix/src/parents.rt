//! Moves taken back: the boards before a board.
ghost use Rattle.std.specs.Prelude.{◌≡◌, ◌+◌, ◌*◌, ◌<◌, ◌≤◌, ◌^◌, Bool, map, []};
ghost use Rattle.gm_game.specs.Ascending.{put_all};
ghost use Rattle.gm_game.specs.Boards.{least_index as least_index_of};
ghost use Rattle.gm_pieces.specs.MoveGames.{board_game, befores};
ghost use Rattle.gm_tactix.specs.Board.{tactix};
ghost use Rattle.gm_tactix.specs.inner.CounterMasks.{counters_of};
ghost use Rattle.gm_tactix.specs.inner.Befores.{AreBeforesBelow};

use crate::counters::least_index;
use crate::moves::{given_back, was_taken};
use arrayvec::ArrayVec;
use gm_game::limits::PARENTS;
use gm_pieces::ascending::put;

// Puts into the list the least index of the board before the segment with this number was taken, if it can have been.
#[tactic(auto, using(crate::specs::laws::CounterMaskFacts::counters_length, crate::proofs::BeforeSteps::taken_room, crate::proofs::BeforeSteps::taken_more, crate::proofs::BeforeSteps::taken_less))]
fn put_before(list: &mut ArrayVec<u64, PARENTS>, side: u32, tier: u64, counters: u32, number: u32)
    requires low { 1 ≤ side }
    requires high { side ≤ 5 }
    requires within { counters < 2 ^ (side * side) }
    requires before { (misere : Bool) → AreBeforesBelow side misere tier (counters_of (side * side) counters) number list.old.items }
    ensures { (misere : Bool) → AreBeforesBelow side misere tier (counters_of (side * side) counters) (number + 1) list.new.items }
{
    if was_taken(side, tier, counters, number) {
        put(
            list,
            least_index(side, given_back(side, tier, counters, number)),
        );
    }
}

/// Writes the least indexes of the boards with `tier` counters from which a move leads to this one, ascending and once each, over what the list holds: in the
/// normal game and in misère.
#[tactic(auto, using(crate::specs::laws::CounterMaskFacts::counters_length, crate::specs::laws::CounterMaskFacts::counters_members, crate::proofs::BeforeSteps::shorter_skip, crate::proofs::BeforeSteps::longer_skip))]
pub fn fill_parents(side: u32, tier: u64, counters: u32, list: &mut ArrayVec<u64, PARENTS>)
    requires low { 1 ≤ side }
    requires high { side ≤ 5 }
    requires within { counters < 2 ^ (side * side) }
    ensures { (misere : Bool) → list.new.items ≡ put_all [] (map (least_index_of (board_game (tactix side misere))) (befores (tactix side misere) tier
        (counters_of (side * side) counters))) }
{
    list.clear();
    let length = tier.saturating_sub(u64::from(counters.count_ones()));
    if length > u64::from(side) {
        return;
    }
    // Only segments of this length, in a row or in a column, can have been taken.
    for first in 0..side * side {
        let number = 16 * first + 2 * length as u32;
        put_before(list, side, tier, counters, number);
        put_before(list, side, tier, counters, number + 1);
    }
}
