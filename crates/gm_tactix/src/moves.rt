//! Moves on masks of counters.
ghost use Rattle.std.specs.Prelude.{◌≡◌, ◌<◌, ◌≤◌, ◌^◌, ◌*◌, true};
ghost use Rattle.gm_tactix.specs.Segments.{segment_cells};
ghost use Rattle.gm_tactix.specs.Board.{can_take as can_take_of, play as play_of, was_taken as was_taken_of, with_counters};
ghost use Rattle.gm_tactix.specs.inner.CounterMasks.{counters_of};

use crate::masks::segment_mask;

/// Returns whether the segment with this number can be taken: false if there is no such segment.
#[tactic(auto, using(crate::proofs::MaskMoves::take_of, crate::proofs::MaskMoves::no_segment, crate::proofs::MaskTable::mask_of_segment, crate::proofs::MaskTable::none_by_mask, crate::proofs::MaskTable::segment_by_mask))]
pub fn can_take(side: u32, counters: u32, number: u32) -> bool
    requires low { 1 ≤ side }
    requires high { side ≤ 5 }
    ensures { result ≡ can_take_of side (counters_of (side * side) counters) number }
{
    let cells = segment_mask(side, number);
    cells != 0 && counters & cells == cells
}

/// Returns the counters that are left when those of a segment are taken.
#[tactic(auto, using(crate::specs::laws::MoveFacts::take_segment, crate::proofs::MaskMoves::play_of, crate::proofs::MaskTable::mask_of_segment))]
pub fn play(side: u32, counters: u32, number: u32) -> u32
    requires low { 1 ≤ side }
    requires high { side ≤ 5 }
    requires within { counters < 2 ^ (side * side) }
    requires segment { can_take_of side (counters_of (side * side) counters) number ≡ true }
    ensures board { counters_of (side * side) result ≡ play_of side (counters_of (side * side) counters) number }
    ensures within { result < 2 ^ (side * side) }
{
    counters & !segment_mask(side, number)
}

/// Returns whether taking the segment with this number can have left these counters of `tier` counters: false if there is no such segment.
#[tactic(auto, using(crate::proofs::MaskMoves::taken_of, crate::proofs::MaskMoves::not_free, crate::proofs::MaskMoves::not_taken, crate::proofs::MaskTable::mask_of_segment, crate::proofs::MaskTable::none_by_mask, crate::proofs::MaskTable::segment_by_mask))]
pub fn was_taken(side: u32, tier: u64, counters: u32, number: u32) -> bool
    requires low { 1 ≤ side }
    requires high { side ≤ 5 }
    requires within { counters < 2 ^ (side * side) }
    ensures { result ≡ was_taken_of side tier (counters_of (side * side) counters) number }
{
    let cells = segment_mask(side, number);
    // The number of a segment tells its length.
    cells != 0
        && counters & cells == 0
        && u64::from(counters.count_ones() + number % 16 / 2) == tier
}

/// Returns the counters before the segment with this number was taken.
#[tactic(auto, using(crate::specs::laws::MoveFacts::taken_in, crate::proofs::MaskMoves::back_of, std::proofs::lemmas::Nat::or_lt, crate::proofs::MaskTable::mask_of_segment))]
pub fn given_back(side: u32, tier: u64, counters: u32, number: u32) -> u32
    requires low { 1 ≤ side }
    requires high { side ≤ 5 }
    requires within { counters < 2 ^ (side * side) }
    requires taken { was_taken_of side tier (counters_of (side * side) counters) number ≡ true }
    ensures board { counters_of (side * side) result ≡ with_counters (counters_of (side * side) counters) (segment_cells side number) }
    ensures within { result < 2 ^ (side * side) }
{
    counters | segment_mask(side, number)
}
