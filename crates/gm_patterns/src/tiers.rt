//! Tiers: the boards on which one side has one number of pieces and the other another; their steps and child tiers.
ghost use Rattle.std.specs.Prelude.{◌≡◌, ◌+◌, ◌-◌, ◌^◌, ◌<◌, ◌≤◌, length, replicate};
ghost use Rattle.gm_board.specs.declared.cell.Cell.{Cell as BoardCell};
ghost use Rattle.gm_board.specs.Images.{board_of};
ghost use Rattle.std.specs.List.{filter_map};
ghost use Rattle.gm_game.specs.Ascending.{put_all};
ghost use Rattle.gm_game.specs.declared.limits.TheConstants.{CHILD_TIERS, PARENTS};
ghost use Rattle.gm_patterns.specs.Steps.{cells_in};
ghost use Rattle.gm_patterns.specs.PatternGames.{tier_of as tier_number, can_have as can_have_in, can_play as can_play_in, steps_of as steps_in, step_at as step_in, more, fewer, child_by as child_in};

use crate::rules::{PatternRules, Tiers};
use crate::step::Step;
use arrayvec::ArrayVec;
use gm_game::limits::{CHILD_TIERS, PARENTS};
use gm_game::position::End;
use gm_pieces::ascending::put;
use gm_pieces::board::Board;

/// Returns the number of the tier of the boards on which one side has one number of pieces and the other another.
#[inline(always)]
pub fn tier_of<const CELLS: u32, T: PatternRules<CELLS>>(mine: u64, theirs: u64) -> u64
    requires mine { mine < 2 ^ 32 }
    requires theirs { theirs < 2 ^ 32 }
    ensures { result ≡ tier_number T.game mine theirs }
{
    match T::basics().tiers {
        Tiers::Sides => 100 * mine.max(theirs) + mine.min(theirs),
        Tiers::Placed | Tiers::Common => mine + theirs,
        Tiers::Single(_) => 0,
    }
}

/// Returns how many pieces the side with more of them has in a tier, and how many the other side.
#[inline(always)]
pub fn numbers_in<const CELLS: u32, T: PatternRules<CELLS>>(tier: u64) -> (u64, u64)
    ensures more { result.0 ≡ more T.game tier }
    ensures fewer { result.1 ≡ fewer T.game tier }
    ensures fits { result.0 + result.1 < 2 ^ 64 }
{
    match T::basics().tiers {
        Tiers::Sides => (tier / 100, tier % 100),
        Tiers::Placed => (tier - tier / 2, tier / 2),
        Tiers::Common => (tier, 0),
        Tiers::Single(pieces) => {
            let each = u64::from(pieces);
            (each, if tier == 0 { each } else { each + 1 })
        }
    }
}

/// Returns whether the mover and the opponent can have these numbers of pieces.
#[tactic(auto, unfolding(crate::specs::PatternGames::can_have))]
pub fn can_have<const CELLS: u32, T: PatternRules<CELLS>>(mine: u64, theirs: u64) -> bool
    requires { mine + theirs < 2 ^ 64 }
    ensures { result ≡ can_have_in CELLS T.game mine theirs }
{
    mine + theirs <= u64::from(CELLS) && T::can_have(mine as u32, theirs as u32)
}

/// Returns how these numbers of pieces of the mover's and of the opponent's end the game, if they do.
pub fn over_by<const CELLS: u32, T: PatternRules<CELLS>>(mine: u32, theirs: u32) -> Option<End>
    ensures { result ≡ T.game.over mine theirs }
{
    match T::basics().ends.over {
        Some((least, end)) => (mine < least).then_some(end),
        None => None,
    }
}

// Returns whether the game goes on with these numbers of pieces.
#[tactic(auto, unfolding(crate::specs::PatternGames::can_play, crate::specs::PatternGames::can_have))]
fn can_play<const CELLS: u32, T: PatternRules<CELLS>>(mine: u64, theirs: u64) -> bool
    requires { mine + theirs < 2 ^ 64 }
    ensures { result ≡ can_play_in CELLS T.game mine theirs }
{
    can_have::<CELLS, T>(mine, theirs) && over_by::<CELLS, T>(mine as u32, theirs as u32).is_none()
}

/// Returns the steps of a tier.
#[tactic(auto, unfolding(crate::specs::PatternGames::steps_of))]
pub fn steps_of<const CELLS: u32, T: PatternRules<CELLS>>(tier: u64) -> &'static [Step]
    ensures { result.now ≡ steps_in CELLS T.game tier }
{
    let (more, fewer) = numbers_in::<CELLS, T>(tier);
    if more + fewer <= u64::from(CELLS) {
        T::steps((more + fewer) as u32)
    } else {
        &[]
    }
}

/// Returns how many steps a tier has.
#[tactic(auto, using(crate::specs::laws::TableFacts::steps_few))]
pub fn step_count<const CELLS: u32, T: PatternRules<CELLS>>(tier: u64) -> u32
    ensures { result ≡ length (steps_in CELLS T.game tier) }
{
    steps_of::<CELLS, T>(tier).len() as u32
}

/// Returns the step of a tier with this number.
#[tactic(auto, using(crate::specs::laws::MaskFacts::step_read, crate::specs::laws::MaskFacts::cells_within), unfolding(crate::specs::PatternGames::step_at))]
pub fn step_at<const CELLS: u32, T: PatternRules<CELLS>>(tier: u64, number: u32) -> Step
    requires { number < length (steps_in CELLS T.game tier) }
    ensures step { result ≡ step_in CELLS T.game tier number }
    ensures within { cells_in result.after < 2 ^ CELLS }
{
    steps_of::<CELLS, T>(tier)[number as usize]
}

// Returns a board without pieces.
#[tactic(auto, using(crate::specs::laws::MaskFacts::empty_board))]
fn no_pieces<const CELLS: u32>() -> Board<CELLS>
    requires { CELLS ≤ 25 }
    ensures { board_of CELLS result.mine result.theirs ≡ replicate CELLS BoardCell.Empty }
{
    Board { mine: 0, theirs: 0 }
}

// Returns how many pieces there are after a step, from how many there were, and how many it takes and brings.
fn number_after(was: u64, before: u32, after: u32) -> u64
    requires { was < 2 ^ 63 }
    ensures { result ≡ was + after - before }
{
    (was + u64::from(after)).saturating_sub(u64::from(before))
}

// Returns the other tier to which a step leads from these numbers of pieces, if it leads to one.
#[tactic(auto, using(crate::specs::laws::MaskFacts::cells_few, crate::specs::laws::TableFacts::played_few), unfolding(crate::specs::PatternGames::child_by, crate::specs::PatternGames::has_enough, crate::specs::PatternGames::tier_after))]
fn child_by<const CELLS: u32, T: PatternRules<CELLS>>(
    mine: u64,
    theirs: u64,
    step: Step,
) -> Option<u64>
    requires numbers { mine + theirs < 2 ^ 63 }
    requires cells { cells_in step.after < 2 ^ CELLS }
    ensures { result ≡ child_in CELLS T.game mine theirs step }
{
    if !can_play::<CELLS, T>(mine, theirs) {
        return None;
    }
    let before = step.taken_back(no_pieces::<CELLS>());
    let after = step.made(no_pieces::<CELLS>());
    let own = number_after(mine, before.own_pieces(), after.own_pieces());
    let other = number_after(theirs, before.their_pieces(), after.their_pieces());
    if u64::from(before.own_pieces()) > mine
        || u64::from(before.their_pieces()) > theirs
        || own + other > u64::from(CELLS)
    {
        return None;
    }
    let child = tier_of::<CELLS, T>(own, other);
    (child != tier_of::<CELLS, T>(mine, theirs)).then_some(child)
}

/// Puts the other tiers to which the steps of a tier lead from these numbers of pieces into a list.
pub fn put_children<const CELLS: u32, T: PatternRules<CELLS>>(
    tier: u64,
    mine: u64,
    theirs: u64,
    list: &mut ArrayVec<u64, PARENTS>,
)
    requires numbers { mine + theirs < 2 ^ 63 }
    requires room { length (put_all list.old.items (filter_map (child_in CELLS T.game mine theirs) (steps_in CELLS T.game tier))) < PARENTS }
    ensures { list.new.items ≡ put_all list.old.items (filter_map (child_in CELLS T.game mine theirs) (steps_in CELLS T.game tier)) }
{
    for number in 0..step_count::<CELLS, T>(tier) {
        match child_by::<CELLS, T>(mine, theirs, step_at::<CELLS, T>(tier, number)) {
            Some(child) => put(list, child),
            None => {}
        }
    }
}

/// Returns a short list of tiers as one of child tiers.
pub fn as_children(list: &[u64]) -> ArrayVec<u64, CHILD_TIERS>
    requires { length list.now ≤ CHILD_TIERS }
    ensures { result.items ≡ list.now }
{
    let mut children = ArrayVec::new();
    let _fits = children.try_extend_from_slice(list);
    children
}
