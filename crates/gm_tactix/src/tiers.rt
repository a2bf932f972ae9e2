//! Tiers: the tier of a board is the number of its counters.
ghost use Rattle.std.specs.Prelude.{◌≡◌, ◌≤◌, ◌*◌, ◌-◌, ◌==◌, if◌then◌else◌, None, Some};
ghost use Rattle.std.specs.List.{range_with_len};
ghost use Rattle.gm_board.specs.Binomials.{binomial as binomial_of};
ghost use Rattle.gm_tactix.specs.Board.{tactix_name};

use arrayvec::ArrayVec;
use gm_board::pascal::binomial;
use gm_game::limits::{CHILD_TIERS, NAME};
use gm_game::position::End;

/// Returns the name of a game: `tactix-N` or `tactix-N-misere`, padded with zeros (docs/GAMES.md, Tac Tix).
#[tactic(auto, unfolding(crate::specs::Board::tactix_name))]
pub fn name(side: u32, misere: bool) -> [u8; NAME]
    requires { side ≤ 5 }
    ensures { result ≡ tactix_name side misere }
{
    let mut name = if misere {
        *b"tactix-0-misere\0"
    } else {
        *b"tactix-0\0\0\0\0\0\0\0\0"
    };
    name[7] = b'0' + side as u8;
    name
}

/// Returns how many boards of a square of side up to 5 have `tier` counters: 0 if there are fewer cells.
#[tactic(auto, using(gm_board::specs::laws::Binomials::binomial_past))]
pub fn tier_size(side: u32, tier: u64) -> u64
    requires { side ≤ 5 }
    ensures { result ≡ binomial_of (side * side) tier }
{
    let cells = side * side;
    if tier <= u64::from(cells) {
        binomial(cells, tier as u32)
    } else {
        0
    }
}

/// Returns how the game has ended for the player to move with `tier` counters left: without counters Lose, or Win in misère, and `None` if there are counters.
pub fn end(misere: bool, tier: u64) -> Option<End>
    ensures { result ≡ (if tier == 0 then Some (if misere then End.Win else End.Lose) else None) }
{
    match (tier, misere) {
        (0, true) => Some(End::Win),
        (0, false) => Some(End::Lose),
        _ => None,
    }
}

/// Returns the tiers that a move can lead to, ascending: those with 1 to `side` counters fewer.
#[tactic(auto, using(crate::specs::laws::MoveFacts::range_push))]
pub fn child_tiers(side: u32, tier: u64) -> ArrayVec<u64, CHILD_TIERS>
    requires { side ≤ 5 }
    ensures { result.items ≡ range_with_len (tier - side) (tier - (tier - side)) }
{
    let first = tier.saturating_sub(u64::from(side));
    let mut list = ArrayVec::new();
    for child in first..tier {
        list.push(child);
    }
    list
}
