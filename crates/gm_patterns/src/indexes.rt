//! Indexes: the boards of a tier on which the mover has no fewer pieces come first, numbered as arrangements.
ghost use Rattle.std.specs.Prelude.{◌≡◌, ◌+◌, ◌^◌, ◌<◌};
ghost use Rattle.gm_board.specs.Images.{board_of};
ghost use Rattle.gm_patterns.specs.PatternGames.{boards_with as boards_in, boards_before as boards_first};

use crate::rules::PatternRules;
use crate::tiers::can_have;
use gm_board::arrangement::Arrangement;
use gm_pieces::board::Board;

/// Returns how many boards there are with these numbers of pieces.
#[tactic(auto, using(crate::specs::laws::MaskFacts::cells_few, crate::specs::laws::IndexFacts::arrangements_small, crate::specs::laws::TableFacts::have_few), unfolding(crate::specs::PatternGames::boards_with))]
pub fn boards_with<const CELLS: u32, T: PatternRules<CELLS>>(mine: u64, theirs: u64) -> u64
    requires { mine + theirs < 2 ^ 64 }
    ensures number { result ≡ boards_in CELLS T.game mine theirs }
    ensures small { result < 2 ^ 63 }
{
    if can_have::<CELLS, T>(mine, theirs) {
        let arrangement = Arrangement {
            cells: CELLS,
            mine: mine as u32,
            theirs: theirs as u32,
        };
        arrangement.size()
    } else {
        0
    }
}

/// Returns how many boards of its tier come before those with the numbers of pieces of a board.
#[tactic(auto, unfolding(crate::specs::PatternGames::boards_before))]
pub fn boards_before<const CELLS: u32, T: PatternRules<CELLS>>(board: Board<CELLS>) -> u64
    ensures number { result ≡ boards_first CELLS T.game (board_of CELLS board.entry.mine board.entry.theirs) }
    ensures small { result < 2 ^ 63 }
{
    let mine = u64::from(board.own_pieces());
    let theirs = u64::from(board.their_pieces());
    if theirs <= mine {
        0
    } else {
        boards_with::<CELLS, T>(theirs, mine)
    }
}
