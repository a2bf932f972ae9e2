//! On which boards a pattern ends the game, and how the other player sees a board.
ghost use Rattle.std.specs.Prelude.{◌≡◌};
ghost use Rattle.gm_board.specs.Images.{board_of};
ghost use Rattle.gm_patterns.specs.PatternGames.{turn_by, end_by_patterns as patterns_end, passed as passed_of};

use crate::pattern::has_some;
use crate::rules::PatternRules;
use gm_game::position::End;
use gm_pieces::board::Board;

/// Returns how the patterns of a board end the game, if they do.
pub fn end_by_patterns<const CELLS: u32, T: PatternRules<CELLS>>(board: Board<CELLS>) -> Option<End>
    ensures { result ≡ patterns_end T.game (board_of CELLS board.entry.mine board.entry.theirs) }
{
    let ends = T::basics().ends;
    if has_some(board, ends.lost) {
        Some(End::Lose)
    } else if has_some(board, ends.won) {
        Some(End::Win)
    } else if has_some(board, ends.tied) {
        Some(End::Tie)
    } else {
        None
    }
}

// Returns the board as it is turned for the other player.
#[tactic(auto, using(crate::specs::laws::MaskFacts::turned_board))]
fn turned<const CELLS: u32, T: PatternRules<CELLS>>(board: Board<CELLS>) -> Board<CELLS>
    ensures { board_of CELLS result.mine result.theirs ≡ turn_by T.game.turn (board_of CELLS board.entry.mine board.entry.theirs) }
{
    Board {
        mine: T::turned(board.mine),
        theirs: T::turned(board.theirs),
    }
}

/// Returns the board as the other player sees it.
#[tactic(auto, using(crate::specs::laws::MaskFacts::passed_swapped, crate::specs::laws::MaskFacts::passed_same))]
pub fn passed<const CELLS: u32, T: PatternRules<CELLS>>(board: Board<CELLS>) -> Board<CELLS>
    ensures { board_of CELLS result.mine result.theirs ≡ passed_of T.game (board_of CELLS board.entry.mine board.entry.theirs) }
{
    if T::basics().swapped {
        return turned::<CELLS, T>(board).turned();
    }
    turned::<CELLS, T>(board)
}
