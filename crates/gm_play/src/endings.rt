//! The line that announces how a game ended.
ghost use Rattle.std.specs.Prelude.{◌≡◌};
ghost use Rattle.gm_play.specs.Endings.{over as over_spec};

use crate::sides::Side;
use gm_game::position::End;

/// Returns the line that announces how a game ended, with this side to move.
pub fn over(side: Side, end: End) -> &'static [u8]
    ensures { result.now ≡ over_spec side end }
{
    match (side, end) {
        (_, End::Tie) => b"over: tie\n",
        (Side::You, End::Win) | (Side::Computer, End::Lose) => b"over: you win\n",
        (Side::You, End::Lose) | (Side::Computer, End::Win) => b"over: computer wins\n",
    }
}
