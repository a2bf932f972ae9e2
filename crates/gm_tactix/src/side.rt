//! The side of the board.
ghost use Rattle.std.specs.Prelude.{◌≡◌, ◌≤◌};
ghost use Rattle.gm_tactix.specs.Board.{side_of};

/// Returns the side of the square in the game for N: N if it is 1 to 5, and 1 for any other N.
#[tactic(auto, unfolding(crate::specs::Board::side_of))]
pub fn side_for(n: u32) -> u32
    ensures value { result ≡ side_of n }
    ensures low { 1 ≤ result }
    ensures high { result ≤ 5 }
{
    if 1 <= n && n <= 5 { n } else { 1 }
}
