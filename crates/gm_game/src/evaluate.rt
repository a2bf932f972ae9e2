//! The value of a position in which the game has ended.
ghost use Rattle.std.specs.Prelude.{◌≡◌};
ghost use Rattle.gm_game.specs.Records.{from_end};

use crate::position::{End, Solved, Value};

/// Returns the value of a position in which the game has ended.
pub fn of_end(end: End) -> Solved
    ensures { result ≡ from_end end }
{
    let value = match end {
        End::Lose => Value::Lose,
        End::Tie => Value::Tie,
        End::Win => Value::Win,
    };
    Solved {
        value,
        remoteness: 0,
    }
}
