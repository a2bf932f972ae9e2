//! The longest win of a table.
ghost use Rattle.std.specs.Prelude.{◌≡◌, length};
ghost use Rattle.gm_analyse.specs.LongestWins.{longer as longer_spec, IsLongestWin};

use crate::counts::remoteness_in;
use gm_game::game::Game;
use gm_game::position::Value;
use gm_table::table::Table;

/// Returns the greatest remoteness of a win, and the least index that has it.
pub(crate) fn longest_win<G: Game>(table: &Table<G>) -> Option<(u32, u64)>
    ensures { IsLongestWin table.now.records (length table.now.records) result }
{
    let mut longest = None;
    for index in 0..table.size() {
        longest = longer(longest, remoteness_in(Value::Win, table.at(index)), index);
    }
    longest
}

// Returns the longest win so far, with the remoteness of a win at one more index, if it is one.
fn longer(longest: Option<(u32, u64)>, remoteness: Option<u32>, index: u64) -> Option<(u32, u64)>
    ensures { result ≡ longer_spec longest remoteness index }
{
    match (longest, remoteness) {
        (_, None) => longest,
        (Some((most, _)), Some(remoteness)) if remoteness <= most => longest,
        (_, Some(remoteness)) => Some((remoteness, index)),
    }
}
