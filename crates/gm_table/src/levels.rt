//! The levels of the records of a table.
ghost use Rattle.std.specs.Prelude.{◌≡◌};
ghost use Rattle.gm_game.specs.declared.position.Phase.TheVariants.{WinLose, Ties};
ghost use Rattle.gm_table.specs.Levels.{level_in as level_in_spec, later as later_spec, greatest_of};

use crate::packed::Packed;
use gm_game::position::{Phase, Solved, Value};

/// Returns the level of a record in a phase: its remoteness, or `None` if its value isn't settled in that phase.
pub(crate) fn level_in(phase: Phase, known: Option<Solved>) -> Option<u32>
    ensures { result ≡ level_in_spec phase known }
{
    let solved = known?;
    match (phase, solved.value) {
        (Phase::WinLose, Value::Win | Value::Lose) | (Phase::Ties, Value::Tie) => {
            Some(solved.remoteness)
        }
        _ => None,
    }
}

// Returns the later of two levels, if there are any.
fn later(a: Option<u32>, b: Option<u32>) -> Option<u32>
    ensures { result ≡ later_spec a b }
{
    match (a, b) {
        (None, n) | (n, None) => n,
        (Some(m), Some(n)) => Some(m.max(n)),
    }
}

/// Returns the greatest levels of these records, of wins and losses and of ties, in one pass.
pub(crate) fn greatest_levels(records: &Packed) -> (Option<u32>, Option<u32>)
    ensures win_lose { result.0 ≡ greatest_of WinLose records.now }
    ensures ties { result.1 ≡ greatest_of Ties records.now }
{
    let mut win_lose = None;
    let mut ties = None;
    let mut index = records.skip_holes(0);
    while index < records.len() {
        let known = records.get(index);
        win_lose = later(win_lose, level_in(Phase::WinLose, known));
        ties = later(ties, level_in(Phase::Ties, known));
        index = records.skip_holes(index + 1);
    }
    (win_lose, ties)
}
