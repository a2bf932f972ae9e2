//! Wins in which the winner has one move at each turn but the last.
ghost use Rattle.std.specs.Prelude.{◌≡◌, ◌<◌, ◌↔◌, IsTrue};
ghost use Rattle.std.specs.List.{Contains};
ghost use Rattle.gm_game.specs.declared.position.Value.TheVariants.{Win};
ghost use Rattle.gm_game.specs.Values.{IsTrueValue};
ghost use Rattle.gm_find.specs.Finding.{IsOnlyLine, IsOnlyWin, IsOnlyAfter, IsOnlyDefence, AfterDefence, line_aim as line_aim_spec};

use crate::only::{Aim, achieves, has_only};
use gm_game::game::Game;
use gm_game::position::{Solved, Value};
use gm_play::known::Known;

/// The greatest remoteness at which the winner has one turn left.
const LAST_TURN: u32 = 2;

/// Returns whether a position of this true value is a win in which, against every longest defence, exactly one move keeps the win at each turn of the winner
/// but the last; if only the fastest moves count, exactly one wins in the fewest moves. If only distinct moves count, exactly one up to symmetry does so.
///
/// It goes through all lines of longest defences, to a depth of the remoteness on the call stack, and ends at the first turn with a choice.
pub(crate) fn is_only_line<G: Game>(
    known: &Known<'_, G>,
    solved: Solved,
    distinct: bool,
    fastest: bool,
) -> bool
    requires { IsTrueValue G.rules known.now.position solved }
    ensures { IsTrue result ↔ IsOnlyLine G.rules distinct fastest known.now.position }
{
    match solved.value {
        Value::Win => is_only_win(known, solved.remoteness, distinct, fastest),
        Value::Lose | Value::Draw | Value::Tie => false,
    }
}

// Returns what counts at a turn of the winner, who wins in so many moves.
fn line_aim(fastest: bool, remoteness: u32) -> Aim
    ensures { result ≡ line_aim_spec fastest remoteness }
{
    if fastest {
        Aim::WinIn(remoteness)
    } else {
        Aim::Keep(Value::Win)
    }
}

// Returns true if the winner has exactly one move that counts at every turn but the last.
#[cycle(turns)]
fn is_only_win<G: Game>(
    known: &Known<'_, G>,
    remoteness: u32,
    distinct: bool,
    fastest: bool,
) -> bool
    ensures { IsTrue result ↔ IsOnlyWin G.rules distinct fastest remoteness known.now.position }
{
    if remoteness <= LAST_TURN {
        return true;
    }
    if !has_only(known, line_aim(fastest, remoteness), distinct) {
        return false;
    }
    for m in G::moves(known.position).as_slice() {
        if !is_only_after(known, *m, remoteness, distinct, fastest) {
            return false;
        }
    }
    true
}

// Returns whether a move of the winner, if it counts, leads to a loss in which each longest defence leads to such a win.
#[cycle(turns)]
fn is_only_after<G: Game>(
    known: &Known<'_, G>,
    m: u32,
    remoteness: u32,
    distinct: bool,
    fastest: bool,
) -> bool
    requires listed { Contains (G.rules.moves known.now.position) m }
    requires before { 2 < remoteness }
    ensures { IsTrue result ↔ IsOnlyAfter G.rules distinct fastest remoteness known.now.position m }
{
    if achieves(known, line_aim(fastest, remoteness), m) {
        are_only_defences(&known.play(m), remoteness - LAST_TURN, distinct, fastest)
    } else {
        true
    }
}

// Returns true if each longest defence leads to such a win, one move nearer the end.
#[cycle(turns)]
fn are_only_defences<G: Game>(
    known: &Known<'_, G>,
    remoteness: u32,
    distinct: bool,
    fastest: bool,
) -> bool
    ensures { IsTrue result ↔ AfterDefence G.rules remoteness (IsOnlyWin G.rules distinct fastest remoteness) known.now.position }
{
    for e in G::moves(known.position).as_slice() {
        if !is_only_defence(known, *e, remoteness, distinct, fastest) {
            return false;
        }
    }
    true
}

// Returns true if the result of a defence is such a win, or is no win of that length.
#[cycle(turns)]
fn is_only_defence<G: Game>(
    known: &Known<'_, G>,
    e: u32,
    remoteness: u32,
    distinct: bool,
    fastest: bool,
) -> bool
    requires { Contains (G.rules.moves known.now.position) e }
    ensures { IsTrue result ↔ IsOnlyDefence G.rules distinct fastest remoteness known.now.position e }
{
    let after = known.play(e);
    if is_win_in(after.value(), remoteness) {
        is_only_win(&after, remoteness, distinct, fastest)
    } else {
        true
    }
}

// Returns whether a value is a win with this remoteness.
fn is_win_in(solved: Solved, remoteness: u32) -> bool
    ensures { IsTrue result ↔ ((solved.value ≡ Win) × (solved.remoteness ≡ remoteness)) }
{
    solved.value == Value::Win && solved.remoteness == remoteness
}
