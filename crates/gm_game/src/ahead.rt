//! Looking ahead: values by the definitions themselves, over raw positions.
ghost use Rattle.std.specs.Prelude.{◌≡◌, ℕ, true, ◌+◌, ◌<◌, ◌^◌, IfSome};
ghost use Rattle.gm_game.specs.Evaluation.{evaluated, IsEvaluated, choose as choose_spec};
ghost use Rattle.gm_game.specs.Records.{solved, lesser as lesser_spec, greater as greater_spec, lost_in as lost_in_spec, won_in as won_in_spec, tied_in as tied_in_spec};

use crate::evaluate::of_end;
use crate::game::Game;
use crate::position::{Position, Solved, Value};

fn lost_in(known: Option<Solved>) -> Option<u32>
    ensures { result ≡ lost_in_spec known }
{
    match known {
        None => None,
        Some(s) => match s.value {
            Value::Lose => Some(s.remoteness),
            _ => None,
        },
    }
}

fn tied_in(known: Option<Solved>) -> Option<u32>
    ensures { result ≡ tied_in_spec known }
{
    match known {
        None => None,
        Some(s) => match s.value {
            Value::Tie => Some(s.remoteness),
            _ => None,
        },
    }
}

fn won_in(known: Option<Solved>) -> Option<u32>
    ensures { result ≡ won_in_spec known }
{
    match known {
        None => None,
        Some(s) => match s.value {
            Value::Win => Some(s.remoteness),
            _ => None,
        },
    }
}

fn lesser(a: Option<u32>, b: Option<u32>) -> Option<u32>
    ensures { result ≡ lesser_spec a b }
{
    match (a, b) {
        (None, b) => b,
        (Some(m), None) => Some(m),
        (Some(m), Some(n)) => Some(m.min(n)),
    }
}

fn greater(a: Option<u32>, b: Option<u32>) -> Option<u32>
    ensures { result ≡ greater_spec a b }
{
    match (a, b) {
        (Some(m), Some(n)) => Some(m.max(n)),
        _ => None,
    }
}

// Returns this value, with a remoteness greater by one than the given one.
fn one_move_more(value: Value, remoteness: u32) -> Solved
    requires { remoteness + 1 < 2 ^ 32 }
    ensures { result ≡ solved value (remoteness + 1) }
{
    Solved {
        value,
        remoteness: remoteness + 1,
    }
}

// Returns what is decided by the least remoteness of a Lose child, the greatest of a Win child and the least of a Tie child; the last decides only if all
// children are known.
fn choose(lost: Option<u32>, won: Option<u32>, known: bool, tied: Option<u32>) -> Option<Solved>
    requires lost_fits { IfSome lost (λ k. k + 1 < 2 ^ 32) }
    requires won_fits { IfSome won (λ k. k + 1 < 2 ^ 32) }
    requires tied_fits { IfSome tied (λ k. k + 1 < 2 ^ 32) }
    ensures { result ≡ choose_spec lost won known tied }
{
    match (lost, won) {
        (Some(k), _) => Some(one_move_more(Value::Win, k)),
        (None, Some(k)) => Some(one_move_more(Value::Lose, k)),
        (None, None) => match tied {
            Some(k) if known => Some(one_move_more(Value::Tie, k)),
            _ => None,
        },
    }
}

/// Returns the true value and remoteness of p, where looking n moves ahead decides them. `None` means that p neither wins nor loses within n moves, and that
/// some line of play is longer.
///
/// This is the slow forward evaluator: it knows no canonical position and no table, and its time grows with the number of lines of play.
pub fn within<G: Game>(p: Position, n: u32) -> Option<Solved>
    requires { G.rules.is_legal p ≡ true }
    ensures rule { result ≡ evaluated G.rules n p }
    ensures truth { IsEvaluated G.rules n p result }
{
    look_ahead::<G>(p, n)
}

// Returns the value of p as far as n moves decide it.
fn look_ahead<G: Game>(p: Position, n: u32) -> Option<Solved>
    requires { G.rules.is_legal p ≡ true }
    ensures { result ≡ evaluated G.rules n p }
{
    if let Some(end) = G::primitive(p) {
        return Some(of_end(end));
    }
    if n == 0 {
        return None;
    }
    let moves = G::moves(p);
    let mut lost: Option<u32> = None;
    let mut won: Option<u32> = Some(0);
    let mut known = true;
    let mut tied: Option<u32> = None;
    for m in moves.as_slice() {
        let child = look_ahead::<G>(G::play(p, *m), n - 1);
        lost = lesser(lost, lost_in(child));
        won = greater(won, won_in(child));
        known = known && child.is_some();
        tied = lesser(tied, tied_in(child));
    }
    choose(lost, won, known, tied)
}
