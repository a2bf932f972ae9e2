//! What the records of a position's children say of its value.
ghost use Rattle.std.specs.Prelude.{◌≡◌, ◌<◌, ◌≤◌, ◌+◌, None, Some, IfNone, IfSome};
ghost use Rattle.gm_game.specs.Records.{settle, solved as solved_spec, lost_in, won_in, tied_in, lesser, greater};

use gm_game::limits::REMOTENESS;
use gm_game::position::{Solved, Value};

/// A fold over some children's records: the least remoteness of a loss, the greatest of a win if all are wins, and the least of a tie.
#[derive(Clone, Copy)]
pub struct Summary {
    pub lost: Option<u32>,
    pub won: Option<u32>,
    pub tied: Option<u32>,
}

impl Summary {
    /// Returns the summary of no children: vacuously all children are wins, with greatest remoteness 0.
    pub fn of_none() -> Summary
        ensures lost { result.lost ≡ None }
        ensures won { result.won ≡ Some 0 }
        ensures tied { result.tied ≡ None }
    {
        Summary {
            lost: None,
            won: Some(0),
            tied: None,
        }
    }

    /// Returns the same with one more child's record.
    pub fn with(self, known: Option<Solved>) -> Summary
        ensures lost { result.lost ≡ lesser self.lost (lost_in known) }
        ensures won { result.won ≡ greater self.won (won_in known) }
        ensures tied { result.tied ≡ lesser self.tied (tied_in known) }
    {
        match known {
            Some(
                Solved {
                    value: Value::Lose,
                    remoteness,
                },
            ) => Summary {
                lost: least(self.lost, remoteness),
                won: None,
                ..self
            },
            Some(
                Solved {
                    value: Value::Win,
                    remoteness,
                },
            ) => Summary {
                won: self.won.map(|n| n.max(remoteness)),
                ..self
            },
            Some(
                Solved {
                    value: Value::Tie,
                    remoteness,
                },
            ) => Summary {
                won: None,
                tied: least(self.tied, remoteness),
                ..self
            },
            _ => Summary { won: None, ..self },
        }
    }

    /// Returns the value of a position with these children; `None` if its remoteness is above the limit of a record.
    pub fn value(self) -> Option<Solved>
        ensures value { IfSome result (λ solved. solved ≡ settle self.lost self.won self.tied) }
        ensures near { IfSome result (λ solved. solved.remoteness ≤ REMOTENESS) }
        ensures none { IfNone result (REMOTENESS < (settle self.lost self.won self.tied).remoteness) }
    {
        match (self.lost, self.won, self.tied) {
            (Some(n), _, _) => one_more(Value::Win, n),
            (None, Some(n), _) => one_more(Value::Lose, n),
            (None, None, Some(n)) => one_more(Value::Tie, n),
            (None, None, None) => Some(Solved {
                value: Value::Draw,
                remoteness: 0,
            }),
        }
    }
}

// Returns the lesser of a remoteness, if there is one, and n.
fn least(lost: Option<u32>, n: u32) -> Option<u32>
    ensures { result ≡ lesser lost (Some n) }
{
    Some(lost.map_or(n, |m| m.min(n)))
}

// Returns this value with a remoteness of one more than n; `None` if that is above the limit of a record.
fn one_more(value: Value, n: u32) -> Option<Solved>
    ensures value { IfSome result (λ solved. solved ≡ solved_spec value (n + 1)) }
    ensures near { IfSome result (λ solved. solved.remoteness ≤ REMOTENESS) }
    ensures none { IfNone result (REMOTENESS < n + 1) }
{
    if n >= REMOTENESS {
        return None;
    }
    Some(Solved {
        value,
        remoteness: n + 1,
    })
}
