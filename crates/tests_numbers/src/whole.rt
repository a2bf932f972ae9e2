//! The values of all positions of games that end soon.
use gm_game::children::canonical_children;
use gm_game::evaluate::of_end;
use gm_game::game::Game;
use gm_game::position::{Position, Solved, Value};
use std::alloc::{AllocError, Global};

/// The positions are numbered by tiers of this many.
const TIER: u64 = 512;

/// Returns the number of a position.
pub(crate) fn place(p: Position) -> usize {
    (p.tier.saturating_mul(TIER)).saturating_add(p.index) as usize
}

/// Returns the value that was found for a position.
pub(crate) fn known(values: &[Option<Solved>], p: Position) -> Option<Solved> {
    match values.get(place(p)) {
        Some(value) => *value,
        None => None,
    }
}

// Returns the value of a position from those of its children: a lost one the soonest, or else a won one the latest. There are no ties.
fn from_children<G: Game>(values: &[Option<Solved>], p: Position) -> Option<Solved> {
    if !G::is_legal(p) {
        return None;
    }
    if let Some(end) = G::primitive(p) {
        return Some(of_end(end));
    }
    let mut soonest = None;
    let mut latest = 0;
    for child in canonical_children::<G>(p).as_slice() {
        let found = known(values, *child)?;
        if found.value == Value::Lose {
            soonest = Some(soonest.unwrap_or(found.remoteness).min(found.remoteness));
        } else {
            latest = found.remoteness.max(latest);
        }
    }
    Some(match soonest {
        Some(remoteness) => Solved {
            value: Value::Win,
            remoteness: remoteness.saturating_add(1),
        },
        None => Solved {
            value: Value::Lose,
            remoteness: latest.saturating_add(1),
        },
    })
}

/// Returns the values of all positions of the tiers, in a game in which each move leads to a position with a lesser number; `None` if a position is not legal.
pub(crate) fn all_values<G: Game>(
    alloc: Global,
    tiers: u64,
) -> Result<Vec<Option<Solved>>, AllocError> {
    let mut values = Vec::new(alloc);
    for tier in 0..tiers {
        for index in 0..TIER {
            let value = from_children::<G>(values.as_slice(), Position { tier, index });
            values.push(value)?;
        }
    }
    Ok(values)
}
