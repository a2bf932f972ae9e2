//! The longest wins and the longest losses of some tiers, as rows of positions.
ghost use Rattle.std.specs.Prelude.{◌≡◌, ◌≤◌, ◌+◌, length, IfOk, is_some};
ghost use Rattle.gm_game.specs.declared.limits.TheConstants.{REMOTENESS};
ghost use Rattle.gm_find.specs.Finding.{all_positions};
ghost use Rattle.gm_analyse.specs.declared.among.Among.TheVariants.{Canonical};
ghost use Rattle.gm_analyse.specs.Totals.{IsGreatest};
ghost use Rattle.gm_analyse.specs.Longest.{longest as longest_spec, IsLastAbove, IsLongestRows, IsLongestText};

use crate::among::Among;
use crate::numbers::numbers_of;
use gm_find::reached::Reached;
use gm_find::rows::find_text;
use gm_find::sought::{Choice, Sought, Span};
use gm_game::game::Game;
use gm_game::position::Value;
use gm_game::shown::Shown;
use gm_play::known_tiers::KnownTiers;
use std::alloc::{AllocError, Global};

/// Returns the rows of the longest wins of some tiers, and then of the longest losses: the position, its value, its best move and the number of its moves, with
/// a tab between them. They are the canonical positions with the greatest remoteness, tier by tier in the order given and by ascending index: of the wins the
/// first, at most `limit`, and of the losses too. If a set of reached positions is given, only positions in it count.
pub fn longest_text<G: Shown>(
    alloc: Global,
    known: &KnownTiers<'_, G>,
    reached: Option<&Reached<G>>,
    limit: usize,
) -> Result<Vec<u8>, AllocError>
    ensures { IfOk result (λ v. IsLongestText G.Game.rules G.shown G.move_shown (is_some reached.entry) limit known.now.tiers.now v.items) }
{
    let mut rows = rows_of_longest(alloc, known, Value::Win, reached, limit)?;
    let losses = rows_of_longest(alloc, known, Value::Lose, reached, limit)?;
    rows.extend_from_slice(losses.as_slice())?;
    Ok(rows)
}

// Returns the rows of the positions of a value with the greatest remoteness.
fn rows_of_longest<G: Shown>(
    alloc: Global,
    known: &KnownTiers<'_, G>,
    value: Value,
    reached: Option<&Reached<G>>,
    limit: usize,
) -> Result<Vec<u8>, AllocError>
    ensures { IfOk result (λ v. IsLongestRows G.Game.rules G.shown G.move_shown (is_some reached.entry) limit known.now.tiers.now value v.items) }
{
    match greatest(alloc, known, value, reached)? {
        Some(remoteness) => {
            let sought = longest(value, remoteness);
            find_text(alloc, known, sought, reached, Choice::First(limit))
        }
        None => Ok(Vec::new(alloc)),
    }
}

// Returns the filter for the greatest remoteness.
fn longest(value: Value, remoteness: u32) -> Sought
    ensures { result ≡ longest_spec value remoteness }
{
    Sought {
        value,
        remoteness: Some(Span {
            least: remoteness,
            most: remoteness,
        }),
        only_move: false,
        only_fastest: false,
        whole_line: false,
        distinct: false,
        min_moves: 0,
        min_tries: 0,
        tries: false,
    }
}

/// Returns the greatest remoteness of the canonical positions of a value; `None` if no position has it. If a set of reached positions is given, only positions
/// in it count.
pub fn greatest<G: Game>(
    alloc: Global,
    known: &KnownTiers<'_, G>,
    value: Value,
    reached: Option<&Reached<G>>,
) -> Result<Option<u32>, AllocError>
    ensures { IfOk result (IsGreatest G.rules Canonical (is_some reached.entry) value (all_positions G.rules known.now.tiers.now)) }
{
    let numbers = numbers_of(alloc, known, Among::Canonical, reached)?;
    Ok(last_above(numbers.of(value)))
}

// Returns the last place with a number above 0.
fn last_above(numbers: &[u64]) -> Option<u32>
    requires { length numbers.now ≤ REMOTENESS + 1 }
    ensures { IsLastAbove numbers.now (length numbers.now) result }
{
    let mut last = None;
    for (place, number) in numbers.iter().enumerate() {
        if *number > 0 {
            last = Some(place as u32);
        }
    }
    last
}
