//! The longest wins and the longest losses.
ghost use Rattle.std.specs.Prelude.{◌≡◌, ◌++◌, IfOk, is_some};
ghost use Rattle.gm_analyse.specs.Longest.{longest as longest_spec};
ghost use Rattle.gamesman.specs.Searches.{AreLongestLines, IsLongestIn, IsLongestJson};

use gm_analyse::longest_rows::{greatest, longest_text};
use gm_find::reached::Reached;
use gm_find::sought::{Choice, Sought, Span};
use gm_game::position::Value;
use gm_game::shown::Shown;
use gm_json::find::find_json;
use gm_play::known_tiers::KnownTiers;
use std::alloc::{AllocError, Global};

/// Returns the longest wins and the longest losses, as lines of JSON or as rows.
pub fn longest_in<G: Shown>(
    alloc: Global,
    known: &KnownTiers<'_, G>,
    reached: Option<&Reached<G>>,
    limit: usize,
    json: bool,
) -> Result<Vec<u8>, AllocError>
    ensures { IfOk result (λ v. IsLongestIn G.Game.rules G.shown G.move_shown (is_some reached.entry) limit known.now.tiers.now json v.items) }
{
    if json {
        longest_json(alloc, known, reached, limit)
    } else {
        longest_text(alloc, known, reached, limit)
    }
}

// Returns the positions of `longest_text` as the lines of JSON that `find_json` has for them.
fn longest_json<G: Shown>(
    alloc: Global,
    known: &KnownTiers<'_, G>,
    reached: Option<&Reached<G>>,
    limit: usize,
) -> Result<Vec<u8>, AllocError>
    ensures { IfOk result (λ v. IsLongestJson G.Game.rules G.shown G.move_shown (is_some reached.entry) limit known.now.tiers.now v.items) }
{
    let mut lines = lines_of_longest(alloc, known, Value::Win, reached, limit)?;
    let losses = lines_of_longest(alloc, known, Value::Lose, reached, limit)?;
    lines.extend_from_slice(losses.as_slice())?;
    Ok(lines)
}

// Returns the lines of the positions of a value with the greatest remoteness.
fn lines_of_longest<G: Shown>(
    alloc: Global,
    known: &KnownTiers<'_, G>,
    value: Value,
    reached: Option<&Reached<G>>,
    limit: usize,
) -> Result<Vec<u8>, AllocError>
    ensures { IfOk result (λ v. AreLongestLines G.Game.rules G.shown G.move_shown (is_some reached.entry) limit known.now.tiers.now value v.items) }
{
    match greatest(alloc, known, value, reached)? {
        Some(remoteness) => {
            let sought = longest(value, remoteness);
            find_json(alloc, known, sought, reached, Choice::First(limit))
        }
        None => Ok(Vec::new(alloc)),
    }
}

// Returns the filter for the greatest remoteness.
fn longest(value: Value, remoteness: u32) -> Sought
    ensures { result ≡ longest_spec value remoteness }
{
    Sought {
        value,
        remoteness: Some(Span {
            least: remoteness,
            most: remoteness,
        }),
        only_move: false,
        only_fastest: false,
        whole_line: false,
        distinct: false,
        min_moves: 0,
        min_tries: 0,
        tries: false,
    }
}
