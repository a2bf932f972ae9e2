//! How many positions of some tiers have each value and remoteness.
ghost use Rattle.std.specs.Prelude.{◌≡◌, IfOk, is_some};
ghost use Rattle.gm_analyse.specs.Totals.{AreCounts, AreShort, all_counted};

use crate::among::Among;
use crate::counts::{Count, push_counts};
use crate::numbers::{Numbers, numbers_of};
use gm_find::reached::Reached;
use gm_game::game::Game;
use gm_game::position::Value;
use gm_play::known_tiers::KnownTiers;
use std::alloc::{AllocError, Global};

/// Counts the positions of some tiers by value and remoteness, in the order Lose, Draw, Tie, Win, then by remoteness: the canonical ones, or all legal ones. If
/// a set of reached positions is given, only positions with a canonical position in it are counted. Reads all positions of the tiers.
pub fn counts<G: Game>(
    alloc: Global,
    known: &KnownTiers<'_, G>,
    among: Among,
    reached: Option<&Reached<G>>,
) -> Result<Vec<Count>, AllocError>
    ensures { IfOk result (λ v. AreCounts G.rules among (is_some reached.entry) known.now.tiers.now v.items) }
{
    let numbers = numbers_of(alloc, known, among, reached)?;
    counts_in(alloc, &numbers)
}

// Returns the counts above 0 of these numbers, in the order Lose, Draw, Tie, Win, then by remoteness.
fn counts_in(alloc: Global, numbers: &Numbers) -> Result<Vec<Count>, AllocError>
    requires { AreShort numbers.now }
    ensures { IfOk result (λ v. v.items ≡ all_counted numbers.now) }
{
    let mut counts = Vec::new(alloc);
    push_counts(&mut counts, Value::Lose, numbers.of(Value::Lose))?;
    push_counts(&mut counts, Value::Draw, numbers.of(Value::Draw))?;
    push_counts(&mut counts, Value::Tie, numbers.of(Value::Tie))?;
    push_counts(&mut counts, Value::Win, numbers.of(Value::Win))?;
    Ok(counts)
}
