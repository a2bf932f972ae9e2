//! Counts over all tiers together, or tier by tier.
ghost use Rattle.std.specs.Prelude.{◌≡◌, ◌++◌, ◌∷◌, [], List, map, Some, None, IfOk, OnOk, is_some};
ghost use Rattle.gm_analyse.specs.declared.counts.Count.{Count as CountData};
ghost use Rattle.gm_play.specs.Reached.{AreAllHeld};
ghost use Rattle.gm_analyse.specs.Totals.{AreCounts};
ghost use Rattle.gm_analyse.specs.ByTier.{with_tier as with_tier_spec, AreRows, AreTierRows};

use crate::among::Among;
use crate::counts::Count;
use crate::totals::counts;
use gm_find::reached::Reached;
use gm_game::game::Game;
use gm_play::known_tiers::KnownTiers;
use gm_table::tables::Tables;
use std::alloc::{AllocError, Global};

/// A count, of one tier if each tier is counted by itself.
#[derive(Clone, Copy, Debug, PartialEq, Eq)]
pub struct TierCount {
    pub tier: Option<u64>,
    pub count: Count,
}

/// Counts the positions of some tiers by value and remoteness, in the order Lose, Draw, Tie, Win, then by remoteness: all tiers together or, if `by_tier` is
/// set, tier by tier in the order given. The canonical positions are counted, or all legal ones; if a set of reached positions is given, only those with a
/// canonical position in it.
pub fn tier_counts<G: Game>(
    alloc: Global,
    known: &KnownTiers<'_, G>,
    among: Among,
    by_tier: bool,
    reached: Option<&Reached<G>>,
) -> Result<Vec<TierCount>, AllocError>
    ensures { IfOk result (λ v. AreRows G.rules among (is_some reached.entry) by_tier known.now.tiers.now v.items) }
{
    if by_tier {
        return rows_by_tier(alloc, known, among, reached);
    }
    let counted = counts(alloc, known, among, reached)?;
    let mut rows = Vec::new(alloc);
    add_counts(&mut rows, None, counted.as_slice())?;
    Ok(rows)
}

// Returns the counts of each tier.
fn rows_by_tier<G: Game>(
    alloc: Global,
    known: &KnownTiers<'_, G>,
    among: Among,
    reached: Option<&Reached<G>>,
) -> Result<Vec<TierCount>, AllocError>
    ensures { IfOk result (λ v. AreTierRows G.rules among (is_some reached.entry) known.now.tiers.now v.items) }
{
    let mut rows = Vec::new(alloc);
    for tier in known.tiers {
        add_tier(&mut rows, known.tables, *tier, among, reached)?;
    }
    Ok(rows)
}

// Adds the counts of one tier.
fn add_tier<G: Game>(
    rows: &mut Vec<TierCount>,
    tables: &Tables<G>,
    tier: u64,
    among: Among,
    reached: Option<&Reached<G>>,
) -> Result<(), AllocError>
    requires { AreAllHeld G.rules tables.now tier }
    ensures { OnOk result ((counts : List CountData) × AreCounts G.rules among (is_some reached.entry) (tier ∷ []) counts
        × (rows.new.items ≡ rows.old.items ++ map (with_tier_spec (Some tier)) counts)) }
{
    let one = KnownTiers {
        tables,
        tiers: &[tier],
    };
    let counted = counts(*rows.allocator(), &one, among, reached)?;
    add_counts(rows, Some(tier), counted.as_slice())
}

// Adds counts of one tier.
fn add_counts(
    rows: &mut Vec<TierCount>,
    tier: Option<u64>,
    counts: &[Count],
) -> Result<(), AllocError>
    ensures { OnOk result (rows.new.items ≡ rows.old.items ++ map (with_tier_spec tier) counts.now) }
{
    for count in counts {
        rows.push(TierCount {
            tier,
            count: *count,
        })?;
    }
    Ok(())
}
