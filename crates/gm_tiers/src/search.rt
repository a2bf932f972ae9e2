//! The search for the tiers that a game reaches.
ghost use Rattle.std.specs.Prelude.{◌≡◌, Ok};
ghost use Rattle.gm_tiers.specs.Search.{search_of, comes_to, comes_to_all, Answers};

use crate::tier_error::TierError;
use gm_game::game::Game;
use gm_game::limits::{TIER_SIZE, TIERS};
use indexmap::IndexSet;
use std::alloc::Global;

/// Finds all tiers that are reached from the first one, in the order in which they are found: that one, then the child tiers of each in turn.
pub(crate) fn search<G: Game>(alloc: Global, first: u64) -> Result<IndexSet<u64>, TierError>
    ensures { Answers result (search_of G.rules first) (λ found. found.keys) }
{
    let mut found = IndexSet::new(alloc);
    find::<G>(&mut found, first)?;
    for next in 0..TIERS {
        match found.get_index(next) {
            None => return Ok(found),
            Some(tier) => {
                let tier = *tier;
                find_children::<G>(&mut found, tier)?;
            }
        }
    }
    Ok(found)
}

// Finds the child tiers of a tier that was found.
fn find_children<G: Game>(found: &mut IndexSet<u64>, tier: u64) -> Result<(), TierError>
    ensures { Answers result (comes_to_all G.rules (Ok found.old.keys) (G.rules.child_tiers tier)) (λ _. found.new.keys) }
{
    let children = G::child_tiers(tier);
    for child in children.as_slice() {
        find::<G>(found, *child)?;
    }
    Ok(())
}

// Adds a tier, unless it is there. A new tier is tested for its size, and then there must be room for it.
fn find<G: Game>(found: &mut IndexSet<u64>, tier: u64) -> Result<(), TierError>
    ensures { Answers result (comes_to G.rules (Ok found.old.keys) tier) (λ _. found.new.keys) }
{
    if found.contains(&tier) {
        return Ok(());
    }
    if G::tier_size(tier) > TIER_SIZE {
        return Err(TierError::TierTooLarge { tier });
    }
    if found.len() >= TIERS {
        return Err(TierError::TooManyTiers);
    }
    match found.insert(tier) {
        Ok(_) => Ok(()),
        Err(_) => Err(TierError::OutOfMemory),
    }
}
