//! The order of tiers.
ghost use Rattle.std.specs.Prelude.{◌≡◌, ℕ, List, map, Ok, IfOk, OnOk, OnErr, IsErrOf, IsPermutation};
ghost use Rattle.std.specs.List.{AllPairs};
ghost use Rattle.gm_tiers.specs.Orders.{IsTierBefore, IsTierOrder, IsOrderFrom, ComeChildrenFirst};
ghost use Rattle.gm_tiers.specs.Reach.{IsReached, IsReachedFrom};
ghost use Rattle.gm_tiers.specs.Search.{search_of, EndsWith};
ghost use Rattle.gm_tiers.specs.declared.tier_error.TierError.{TierError};
ghost use Rattle.gm_tiers.specs.Limits.{HasTooMany, AreMoreThan, IsTooLarge};

use crate::search::search;
use crate::tier_error::TierError;
use gm_game::game::Game;
use gm_game::limits::TIERS;
use indexmap::IndexSet;
use std::alloc::{AllocError, Global};
use std::marker::Model;

/// All tiers that a game reaches from one of its tiers, each once and child tiers first. Contracts see their list.
#[derive(Drop)]
pub struct TierOrder {
    tiers: Vec<u64>,
}

impl Model for TierOrder {
    ghost use Rattle.std.specs.Prelude.{ℕ, List};

    ghost Value = { List ℕ };

    ghost view = { λ o. o.tiers.items };
}

impl TierOrder {
    /// Returns all tiers reached from the initial one by `child_tiers`, by ascending rank and then by number. At most 1,024 tiers are allowed, each of at most
    /// 16,777,216 positions.
    ///
    /// The search comes to the initial tier, and then to the child tiers of each tier in the order in which it was found. For each new tier its size is tested
    /// first, and then the number of tiers; the first test that fails determines the error. So the game determines the answer, unless memory runs out.
    pub fn from_initial<G: Game>(alloc: Global) -> Result<Self, TierError>
        ensures order { IfOk result (IsTierOrder G.rules) }
        ensures children_first { IfOk result (ComeChildrenFirst G.rules) }
        ensures answer { IfOk result (λ o. (found : List ℕ) × (search_of G.rules G.rules.initial.tier ≡ Ok found) × IsPermutation found o) }
        ensures refusal { (e : TierError) → IsErrOf result e → EndsWith (search_of G.rules G.rules.initial.tier) e }
        ensures too_many { IsErrOf result TierError.TooManyTiers → HasTooMany G.rules G.rules.initial.tier }
        ensures more { IsErrOf result TierError.TooManyTiers → AreMoreThan G.rules G.rules.initial.tier TIERS }
        ensures too_large { (tier : ℕ) → IsErrOf result (TierError.TierTooLarge tier) → IsTooLarge G.rules G.rules.initial.tier tier }
        ensures reached { (tier : ℕ) → IsErrOf result (TierError.TierTooLarge tier) → IsReached G.rules tier }
    {
        TierOrder::from_tier::<G>(alloc, G::initial().tier)
    }

    /// Returns all tiers reached from this one, itself included, in the order and with the limits of `from_initial`: the tiers on which the values of this tier
    /// rest. The tier need not be one that the game reaches.
    pub fn from_tier<G: Game>(alloc: Global, first: u64) -> Result<Self, TierError>
        ensures order { IfOk result (IsOrderFrom G.rules first) }
        ensures children_first { IfOk result (ComeChildrenFirst G.rules) }
        ensures answer { IfOk result (λ o. (found : List ℕ) × (search_of G.rules first ≡ Ok found) × IsPermutation found o) }
        ensures refusal { (e : TierError) → IsErrOf result e → EndsWith (search_of G.rules first) e }
        ensures too_many { IsErrOf result TierError.TooManyTiers → HasTooMany G.rules first }
        ensures more { IsErrOf result TierError.TooManyTiers → AreMoreThan G.rules first TIERS }
        ensures too_large { (tier : ℕ) → IsErrOf result (TierError.TierTooLarge tier) → IsTooLarge G.rules first tier }
        ensures reached { (tier : ℕ) → IsErrOf result (TierError.TierTooLarge tier) → IsReachedFrom G.rules first tier }
    {
        let found = search::<G>(alloc, first)?;
        match put_in_order::<G>(alloc, &found) {
            Ok(tiers) => Ok(TierOrder { tiers }),
            Err(_) => Err(TierError::OutOfMemory),
        }
    }

    /// Returns the tiers.
    pub fn tiers(&self) -> &[u64]
        ensures value { result.now ≡ self.now }
    {
        self.tiers.as_slice()
    }
}

// Lists the tiers that were found by rank and then by number. It sorts pairs, since a program then has one sort for all its games.
fn put_in_order<G: Game>(alloc: Global, found: &IndexSet<u64>) -> Result<Vec<u64>, AllocError>
    ensures same { IfOk result (λ tiers. IsPermutation found.now.keys tiers.items) }
    ensures ordered { IfOk result (λ tiers. AllPairs (IsTierBefore G.rules) tiers.items) }
{
    let mut pairs = ranked::<G>(alloc, found.as_slice())?;
    pairs.sort_unstable();
    numbers(alloc, pairs.as_slice())
}

// Returns each tier after its rank.
fn ranked<G: Game>(alloc: Global, tiers: &[u64]) -> Result<Vec<(u64, u64)>, AllocError>
    ensures { IfOk result (λ pairs. pairs.items ≡ map (λ t. (G.rules.tier_rank t, t)) tiers.now) }
{
    let mut pairs = Vec::with_capacity(alloc, tiers.len())?;
    for tier in tiers {
        pairs.push((G::tier_rank(*tier), *tier))?;
    }
    Ok(pairs)
}

// Returns the tiers of these pairs.
fn numbers(alloc: Global, pairs: &[(u64, u64)]) -> Result<Vec<u64>, AllocError>
    ensures { IfOk result (λ tiers. tiers.items ≡ map (λ pair. pair.1) pairs.now) }
{
    let mut tiers = Vec::with_capacity(alloc, pairs.len())?;
    for (_, tier) in pairs {
        tiers.push(*tier)?;
    }
    Ok(tiers)
}
