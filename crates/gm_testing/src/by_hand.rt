//! Steps of a shard of a whole tier from outside: its fresh notes, its ends.
ghost use Rattle.std.specs.Prelude.{◌≡◌, ◌+◌, ◌≤◌, length, IfOk, OnOk, IfSome, IsSome, IsTrue};
ghost use Rattle.gm_game.specs.declared.position.Phase.TheVariants.{Ties};
ghost use Rattle.gm_table.specs.Tables.{AreHeld};
ghost use Rattle.gm_frontier.specs.Levels.{AreTiles};
ghost use Rattle.gm_counters.specs.inner.Begin.{first_state};
ghost use Rattle.gm_counters.specs.Steps.{place_of};
ghost use Rattle.gm_locks.specs.Spots.{IsSameSpot};
ghost use Rattle.gm_testing.specs.ByHand.{IsOfTier, IsCounted, IsLater};

use gm_frontier::expected::Expected;
use gm_frontier::last::Last;
use gm_frontier::level::Level;
use gm_frontier::run::Run;
use gm_game::game::Game;
use gm_game::limits::{REMOTENESS, TIER_SIZE};
use gm_game::position::Place;
use gm_shard::shard::Shard;
use gm_solver::starts::begin_range;
use gm_table::tables::Tables;
use std::alloc::{AllocError, Global};

/// Returns the shard of a whole tier, at its first place.
pub fn begin_whole<G: Game>(alloc: Global, tier: u64) -> Result<Shard<G>, AllocError>
    requires { G.rules.tier_size tier ≤ TIER_SIZE }
    ensures { IfOk result (λ shard. shard ≡ first_state tier 0 (G.rules.tier_size tier)) }
{
    begin_range(alloc, tier, 0, G::tier_size(tier))
}

/// Returns the fresh notes of a shard, as the one run of a list.
pub fn fresh_run<G: Game>(alloc: Global, shard: &Shard<G>) -> Result<Vec<Run<G>>, AllocError>
    ensures { IfOk result (λ runs. AreTiles (place_of shard.now) shard.now.lo (shard.now.lo + length shard.now.delivered) runs.items) }
{
    Ok(vec![in alloc; shard.fresh(alloc)?]?)
}

// Returns the end of a phase, if the level of these runs is it.
fn end_of<G: Game>(
    alloc: Global,
    place: Place,
    runs: &[Run<G>],
    tables: &Tables<G>,
) -> Result<Option<Last<G>>, AllocError>
    requires tiles { AreTiles place 0 (G.rules.tier_size place.tier) runs.now }
    requires children { AreHeld G.rules tables.now place.tier }
    requires small { G.rules.tier_size place.tier ≤ TIER_SIZE }
    ensures { IfOk result (λ last. IfSome last (λ l. l ≡ place)) }
{
    Ok(Level::gather(alloc, place, runs, tables)?.last(tables))
}

/// Returns the end of the phase of a shard of a whole tier, where its level is the end.
pub fn last_of<G: Game>(
    alloc: Global,
    shard: &Shard<G>,
    tables: &Tables<G>,
) -> Result<Option<Last<G>>, AllocError>
    requires whole { IsOfTier G.rules shard.now }
    requires children { AreHeld G.rules tables.now shard.now.tier }
    requires small { G.rules.tier_size shard.now.tier ≤ TIER_SIZE }
    ensures { IfOk result (λ last. IfSome last (λ l. l ≡ place_of shard.now)) }
{
    let runs = fresh_run(alloc, shard)?;
    let last = end_of(alloc, shard.place(), runs.as_slice(), tables);
    drop(runs);
    last
}

/// Returns the shard of a whole tier, at its first place, and the count of its pairs.
pub fn begin_counted<G: Game>(
    alloc: Global,
    tier: u64,
) -> Result<(Shard<G>, Expected<G>), AllocError>
    requires { G.rules.tier_size tier ≤ TIER_SIZE }
    ensures counted { IfOk result (λ begun. IsCounted G.rules begun.0 begun.1) }
    ensures first { IfOk result (λ begun. begun.0 ≡ first_state tier 0 (G.rules.tier_size tier)) }
{
    let shard = begin_whole::<G>(alloc, tier)?;
    Ok((shard, Expected::start(tier, 0, G::tier_size(tier))))
}

// Delivers a level's pairs to a shard, one after another.
fn deliver_level<G: Game>(shard: &mut Shard<G>, level: &Level<G>)
    ensures { IsSameSpot shard.old shard.new }
{
    let (lo, hi) = shard.range();
    for (note, parent) in level.pairs(0, level.len().max(1), lo, hi) {
        let _answer = shard.deliver(&note, parent);
    }
}

// Delivers a level's pairs, counts them, and turns to the next level: whether none was too far.
fn finish_level<G: Game>(shard: &mut Shard<G>, expected: &mut Expected<G>, level: &Level<G>) -> bool
    requires counted { IsCounted G.rules shard.old expected.old }
    requires place { level.now.place ≡ place_of shard.old }
    requires near { shard.old.level ≤ REMOTENESS }
    ensures counted { IsTrue result → IsCounted G.rules shard.new expected.new }
    ensures later { IsLater shard.old shard.new }
{
    deliver_level(shard, level);
    expected.add(level);
    shard.close(expected).is_ok()
}

/// Takes a shard of a whole tier, and the count of its pairs, through the levels of the present phase: their end; none if a level is too far.
pub fn finish_phase<G: Game>(
    alloc: Global,
    shard: &mut Shard<G>,
    expected: &mut Expected<G>,
    tables: &Tables<G>,
) -> Result<Option<Last<G>>, AllocError>
    requires counted { IsCounted G.rules shard.old expected.old }
    requires children { AreHeld G.rules tables.now shard.old.tier }
    requires small { G.rules.tier_size shard.old.tier ≤ TIER_SIZE }
    ensures counted { IfOk result (λ last. IsSome last → IsCounted G.rules shard.new expected.new) }
    ensures later { OnOk result (IsLater shard.old shard.new) }
    ensures last { IfOk result (λ last. IfSome last (λ l. l ≡ place_of shard.new)) }
{
    for _ in 0..=REMOTENESS {
        let runs = fresh_run(alloc, shard)?;
        let level = Level::gather(alloc, shard.place(), runs.as_slice(), tables)?;
        if let Some(last) = level.last(tables) {
            return Ok(Some(last));
        }
        if shard.level() > REMOTENESS || !finish_level(shard, expected, &level) {
            return Ok(None);
        }
    }
    Ok(None)
}

/// Returns the shard of a tier at its first level of ties, after its wins and losses; none if one of these is too far.
pub fn at_ties<G: Game>(
    alloc: Global,
    tier: u64,
    tables: &Tables<G>,
) -> Result<Option<Shard<G>>, AllocError>
    requires children { AreHeld G.rules tables.now tier }
    requires small { G.rules.tier_size tier ≤ TIER_SIZE }
    ensures whole { IfOk result (λ shard. IfSome shard (λ s. IsOfTier G.rules s)) }
    ensures tier { IfOk result (λ shard. IfSome shard (λ s. s.tier ≡ tier)) }
    ensures ties { IfOk result (λ shard. IfSome shard (λ s. s.phase ≡ Ties)) }
{
    let (mut shard, mut expected) = begin_counted::<G>(alloc, tier)?;
    match finish_phase(alloc, &mut shard, &mut expected, tables)? {
        Some(last) => {
            shard.next_phase(&last);
            Ok(Some(shard))
        }
        None => Ok(None),
    }
}
