//! Levels of held tiers: their notes, their pairs, and the counts of these.
ghost use Rattle.std.specs.Prelude.{◌≡◌, ◌+◌, ◌<◌, length};
ghost use Rattle.gm_game.specs.declared.position.Phase.TheVariants.{WinLose};
ghost use Rattle.gm_table.specs.Tables.{AreHeld};
ghost use Rattle.gm_frontier.specs.Levels.{place_at, AreTiles};
ghost use Rattle.gm_frontier.specs.inner.Tallies.{IsTallyTile};
ghost use Rattle.gm_counters.specs.Steps.{place_of};

use crate::expect::{Runtime, expect, expect_eq, must};
use crate::solver::records::{Known, below_the_last_stair, record};
use crate::solver::shards::closes;
use gm_frontier::expected::Expected;
use gm_frontier::level::Level;
use gm_frontier::run::Run;
use gm_game::game::Game;
use gm_game::limits::TIER_SIZE;
use gm_game::position::{Phase, Place, Position, Value};
use gm_shard::shard::Shard;
use gm_table::tables::Tables;
use gm_testing::by_hand::{begin_whole, fresh_run};
use gm_toys::countdown::Countdown;
use gm_toys::stairs::Stairs;
use std::process::Abort;

type Ten = Countdown<10>;

// Returns a place among the wins and losses.
fn level_of(tier: u64, level: u32) -> Place
    ensures { result ≡ place_at tier WinLose level }
{
    Place {
        tier,
        phase: Phase::WinLose,
        level,
    }
}

// The required level of one note: the indexes of the note and of a parent of each of its pairs, and the counts of these into the
// first tiles of six.
struct Wanted {
    position: Position,
    known: Known,
    pairs: &'static [(u64, u64)],
    counts: (u64, u64),
}

// Checks a level of one note that is not the last one of its phase.
fn check_level<G: Game>(rt: &impl Runtime, level: &Level<G>, tables: &Tables<G>, wanted: &Wanted)
    requires { AreHeld G.rules tables.now level.now.place.tier }
{
    assert!(rt; level.len() == 1);
    let note = level.note(0);
    let found = (note.position(), Some(note.solved()));
    expect_eq(rt, found, (wanted.position, record(wanted.known)));
    let mut count = 0usize;
    for (note, parent) in level.pairs(0, 1, 0, TIER_SIZE) {
        let pair = (note.position().index, parent);
        expect_eq(rt, Some(pair), wanted.pairs.get(count).copied());
        count = count.saturating_add(1);
    }
    expect_eq(rt, count, wanted.pairs.len());
    expect(rt, level.last(tables).is_none());
    let tally = must(rt, level.tally(rt.alloc(), 0, 1, 6));
    expect_eq(rt, (tally.count(0), tally.count(1)), wanted.counts);
    drop(tally);
}

// Returns the level at the place of a shard of a whole tier, from the run of its fresh notes.
fn level_here<'a, G: Game>(
    rt: &impl Runtime,
    shard: &Shard<G>,
    runs: &'a [Run<G>],
    tables: &'a Tables<G>,
) -> Level<'a, G>
    requires { AreTiles (place_of shard.now) shard.now.lo (shard.now.lo + length shard.now.delivered) runs.now }
    ensures { AreHeld G.rules tables.now result.place.tier }
{
    let tier = shard.tier();
    let size = G::tier_size(tier);
    assert!(rt; shard.range() == (0, size) && size <= TIER_SIZE && tables.has_children(tier));
    must(rt, Level::gather(rt.alloc(), shard.place(), runs, tables))
}

const FIRST: Wanted = Wanted {
    position: Position { tier: 0, index: 0 },
    known: (Value::Lose, 0),
    pairs: &[(0, 1), (0, 2)],
    counts: (2, 0),
};

// Checks the first level of Countdown.
fn check_first(rt: &impl Runtime) {
    let tables: Tables<Ten> = Tables::new(rt.alloc());
    let shard = must(rt, begin_whole::<Ten>(rt.alloc(), 0));
    let runs = must(rt, fresh_run(rt.alloc(), &shard));
    let level = level_here(rt, &shard, runs.as_slice(), &tables);
    check_level(rt, &level, &tables, &FIRST);
    drop(level);
    drop((runs, shard, tables));
}

#[test]
fn tally_of_a_piece(rt: HostRuntime) {
    check_first(&rt);
}

// Delivers the pairs of a shard's current level, adds them to its count, and closes it.
fn close_level<G: Game>(
    rt: &impl Abort,
    shard: &mut Shard<G>,
    level: &Level<G>,
    expected: &mut Expected<G>,
) {
    let (lo, hi) = shard.range();
    for (note, parent) in level.pairs(0, level.len().max(1), lo, hi) {
        expect(rt, shard.deliver(&note, parent).is_ok());
    }
    assert!(rt; expected.takes(level));
    expected.add(level);
    closes(rt, shard, expected, Ok(()));
}

// The level of tier 2, seen from tier 3.
const OF_CHILD_TIER: Wanted = Wanted {
    position: Position { tier: 2, index: 0 },
    known: (Value::Lose, 2),
    pairs: &[(0, 0)],
    counts: (1, 0),
};

// Checks that the tier of 3 has the levels 0 to 3 of wins and losses, each at its place, and that the phase ends with the next one.
fn check_levels(rt: &impl Runtime) {
    let tables = below_the_last_stair(rt);
    let mut shard = must(rt, begin_whole::<Stairs<3>>(rt.alloc(), 3));
    let mut expected = Expected::start(3, 0, 1);
    for number in 0..5 {
        let runs = must(rt, fresh_run(rt.alloc(), &shard));
        let level = level_here(rt, &shard, runs.as_slice(), &tables);
        expect_eq(rt, level.place(), level_of(3, number));
        expect_eq(rt, level.last(&tables).is_some(), number == 4);
        if number == 2 {
            check_level(rt, &level, &tables, &OF_CHILD_TIER);
        }
        if number < 4 {
            close_level(rt, &mut shard, &level, &mut expected);
        }
        drop(level);
        drop(runs);
    }
    expect_eq(rt, expected.number(), 1);
    drop((shard, expected, tables));
}

#[test]
fn levels_of_the_last_stair(rt: HostRuntime) {
    check_levels(&rt);
}

// Checks the level of a tier without positions.
#[test]
fn level_of_an_empty_tier(rt: HostRuntime) {
    let tables: Tables<Stairs<3>> = Tables::new(rt.alloc());
    let level = must(&rt, Level::gather(rt.alloc(), level_of(4, 0), &[], &tables));
    let last = level.last(&tables).expect(&rt, "the end");
    expect_eq(&rt, (level.len(), last.place()), (0, level_of(4, 0)));
    drop(level);
    drop(tables);
}

// Adds a level of tier 0 to two counts into a tile of this width: by a walk of its pairs, and by the tallies of pieces of one note.
fn add_level<G: Game>(
    rt: &impl Runtime,
    level: &Level<G>,
    tile: (u64, u64),
    width: u64,
    walked: &mut Expected<G>,
    tallied: &mut Expected<G>,
)
    requires width { 0 < width }
    requires tile { IsTallyTile (G.rules.tier_size 0) width tile.0 tile.1 }
{
    let (lo, hi) = tallied.range();
    expect(rt, walked.takes(level));
    expect(rt, tallied.takes(level));
    expect(rt, level.tier() == 0);
    expect(rt, lo == tile.0);
    expect(rt, hi == tile.1);
    walked.add(level);
    let tallies = must(rt, level.tallies(rt.alloc(), 1, width));
    tallied.add_counted(level, tallies.as_slice());
    drop(tallies);
}

// Checks the number of pairs of all levels of Countdown into a tile of this width, by a walk and by tallies.
fn check_count(rt: &impl Runtime, lo: u64, hi: u64, width: u64, number: u64)
    requires width { 0 < width }
    requires tile { IsTallyTile 11 width lo hi }
{
    let tile = (lo, hi);
    let tables: Tables<Ten> = Tables::new(rt.alloc());
    let mut shard = must(rt, begin_whole::<Ten>(rt.alloc(), 0));
    let mut whole = Expected::start(0, 0, 11);
    let mut walked = Expected::start(0, lo, hi);
    let mut tallied = Expected::start(0, lo, hi);
    for _ in 0..8 {
        let runs = must(rt, fresh_run(rt.alloc(), &shard));
        let level = level_here(rt, &shard, runs.as_slice(), &tables);
        add_level(rt, &level, tile, width, &mut walked, &mut tallied);
        close_level(rt, &mut shard, &level, &mut whole);
        drop(level);
        drop(runs);
    }
    expect_eq(rt, (walked.number(), tallied.number()), (number, number));
    expect_eq(rt, walked.last(), Some(level_of(0, 7)));
    drop((shard, whole, walked, tallied, tables));
}

#[test]
fn counts_of_countdown(rt: HostRuntime) {
    check_count(&rt, 0, 11, 11, 19);
    check_count(&rt, 0, 6, 6, 9);
    check_count(&rt, 6, 11, 6, 10);
}
