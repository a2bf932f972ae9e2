//! The true records of the toys, their checks, and tables that are held.
ghost use Rattle.gm_table.specs.Tables.{IsHeld};

use crate::expect::{Runtime, expect, expect_eq, must};
use gm_game::game::Game;
use gm_game::limits::TIER_SIZE;
use gm_game::position::{Phase, Position, Solved, Value};
use gm_table::checker::{CheckError, check};
use gm_table::table::Table;
use gm_table::tables::Tables;
use gm_toys::countdown::Countdown;
use gm_toys::stairs::Stairs;
use gm_toys::wheel::Wheel;
use std::process::Abort;

/// A value with its remoteness, 0 for a draw.
pub(crate) type Known = (Value, u32);

/// The values of Countdown<10>, from 0 to 10.
pub(crate) const COUNTDOWN: [Known; 11] = [
    (Value::Lose, 0),
    (Value::Win, 1),
    (Value::Win, 1),
    (Value::Lose, 2),
    (Value::Win, 3),
    (Value::Win, 3),
    (Value::Lose, 4),
    (Value::Win, 5),
    (Value::Win, 5),
    (Value::Lose, 6),
    (Value::Win, 7),
];

/// The values of Wheel, from 0 to 9.
pub(crate) const WHEEL: [Known; 10] = [
    (Value::Tie, 0),
    (Value::Tie, 1),
    (Value::Tie, 2),
    (Value::Draw, 0),
    (Value::Draw, 0),
    (Value::Lose, 0),
    (Value::Win, 1),
    (Value::Lose, 2),
    (Value::Draw, 0),
    (Value::Win, 3),
];

/// Returns the record of a decided position.
pub(crate) fn record((value, remoteness): Known) -> Option<Solved> {
    Some(Solved { value, remoteness })
}

/// Checks that a table has these records from an index on, and no more.
pub(crate) fn check_table<G: Game>(
    rt: &impl Abort,
    table: &Table<G>,
    from: u64,
    records: &[Known],
) {
    let mut index = from;
    for known in records {
        let found = table.at(index);
        expect_eq(rt, (index, found), (index, record(*known)));
        index = index.saturating_add(1);
    }
    expect_eq(rt, table.size(), index);
}

/// Checks the records of a tier, and inserts the table that they make.
pub(crate) fn hold<G: Game>(rt: &impl Runtime, tables: &mut Tables<G>, tier: u64, known: &[Known]) {
    assert!(rt; tables.has_children(tier) && G::tier_size(tier) <= TIER_SIZE);
    let mut records = Vec::new(rt.alloc());
    for it in known {
        must(rt, records.push(record(*it)));
    }
    let table = check(rt.alloc(), tier, records.as_slice(), tables);
    drop(records);
    must(rt, tables.insert(must(rt, table)));
}

/// Returns tables that hold only tier 0.
pub(crate) fn held<G: Game>(rt: &impl Runtime, known: &[Known]) -> Tables<G>
    ensures { IsHeld result 0 }
{
    let mut tables = Tables::new(rt.alloc());
    hold(rt, &mut tables, 0, known);
    assert!(rt; tables.has(0));
    tables
}

/// Returns the tables of Stairs from 3 below its last tier. Its tiers 0 to 3 are lost, won, lost and won.
pub(crate) fn below_the_last_stair(rt: &impl Runtime) -> Tables<Stairs<3>> {
    let mut tables = Tables::new(rt.alloc());
    for (tier, known) in (0..).zip([(Value::Lose, 0), (Value::Win, 1), (Value::Lose, 2)]) {
        hold(rt, &mut tables, tier, &[known]);
    }
    tables
}

type Ten = Countdown<10>;

#[test]
fn check_of_countdown(rt: HostRuntime) {
    let tables: Tables<Ten> = Tables::new(rt.alloc());
    let mut records = COUNTDOWN.map(record);
    let short = check(rt.alloc(), 0, &records[..10], &tables).err();
    expect_eq(&rt, short, Some(CheckError::WrongSize));
    let table = must(&rt, check(rt.alloc(), 0, &records, &tables));
    check_table(&rt, &table, 0, &COUNTDOWN);
    records[9] = record((Value::Lose, 7));
    let wrong = check(rt.alloc(), 0, &records, &tables).err();
    expect_eq(&rt, wrong, Some(CheckError::WrongRecord { index: 9 }));
    drop((tables, table));
}

// A place, and the indexes that a table has there.
type Run = (u64, Phase, u32, &'static [u32]);

// Checks the tables of a game whose tier 0 is held: the greatest remotenesses, the runs, and that there is nothing past the last
// index or in another tier.
fn check_held<G: Game>(
    rt: &impl Abort,
    tables: &Tables<G>,
    greatest: (Option<u32>, Option<u32>),
    runs: &[Run],
) {
    let table = tables.table(0).expect(rt, "it is held");
    let found = (table.greatest(Phase::WinLose), table.greatest(Phase::Ties));
    expect_eq(rt, found, greatest);
    for (tier, phase, level, run) in runs {
        let place = (*tier, *phase, *level);
        let found = tables.run(*tier, *phase, *level);
        expect_eq(rt, (place, found), (place, *run));
    }
    let (tier, index) = (0, table.size());
    expect_eq(rt, tables.get(Position { tier, index }), None);
    expect(rt, tables.table(1).is_none());
}

const RUNS: &[Run] = &[
    (0, Phase::WinLose, 3, &[4, 5]),
    (0, Phase::WinLose, 8, &[]),
    (0, Phase::Ties, 0, &[]),
    (1, Phase::WinLose, 3, &[]),
];

// Checks the table of a game's tier 0, and once more after it was inserted again, which changes nothing.
fn check_twice<G: Game>(
    rt: &impl Runtime,
    known: &[Known],
    greatest: (Option<u32>, Option<u32>),
    runs: &[Run],
) {
    let mut tables = held::<G>(rt, known);
    check_held(rt, &tables, greatest, runs);
    hold(rt, &mut tables, 0, known);
    check_held(rt, &tables, greatest, runs);
    drop(tables);
}

#[test]
fn runs_of_tables(rt: HostRuntime) {
    check_twice::<Ten>(&rt, &COUNTDOWN, (Some(7), None), RUNS);
}

const RUNS_OF_WHEEL: &[Run] = &[
    (0, Phase::Ties, 0, &[0]),
    (0, Phase::Ties, 2, &[2]),
    (1, Phase::Ties, 0, &[]),
];

#[test]
fn runs_of_wheel(rt: HostRuntime) {
    check_twice::<Wheel>(&rt, &WHEEL, (Some(3), Some(2)), RUNS_OF_WHEEL);
}
