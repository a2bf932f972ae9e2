//! The true records of Countdown, and the tables that they make.
use crate::expect::must;
use gm_game::position::{Solved, Value};
use gm_table::checker::check;
use gm_table::table::Table;
use gm_table::tables::Tables;
use gm_toys::countdown::Countdown;
use std::alloc::Global;
use std::process::Abort;

/// A value with its remoteness.
pub(crate) type Known = (Value, u32);

/// The values of 0 to 10.
pub(crate) const VALUES: [Known; 11] = [
    (Value::Lose, 0),
    (Value::Win, 1),
    (Value::Win, 1),
    (Value::Lose, 2),
    (Value::Win, 3),
    (Value::Win, 3),
    (Value::Lose, 4),
    (Value::Win, 5),
    (Value::Win, 5),
    (Value::Lose, 6),
    (Value::Win, 7),
];

/// Returns the record of a value.
pub(crate) fn record((value, remoteness): Known) -> Option<Solved> {
    Some(Solved { value, remoteness })
}

/// Returns the table of Countdown from 10.
pub(crate) fn countdown(rt: &impl Abort, alloc: Global) -> Table<Countdown<10>> {
    let tables: Tables<Countdown<10>> = Tables::new(alloc);
    let table = check(alloc, 0, &VALUES.map(record), &tables);
    drop(tables);
    must(rt, table)
}
