//! Lines of play on Countdown, against replies of every kind.
ghost use Rattle.gm_play.specs.Reached.{AreAllHeld};
ghost use Rattle.gm_toys.specs.Countdown.{countdown};

use crate::countdowns::countdown;
use crate::expect::{expect_eq, must};
use crate::rules::asking::on;
use gm_game::game::Game;
use gm_play::play_line::play_line;
use gm_play::sides::Side;
use gm_table::tables::Tables;
use gm_toys::countdown::Countdown;
use std::process::Abort;

type Ten = Countdown<10>;

// A number, the side that moves there, the replies, and the end of the line: a number, the side that moves there, and the number of
// moves played.
type Row = (u64, Side, &'static [u32], Option<(u64, Side, u64)>);

// From 10 the computer's moves are 1, 2, 2 and 1 if the replies are 1, 1 and 2. The game ends after seven moves, as a win in 7
// requires. Then no further reply is read. If there are no more replies, the line ends before a reply.
const ROWS: [Row; 7] = [
    (10, Side::Computer, &[1, 1, 2], Some((0, Side::You, 7))),
    (10, Side::Computer, &[1, 1, 2, 9], Some((0, Side::You, 7))),
    (10, Side::Computer, &[1], Some((6, Side::You, 3))),
    (10, Side::Computer, &[3], None),
    (9, Side::You, &[2], Some((6, Side::You, 2))),
    (9, Side::You, &[], Some((9, Side::You, 0))),
    (0, Side::You, &[1], Some((0, Side::You, 0))),
];

// Has no effect. Its contract states that each tier below tier 0 has a table if tier 0 has one. Tier 0 has no child tiers.
fn all_held(rt: &impl Abort, tables: &Tables<Ten>)
    ensures { AreAllHeld (countdown 10) tables.now 0 }
{
    assert!(rt; tables.has(0));
}

// Checks the line of a row.
fn check_line(rt: &impl Abort, tables: &Tables<Ten>, row: Row)
    requires { AreAllHeld (countdown 10) tables.now 0 }
{
    let (from, first, replies, wanted) = row;
    let start = on((0, from));
    assert!(rt; start.tier == 0 && Ten::is_legal(start));
    let found = match play_line(tables, start, first, replies) {
        Some(line) => Some((line.position.index, line.side, line.moves)),
        None => None,
    };
    expect_eq(rt, (from, replies, found), (from, replies, wanted));
}

#[test]
fn lines_of_countdown(rt: HostRuntime) {
    let mut tables: Tables<Ten> = Tables::new(rt.alloc());
    must(&rt, tables.insert(countdown(&rt, rt.alloc())));
    for row in ROWS {
        all_held(&rt, &tables);
        check_line(&rt, &tables, row);
    }
    drop(tables);
}
