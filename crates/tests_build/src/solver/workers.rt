//! Tiers solved by workers, in each of the two ways, under all plans, sources and gates.
use crate::expect::{Runtime, expect, expect_eq, must};
use crate::solver::records::{COUNTDOWN, Known, WHEEL, below_the_last_stair, check_table};
use gm_game::limits::TIER_SIZE;
use gm_game::position::Value;
use gm_solver::error::SolveError;
use gm_solver::gate::{Gate, NoGate};
use gm_solver::plan::Plan;
use gm_solver::tier::Report;
use gm_table::table::Table;
use gm_table::tables::Tables;
use gm_tactix::tactix::TacTix;
use gm_testing::crews::{Way, hold_all, solve_by};
use gm_testing::hosts::Shared;
use gm_testing::sources::{Habit, Kind, TestGate, TestSource};
use gm_toys::chain::Chain;
use gm_toys::countdown::Countdown;
use gm_toys::stairs::Stairs;
use gm_toys::wheel::Wheel;

type Ten = Countdown<10>;

type Wide = TacTix<4, false>;

// A gate that is called before and after each delivery.
type Each = TestGate<true>;

// A way, and the numbers of workers, of shards, and of notes in a piece.
type How = (Way, usize, usize, usize);

// The results of solving a tier: an index, the records from it to the end, and the number of deliveries.
type Truth = (u64, &'static [Known], u64);

const TEN: Truth = (0, &COUNTDOWN, 19);

const ROUND: Truth = (0, &WHEEL, 9);

// Countdown from 0.
const NOTHING: Truth = (0, &[(Value::Lose, 0)], 0);

// The top of a chain of more positions than a piece has notes.
const LONG: Truth = (4096, &[(Value::Lose, 4096)], 4096);

// The last tier of Stairs from 3.
const TOP: Truth = (0, &[(Value::Win, 3)], 1);

const WAYS: [Way; 2] = [Way::Pieces, Way::Passes];

// Solves a tier. The tables of its child tiers are held.
fn solve<G: Shared, R: Runtime, T: Gate>(
    rt: &R,
    tables: &Tables<G>,
    tier: u64,
    (way, workers, shards, piece): How,
    gate: &T,
    source: &TestSource,
) -> Result<(Table<G>, Report), SolveError> {
    let plan = Plan::new(workers, shards, piece).expect(rt, "a plan");
    assert!(rt; tables.has_children(tier) && G::tier_size(tier) <= TIER_SIZE);
    solve_by(rt, tier, tables, way, plan, gate, source)
}

// Solves a tier, and checks the results, and the number of deliveries by hand.
fn solves_tier<G: Shared, R: Runtime, T: Gate>(
    rt: &R,
    tables: &Tables<G>,
    tier: u64,
    how: How,
    gate: &T,
    source: &TestSource,
    (from, records, deliveries): Truth,
    by_hand: u64,
) {
    let solved = solve(rt, tables, tier, how, gate, source);
    let (table, report) = must(rt, solved);
    check_table(rt, &table, from, records);
    drop(table);
    let found = (report.deliveries, report.by_hand);
    expect_eq(rt, found, (deliveries, by_hand));
}

// Solves a game of one tier, and checks the same.
fn solves<G: Shared, R: Runtime, T: Gate>(
    rt: &R,
    how: How,
    gate: &T,
    source: &TestSource,
    truth: Truth,
    by_hand: u64,
) {
    let tables: Tables<G> = Tables::new(rt.alloc());
    solves_tier(rt, &tables, 0, how, gate, source, truth, by_hand);
    drop(tables);
}

// Solves a game of one tier in both ways by two workers and this many shards.
fn in_both_ways<G: Shared, R: Runtime>(rt: &R, shards: usize, truth: Truth) {
    let (gate, source) = (Each::of(Kind::Open), TestSource::counter());
    for way in WAYS {
        solves::<G, R, _>(rt, (way, 2, shards, 1), &gate, &source, truth, 0);
    }
}

// Checks a game by this many workers in a way, for each number of shards and for pieces of one and of 64 notes.
fn by_plans<G: Shared, R: Runtime, T: Gate>(
    rt: &R,
    gate: &T,
    way: Way,
    workers: usize,
    truth: Truth,
) {
    let source = TestSource::counter();
    for shards in [1, 2, 4] {
        for piece in [1, 64] {
            let how = (way, workers, shards, piece);
            solves::<G, R, T>(rt, how, gate, &source, truth, 0);
        }
    }
}

// Checks the same with a gate round each delivery, and without a gate, as the program solves.
fn check_workers<G: Shared, R: Runtime>(rt: &R, way: Way, workers: usize, truth: Truth) {
    by_plans::<G, R, _>(rt, &Each::of(Kind::Open), way, workers, truth);
    by_plans::<G, R, _>(rt, &NoGate, way, workers, truth);
}

#[test]
fn toys_under_nine_plans(rt: HostRuntime) {
    for way in WAYS {
        for workers in [1, 2, 16] {
            check_workers::<Ten, _>(&rt, way, workers, TEN);
            check_workers::<Wheel, _>(&rt, way, workers, ROUND);
        }
    }
}

// Checks a game by sources of these habits with a gate, each with the number of deliveries by hand.
fn by_habit<G: Shared, R: Runtime, T: Gate>(
    rt: &R,
    gate: &T,
    truth: Truth,
    cases: &[(Way, Habit, u64)],
) {
    for (way, habit, by_hand) in cases {
        let source = TestSource::of(*habit);
        solves::<G, R, T>(rt, (*way, 2, 2, 1), gate, &source, truth, *by_hand);
        // Each level of Wheel has one piece, for one worker.
        expect(rt, source.served_both(rt) || truth.2 == ROUND.2);
    }
}

const HABITS: &[(Way, Habit, u64)] = &[
    (Way::Pieces, Habit::Silent, 19),
    (Way::Pieces, Habit::Always(0), 6),
    (Way::Pieces, Habit::Twice, 0),
    (Way::Pieces, Habit::Odd, 13),
    (Way::Pieces, Habit::Always(usize::MAX), 19),
    (Way::Passes, Habit::Silent, 19),
    (Way::Passes, Habit::Always(0), 10),
    (Way::Passes, Habit::Twice, 0),
    (Way::Passes, Habit::Odd, 9),
    (Way::Passes, Habit::Always(usize::MAX), 19),
];

const HABITS_OF_WHEEL: &[(Way, Habit, u64)] = &[
    (Way::Pieces, Habit::Silent, 9),
    (Way::Passes, Habit::Twice, 0),
    (Way::Passes, Habit::Silent, 9),
];

// Checks sources by which whole pieces are lost, repeated and walked twice, with this gate.
fn every_habit<R: Runtime, T: Gate>(rt: &R, gate: &T) {
    by_habit::<Ten, R, T>(rt, gate, TEN, HABITS);
    by_habit::<Wheel, R, T>(rt, gate, ROUND, HABITS_OF_WHEEL);
}

#[test]
fn sources_of_every_habit(rt: HostRuntime) {
    every_habit(&rt, &Each::of(Kind::Open));
    every_habit(&rt, &NoGate);
}

// Each habit with the number of gate calls before deliveries (there are as many after them), and the number of deliveries by hand.
// The levels 1, 3 and 5 have two notes, with two pairs each. A source that always names the first of them has it walked four times,
// and one that gives each number twice has both walked twice.
const PASSED: [(Habit, usize, u64); 5] = [
    (Habit::Once, 19, 0),
    (Habit::Silent, 0, 19),
    (Habit::Always(0), 31, 6),
    (Habit::Twice, 31, 0),
    (Habit::Odd, 6, 13),
];

#[test]
fn gate_is_called_for_each_delivery_of_a_piece(rt: HostRuntime) {
    for (habit, passed, by_hand) in PASSED {
        let gate = TestGate::<false>::of(Kind::Turnstile(0));
        by_habit::<Ten, _, _>(&rt, &gate, TEN, &[(Way::Pieces, habit, by_hand)]);
        expect_eq(&rt, gate.passed(), (passed, passed));
    }
}

// Each way with the level at which two workers wait for each other. By passes both have pairs at level 3.
#[test]
fn two_workers_meet(rt: HostRuntime) {
    for (way, level) in [(Way::Pieces, 1), (Way::Passes, 3)] {
        let gate = Each::of(Kind::Meeting(level));
        let source = TestSource::of(Habit::Own);
        solves::<Ten, _, _>(&rt, (way, 2, 2, 1), &gate, &source, TEN, 0);
        expect(&rt, gate.met(&rt) && gate.gave_up() == 0);
    }
}

// Each way with the number of notes in a piece, and the number of turns that the gate takes.
const TURNS: [(Way, usize, u32); 5] = [
    (Way::Pieces, 1, 0),
    (Way::Pieces, 64, 0),
    (Way::Pieces, 1, 1000),
    (Way::Passes, 1, 0),
    (Way::Passes, 1, 1000),
];

#[test]
fn gate_is_called_for_each_delivery(rt: HostRuntime) {
    for (way, piece, turns) in TURNS {
        let gate = Each::of(Kind::Turnstile(turns));
        let source = TestSource::counter();
        solves::<Ten, _, _>(&rt, (way, 2, 2, piece), &gate, &source, TEN, 0);
        expect_eq(&rt, (piece, turns, gate.passed()), (piece, turns, (19, 19)));
        expect_eq(&rt, (piece, source.served_both(&rt)), (piece, piece == 1));
    }
}

// The number of pairs of tier 8 of Tac Tix on 4 by 4, counted by a plain program. It is large enough to fill batches.
const MANY: u64 = 25_069;

// Checks that a worker leaves the seat of a delivery before it calls the gate for the next one. Otherwise it would wait for itself.
#[test]
fn one_seat_serves_all_workers(rt: HostRuntime) {
    let mut tables: Tables<Wide> = Tables::new(rt.alloc());
    let below = [0, 1, 2, 3, 4, 5, 6, 7];
    expect(&rt, hold_all(rt.alloc(), &mut tables, &below));
    for way in WAYS {
        let (gate, source) = (Each::of(Kind::Seat), TestSource::counter());
        let solved = solve(&rt, &tables, 8, (way, 2, 2, 64), &gate, &source);
        let (table, report) = must(&rt, solved);
        drop(table);
        expect_eq(&rt, (report.deliveries, report.by_hand), (MANY, 0));
        expect_eq(&rt, (gate.passed().0, gate.gave_up()), (MANY as usize, 0));
    }
    drop(tables);
}

#[test]
fn a_long_chain(rt: HostRuntime) {
    in_both_ways::<Chain<4096>, _>(&rt, 2, LONG);
}

#[test]
fn shards_without_positions(rt: HostRuntime) {
    in_both_ways::<Countdown<0>, _>(&rt, 4, NOTHING);
}

// Checks that a chain is refused if its top has a remoteness one above the limit. Each of its levels has one note, so no level
// starts a thread.
fn check_too_far<R: Runtime>(rt: &R, way: Way) {
    let tables: Tables<Chain<1048576>> = Tables::new(rt.alloc());
    let (gate, source) = (Each::of(Kind::Open), TestSource::counter());
    let refused = solve(rt, &tables, 0, (way, 2, 2, 1), &gate, &source).err();
    expect_eq(rt, refused, Some(SolveError::TooFar { tier: 0 }));
    drop(tables);
}

#[test]
fn a_chain_above_the_limit_by_pieces(rt: HostRuntime) {
    check_too_far(&rt, Way::Pieces);
}

#[test]
fn a_chain_above_the_limit_by_passes(rt: HostRuntime) {
    check_too_far(&rt, Way::Passes);
}

// Solves the last of the stairs by a source that hands out each number twice. Returns the number of levels that are begun, of
// pieces that are reported to it, and of the requests to it.
fn asked_on_stairs<R: Runtime>(
    rt: &R,
    tables: &Tables<Stairs<3>>,
    way: Way,
) -> (usize, usize, usize) {
    let (gate, source) = (Each::of(Kind::Open), TestSource::of(Habit::Twice));
    solves_tier(rt, tables, 3, (way, 2, 2, 1), &gate, &source, TOP, 0);
    source.asked()
}

#[test]
fn levels_of_stairs(rt: HostRuntime) {
    let tables = below_the_last_stair(&rt);
    // The levels 0 to 3 of wins and losses, and no level of ties.
    expect_eq(&rt, asked_on_stairs(&rt, &tables, Way::Pieces).0, 4);
    // By passes the levels 0, 1 and 3 have no pair. Two workers ask four times at each level.
    let by_passes = asked_on_stairs(&rt, &tables, Way::Passes);
    expect_eq(&rt, by_passes, (4, 16, 32));
    drop(tables);
}
