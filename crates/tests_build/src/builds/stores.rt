//! Builds with two workers, two shards and pieces of one note, over a store in memory that may fail at one of its calls.
use crate::expect::{Disk, expect_eq, must};
use gm_build::build::{Built, build_from};
use gm_build::build_error::BuildError;
use gm_build::work::Work;
use gm_game::game::Game;
use gm_solver::observer::NoObserver;
use gm_solver::plan::Plan;
use gm_tactix::tactix::TacTix;
use gm_testing::hosts::Shared;
use gm_testing::sources::{Kind, TestGate, TestSource};
use gm_tierdb::flaky::Flaky;
use gm_tierdb::mem_store::MemStore;
use gm_tierdb::store::Store;
use gm_toys::chain::Chain;
use gm_toys::countdown::Countdown;
use gm_toys::stairs::Stairs;

type Ten = Countdown<10>;

// Tac Tix of four counters. It has one tier for each number of counters on the board.
type Square = TacTix<2, false>;

type Took = Result<Work, BuildError>;

// Returns the work of a build that migrated no tier and made no delivery by hand: the numbers of tiers that it solved and reused,
// and of deliveries.
fn work(solved: usize, reused: usize, deliveries: u64) -> Took {
    Ok(Work {
        solved,
        reused,
        migrated: 0,
        deliveries,
        by_hand: 0,
    })
}

// Builds the tiers of a game that one tier reaches, with this gate and source.
fn built_by<G: Shared, R: Disk, S: Store>(
    rt: &R,
    first: u64,
    store: &mut S,
    plan: Option<Plan>,
    gate: &TestGate<true>,
    source: &TestSource,
) -> Took {
    let (alloc, plan) = (rt.alloc(), plan.expect(rt, "a plan"));
    assert!(rt; store.failures() < u64::MAX);
    let built: Built<G> = build_from(rt, alloc, first, store, plan, gate, source, &NoObserver)?;
    let work = built.work;
    drop(built);
    Ok(work)
}

// Builds such tiers with a gate that does nothing and a source that hands out each piece once.
fn built<G: Shared, R: Disk, S: Store>(rt: &R, first: u64, store: &mut S) -> Took {
    let (gate, source) = (TestGate::of(Kind::Open), TestSource::counter());
    built_by::<G, R, S>(rt, first, store, Plan::new(2, 2, 1), &gate, &source)
}

// Builds a game once for each of these results, over an empty store that fails at one call.
fn builds<G: Shared, R: Disk>(rt: &R, call: u64, results: &[Took]) -> Flaky<MemStore> {
    let mut store = Flaky::new(MemStore::new(rt.alloc()), call, call);
    for result in results {
        let took = built::<G, R, _>(rt, G::initial().tier, &mut store);
        expect_eq(rt, (call, took), (call, *result));
    }
    store
}

// Checks that a tier has this text in a store, or no text.
fn check_text<R: Disk, S: Store>(rt: &R, store: &mut S, tier: u64, text: Option<&[u8]>) {
    assert!(rt; store.failures() < u64::MAX);
    let found = must(rt, store.read(rt, rt.alloc(), tier));
    expect_eq(rt, found.as_ref().map(|found| found.as_slice()), text);
    drop(found);
}

// The number of no call.
const NEVER: u64 = 0;

const FAILED: Took = Err(BuildError::StoreFailed { tier: 0 });

// The file of Countdown from 10: docs/FORMATS.md, `file_of_countdown`.
const FILE: &[u8] = b"GMTIER02countdown\0\0\0\0\0\0\0\0\0\0\0\0\0\0\0\x0b\0\0\0\0\0\0\0\
    \0\0\x10\0\x01\0\x40\0\x01\0\x40\0\x02\0\x10\0\x03\0\x40\0\x03\0\x40\0\x04\0\x10\0\x05\0\x40\0\
    \x05\0\x40\0\x06\0\x10\0\x07\0\x40\0\x2e\xf8\x81\x3d\x47\x8f\xdc\xe4\xab\xd4\x0b\xf6\
    \x24\x82\x9f\x9a\x01\xbd\x2c\x77\x00\xa0\xac\x79\x69\x57\x2a\x95\x4a\xe3\x9b\xd4";

// The file of Countdown from 10 in version 1: docs/FORMATS.md, `old_file_of_countdown`.
const OLD_FILE: &[u8] = b"GMTIER01countdown\0\0\0\0\0\0\0\0\0\0\0\0\0\0\0\x0b\0\0\0\0\0\0\0\
    \0\x10\x01\x40\x01\x40\x02\x10\x03\x40\x03\x40\x04\x10\x05\x40\x05\x40\x06\x10\x07\x40\
    \xb9\xdf\x1f\xd1\x0f\x8b\x71\x5f\xfd\xae\xaf\xac\xde\x68\x86\xf7\
    \x91\xd7\x0c\xb2\xb7\xc0\x03\x1d\x4f\xcd\xeb\x40\xa4\x4c\xa2\xae";

// Builds a game as `builds` does, and checks that tier 0 then has this text, or no text.
fn ends_with<G: Shared, R: Disk>(rt: &R, call: u64, results: &[Took], text: Option<&[u8]>) {
    let mut store = builds::<G, R>(rt, call, results);
    check_text(rt, &mut store, 0, text);
    drop(store);
}

// Checks that Countdown is built after the store fails to read or to write.
#[test]
fn a_failing_store_is_built_later(rt: HostRuntime) {
    for call in [1, 2] {
        ends_with::<Ten, _>(&rt, call, &[FAILED, work(1, 0, 19)], Some(FILE));
    }
}

// Builds a game over a store in memory with an old text of its tier, and checks that this is migrated to today's text.
fn is_migrated<G: Shared, R: Disk>(rt: &R, old: &[u8], text: &[u8]) {
    let mut store = MemStore::new(rt.alloc());
    assert!(rt; store.failures() < u64::MAX);
    must(rt, store.write(rt, 0, old));
    let took = must(rt, built::<G, R, _>(rt, 0, &mut store));
    let migrated = (took.migrated, took.solved, took.reused, took.deliveries);
    expect_eq(rt, (migrated, took.by_hand), ((1, 0, 0, 0), 0));
    check_text(rt, &mut store, 0, Some(text));
    drop(store);
}

// Checks that a file of version 1 in a store in memory is migrated without solving a tier, and that the store then has the file of
// today.
#[test]
fn an_old_file_in_memory_is_migrated(rt: HostRuntime) {
    is_migrated::<Ten, _>(&rt, OLD_FILE, FILE);
}

// The numbers of calls of a build of five tiers that fails at one of these, and of the deliveries that remain: each tier is read and
// then written, and the tiers take 0, 1, 3, 3 and 2 deliveries, as many as their canonical positions have canonical children.
const LEFT: [u64; 5] = [9, 9, 8, 5, 2];

// Returns the results of a build whose store fails at a call, and of the next one, which goes on after the finished tiers.
fn around_failure(call: usize) -> [Took; 2] {
    let done = call.saturating_sub(1) / 2;
    let left = LEFT.get(done).copied().unwrap_or(0);
    let failed = BuildError::StoreFailed { tier: done as u64 };
    [Err(failed), work(5 - done.min(5), done, left)]
}

// Checks that a build that fails at one of its calls later goes on after the finished tiers, and that then all texts are right.
#[test]
fn a_build_goes_on_where_the_store_failed(rt: HostRuntime) {
    for call in 1..11 {
        let [failed, later] = around_failure(call);
        drop(builds::<Square, _>(&rt, call as u64, &[failed, later, work(0, 5, 0)]));
    }
}

// Checks that two stores in memory have the same texts of the five tiers.
fn have_same_texts<R: Disk>(rt: &R, one: &mut MemStore, other: &mut MemStore) {
    for tier in 0..5 {
        assert!(rt; other.failures() < u64::MAX);
        let text = must(rt, other.read(rt, rt.alloc(), tier)).expect(rt, "it has a text");
        check_text(rt, one, tier, Some(text.as_slice()));
        drop(text);
    }
}

// Fails a build of five tiers at each of its calls, completes it in the inner store, and compares the texts with those of a build
// without failures.
fn goes_on_inside<G: Shared, R: Disk>(rt: &R) {
    let mut right = MemStore::new(rt.alloc());
    let solved = built::<G, R, _>(rt, 4, &mut right);
    expect_eq(rt, solved, work(5, 0, 9));
    for call in 1..11 {
        let [failed, later] = around_failure(call);
        let mut inner = builds::<G, R>(rt, call as u64, &[failed]).into_inner();
        expect_eq(rt, built::<G, R, _>(rt, 4, &mut inner), later);
        have_same_texts(rt, &mut inner, &mut right);
        drop(inner);
    }
    drop(right);
}

// Checks that a failed build can be completed in the inner store, without the failing store round it: finished tiers are reused,
// and the texts are those of a build without failures.
#[test]
fn a_build_goes_on_over_the_inner_store(rt: HostRuntime) {
    goes_on_inside::<Square, _>(&rt);
}

// Checks that a build makes ten calls, and a second build over its texts five, since reused texts are read and not written.
#[test]
fn a_build_reads_and_writes_each_tier_once(rt: HostRuntime) {
    let (solved, reused) = (work(5, 0, 9), work(0, 5, 0));
    for (call, results) in [
        (11, [solved, FAILED, reused]),
        (16, [solved, reused, FAILED]),
    ] {
        drop(builds::<Square, _>(&rt, call, &results));
    }
}

// Builds a game of four tiers from tier 1, and then all of it. Each tier but the first takes one delivery.
fn is_built_from_below<G: Shared, R: Disk>(rt: &R) {
    let mut store = Flaky::new(MemStore::new(rt.alloc()), NEVER, NEVER);
    let low = built::<G, R, _>(rt, 1, &mut store);
    expect_eq(rt, low, work(2, 0, 1));
    check_text(rt, &mut store, 2, None);
    let all = built::<G, R, _>(rt, 3, &mut store);
    expect_eq(rt, all, work(2, 2, 2));
    drop(store);
}

#[test]
fn what_a_tier_rests_on_is_built(rt: HostRuntime) {
    is_built_from_below::<Stairs<3>, _>(&rt);
}

#[test]
fn games_without_an_order_are_not_built(rt: HostRuntime) {
    let many = Err(BuildError::TooManyTiers);
    drop(builds::<Stairs<1024>, _>(&rt, NEVER, &[many]));
    let large = Err(BuildError::TierTooLarge { tier: 0 });
    drop(builds::<Countdown<16777216>, _>(&rt, NEVER, &[large]));
}

// Checks that a chain whose top has a remoteness one above the limit is not built, and that the store is left empty.
#[test]
fn a_game_that_is_too_far_is_not_built(rt: HostRuntime) {
    let far = Err(BuildError::TooFar { tier: 0 });
    ends_with::<Chain<1048576>, _>(&rt, NEVER, &[far], None);
}

// Builds a game by a plan over an empty store, and checks the work, whether the source was asked at some level, and the number of
// passes through the gate.
fn check_asked<G: Shared, R: Disk>(
    rt: &R,
    plan: Option<Plan>,
    wanted: Took,
    is_asked: bool,
    passed: usize,
) {
    let mut store = Flaky::new(MemStore::new(rt.alloc()), NEVER, NEVER);
    let (gate, source) = (TestGate::of(Kind::Turnstile(0)), TestSource::counter());
    let took = built_by::<G, R, _>(rt, G::initial().tier, &mut store, plan, &gate, &source);
    drop(store);
    let found = (took, source.asked().0 > 0, gate.passed().0);
    expect_eq(rt, found, (wanted, is_asked, passed));
}

// Checks which plans use workers. By a plan of numbers workers solve each tier: the levels of Tac Tix are those of wins and losses
// up to the greatest remoteness below. By the fastest plan workers solve no tier of Tac Tix, so neither the gate nor the source is
// asked. They do solve the tier of Countdown, in which each move stays.
#[test]
fn gate_and_source_are_asked_where_workers_deliver(rt: HostRuntime) {
    let (numbers, fastest) = (Plan::new(2, 2, 1), Plan::fastest(2, 2, 1));
    for (plan, is_asked, passed) in [(numbers, true, 9), (fastest, false, 0)] {
        check_asked::<Square, _>(&rt, plan, work(5, 0, 9), is_asked, passed);
    }
    for plan in [Plan::new(1, 1, 64), fastest] {
        check_asked::<Ten, _>(&rt, plan, work(1, 0, 19), true, 19);
    }
}
