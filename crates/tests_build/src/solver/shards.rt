//! Shards whose levels are run from outside, and desks with deliveries in order, used as by callers with workers of their own.
ghost use Rattle.std.specs.Prelude.{◌≡◌, ◌≤◌, ◌-◌, ◌<◌, IfOk};
ghost use Rattle.gm_game.specs.declared.position.Phase.TheVariants.{Ties};
ghost use Rattle.gm_table.specs.Tables.{AreHeld};
ghost use Rattle.gm_counters.specs.inner.Begin.{first_state};
ghost use Rattle.gm_testing.specs.ByHand.{IsOfTier};
ghost use Rattle.gm_counters.specs.State.{pairs_in};
ghost use Rattle.gm_locks.specs.Spots.{spot_of};
ghost use Rattle.gm_locks.specs.Rounds.{place_of_spot, HasNoneHere, IsLevelAt};
ghost use Rattle.gm_solver.specs.Desks.{IsForSpot};

use crate::expect::{Runtime, expect, expect_eq, must};
use crate::solver::records::{Known, record};
use gm_frontier::expected::Expected;
use gm_frontier::level::Level;
use gm_frontier::note::Note;
use gm_game::game::Game;
use gm_game::limits::{REMOTENESS, TIER_SIZE};
use gm_game::position::{Solved, Value};
use gm_shard::event::Event;
use gm_shard::ordered::OrderedShard;
use gm_shard::replay::replay;
use gm_shard::shard::Shard;
use gm_shard::short::Short;
use gm_shard::status::{Delivery, Refused, Status};
use gm_solver::starts::starts;
use gm_solver::{LevelLedger, Pass, PassDesk};
use gm_table::packed::Packed;
use gm_table::tables::Tables;
use gm_testing::by_hand::{at_ties, begin_counted, begin_whole, finish_phase, last_of};
use gm_toys::countdown::Countdown;
use gm_toys::wheel::Wheel;
use std::alloc::{AllocError, Global};
use std::marker::Brand;
use std::process::Abort;
use std::sync::Wait;
use std::sync::ledger::Blank;

type Ten = Countdown<10>;

/// Returns the note of index 0, which is lost.
pub(crate) fn first_note<G: Game>(rt: &impl Abort, shard: &Shard<G>) -> Note<G> {
    let (lo, hi) = shard.range();
    assert!(rt; lo == 0 && 0 < hi);
    shard.note(0).expect(rt, "0 is lost")
}

/// Closes a level with a count that is for the shard, with this result.
pub(crate) fn closes<G: Game>(
    rt: &impl Abort,
    shard: &mut Shard<G>,
    expected: &Expected<G>,
    answer: Result<(), Short>,
) {
    assert!(rt; shard.is_for(expected) && shard.level() <= REMOTENESS);
    expect_eq(rt, shard.close(expected), answer);
}

// Returns the status of a decided position.
fn settled((value, remoteness): Known) -> Status {
    Status::Settled(Solved { value, remoteness })
}

// Returns the status of an index in the range, and its counter.
fn known<G: Game>(rt: &impl Abort, shard: &Shard<G>, index: u64) -> (Status, u32) {
    let (lo, hi) = shard.range();
    assert!(rt; lo <= index && index < hi);
    (shard.status(index), shard.counter(index))
}

// Delivers a note to these parents in turn, with these results.
fn delivers<G: Game>(
    rt: &impl Abort,
    shard: &mut Shard<G>,
    note: &Note<G>,
    parents: &[(u64, Result<Delivery, Refused>)],
) {
    for (parent, answer) in parents {
        expect_eq(rt, shard.deliver(note, *parent), *answer);
    }
}

// Takes the first level of Countdown: the note of 0, which has two parents.
fn first_level<G: Game>(
    rt: &impl Abort,
    shard: &mut Shard<G>,
    zero: &Note<G>,
    expected: &Expected<G>,
) {
    let parents = [
        (1, Ok(Delivery::FreshSettled)),
        (1, Ok(Delivery::Repeat)),
        (5, Err(Refused::NotAParent)),
        (11, Err(Refused::NotMine)),
    ];
    delivers(rt, shard, zero, &parents);
    let short = Short {
        delivered: 1,
        expected: 2,
    };
    closes(rt, shard, expected, Err(short));
    delivers(rt, shard, zero, &[(2, Ok(Delivery::FreshSettled))]);
    closes(rt, shard, expected, Ok(()));
    delivers(rt, shard, zero, &[(1, Err(Refused::NotThisLevel))]);
}

// Takes the second level: the notes of 1 and 2. The moves from 3 lead to both, and one of those from 2 leads to 1.
fn second_level<G: Game>(rt: &impl Abort, shard: &mut Shard<G>, notes: &[Note<G>]) {
    assert!(rt; notes.len() == 2);
    let (one, two) = (&notes[0], &notes[1]);
    expect_eq(rt, (one.position().index, two.position().index), (1, 2));
    delivers(rt, shard, one, &[(2, Ok(Delivery::Fresh))]);
    expect_eq(rt, known(rt, shard, 2).1, 0);
    delivers(rt, shard, one, &[(3, Ok(Delivery::Fresh))]);
    expect_eq(rt, known(rt, shard, 3), (Status::Undecided, 1));
    delivers(rt, shard, two, &[(3, Ok(Delivery::FreshSettled))]);
    expect_eq(rt, known(rt, shard, 3).0, settled((Value::Lose, 2)));
    expect_eq(rt, shard.delivered(), 5);
}

// Returns the count of the first level of a shard over all of Countdown.
fn first_expected(rt: &impl Runtime, shard: &Shard<Ten>) -> Expected<Ten>
    requires { shard.now ≡ first_state 0 0 11 }
{
    let mut expected = Expected::start(0, 0, 11);
    let tables: Tables<Ten> = Tables::new(rt.alloc());
    let runs = [must(rt, shard.fresh(rt.alloc()))];
    let level = must(rt, Level::gather(rt.alloc(), shard.place(), &runs, &tables));
    expected.add(&level);
    drop(level);
    drop((runs, tables));
    expected
}

#[test]
fn one_shard_by_hand(rt: HostRuntime) {
    let alloc = rt.alloc();
    let mut shard = must(&rt, begin_whole::<Ten>(alloc, 0));
    let expected = first_expected(&rt, &shard);
    let first = must(&rt, shard.fresh(alloc));
    assert!(rt; first.list().len() == 1);
    expect_eq(&rt, first.list()[0].position().index, 0);
    let zero = first_note(&rt, &shard);
    first_level(&rt, &mut shard, &zero, &expected);
    let second = must(&rt, shard.fresh(alloc));
    second_level(&rt, &mut shard, second.list());
    drop((shard, expected, first, second));
}

// Checks the records of a shard of one position, which is lost, at the end of ties.
fn check_end<G: Game>(rt: &impl Runtime, shard: &Shard<G>, tables: &Tables<G>)
    requires ties { shard.now.phase ≡ Ties }
    requires whole { IsOfTier G.rules shard.now }
    requires children { AreHeld G.rules tables.now shard.now.tier }
    requires small { G.rules.tier_size shard.now.tier ≤ TIER_SIZE }
{
    let last = must(rt, last_of(rt.alloc(), shard, tables)).expect(rt, "the end");
    let mut records = must(rt, Packed::with_capacity(rt.alloc(), 0));
    must(rt, shard.finish(&last, &mut records));
    let lost = record((Value::Lose, 0));
    expect_eq(rt, (records.len(), records.get(0)), (1, lost));
    drop(records);
    let mut list = Vec::new(rt.alloc());
    must(rt, shard.finish_into(&last, &mut list));
    expect_eq(rt, list.as_slice(), &[lost]);
    drop(list);
}

#[test]
fn one_position_to_its_end(rt: HostRuntime) {
    let tables: Tables<Countdown<0>> = Tables::new(rt.alloc());
    let shard = must(&rt, at_ties(rt.alloc(), 0, &tables)).expect(&rt, "ties");
    check_end(&rt, &shard, &tables);
    drop((shard, tables));
}

// Returns the delivery of a note to a parent in a shard.
fn delivery(note: Note<Ten>, shard: usize, parent: u64) -> Event<Ten> {
    Event::Deliver {
        shard,
        note,
        parent,
    }
}

// Replays deliveries of the only note of the first level: to a parent twice, to an index that is not a parent, to a shard that
// doesn't exist, and to another parent. Then the level is closed.
#[test]
fn replay_of_a_level(rt: HostRuntime) {
    let shard = must(&rt, begin_whole::<Ten>(rt.alloc(), 0));
    let note = first_note(&rt, &shard);
    let expected = first_expected(&rt, &shard);
    let events = [
        delivery(note, 0, 2),
        delivery(note, 0, 2),
        delivery(note, 0, 5),
        delivery(note, 1, 1),
        delivery(note, 0, 1),
        Event::Close { shard: 0, expected },
    ];
    let mut shards = [shard];
    expect_eq(&rt, replay(&mut shards, &events), 3);
    expect_eq(&rt, shards[0].level(), 1);
    drop((events, shards));
}

// Checks the wheel's shard at the end of ties: each index with its counter.
fn check_counters<G: Game>(rt: &impl Abort, shard: &Shard<G>) {
    for (index, counter) in [(8, 1), (3, 1), (4, 1), (2, 1), (9, 0)] {
        expect_eq(rt, known(rt, shard, index).1, counter);
    }
    expect_eq(rt, known(rt, shard, 8).0, Status::Undecided);
    expect_eq(rt, known(rt, shard, 9).0, settled((Value::Win, 3)));
}

#[test]
fn wheel_by_hand(rt: HostRuntime) {
    let alloc = rt.alloc();
    let tables: Tables<Wheel> = Tables::new(alloc);
    let (mut shard, mut expected) = must(&rt, begin_counted::<Wheel>(alloc, 0));
    let won = finish_phase(alloc, &mut shard, &mut expected, &tables);
    let last = must(&rt, won).expect(&rt, "the end");
    shard.next_phase(&last);
    expected.next_phase(&last);
    let tied = finish_phase(alloc, &mut shard, &mut expected, &tables);
    let _last = must(&rt, tied).expect(&rt, "the end");
    expect_eq(&rt, (shard.delivered(), expected.number()), (9, 9));
    check_counters(&rt, &shard);
    drop((shard, expected, tables));
}

// The result of one delivery at a desk, with the amount of the pass after it, and whether the pass is full.
type Told = (Result<Delivery, Refused>, u64, bool);

// Delivers the level's pairs into the desk's range, each as the next one of the pass. Returns whether these are the results, and
// there are no more pairs.
fn answers<G: Game, L: LevelLedger, R: Wait>(
    rt: &R,
    desk: &PassDesk<G, L>,
    level: &Level<G>,
    pass: &mut Pass<L>,
    expected: &Expected<G>,
    told: &[Told],
) -> bool
    requires level { IsLevelAt level.now L.spot L.notes }
    requires is_for { IsForSpot expected.now L.spot }
{
    for wanted in told {
        let Some((note, parent)) = desk.next_pair(level, pass) else {
            return false;
        };
        let answer = desk.deliver_next(rt, &note, parent, pass);
        if (answer, pass.amount(), pass.full(expected)) != *wanted {
            return false;
        }
    }
    desk.next_pair(level, pass).is_none()
}

// Delivers at a desk of this name round a shard. The pass is full at the end, and at once if nothing is to be delivered. Then the
// shard has this many pairs, and closes.
fn pass_named<G: Game, L: LevelLedger, R: Wait + Abort>(
    rt: &R,
    blank: Blank,
    shard: OrderedShard<G>,
    level: &Level<G>,
    expected: &Expected<G>,
    told: &[Told],
    delivered: u64,
)
    requires name { blank.name ≡ L.name }
    requires parts { (blank.parts ≡ L.parts) × (0 < L.parts) }
    requires spot { spot_of shard ≡ L.spot }
    requires level { IsLevelAt level.now L.spot L.notes }
    requires base { pairs_in shard ≡ L.base }
    requires none { HasNoneHere G.rules shard }
    requires is_for { IsForSpot expected.now L.spot }
    requires near { L.spot.level ≤ REMOTENESS }
{
    let (desk, mut pass) = PassDesk::<G, L>::around(blank, shard, level);
    expect_eq(rt, pass.full(expected), told.is_empty());
    expect(rt, answers(rt, &desk, level, &mut pass, expected, told));
    assert!(rt; pass.full(expected));
    let mut shard = desk.into_whole(pass, expected);
    expect_eq(rt, shard.delivered(), delivered);
    shard.close();
    expect_eq(rt, shard.place().level, 1);
    drop(shard);
}

// Returns the shard of the indexes of a tier from `lo` up to `hi`, before the first level.
fn ordered_range<G: Game>(
    alloc: Global,
    tier: u64,
    lo: u64,
    hi: u64,
) -> Result<OrderedShard<G>, AllocError>
    requires order { lo ≤ hi }
    requires within { hi ≤ TIER_SIZE }
    ensures { IfOk result (λ shard. shard ≡ first_state tier lo (hi - lo)) }
{
    let list = starts::<G>(alloc, tier, lo, hi)?;
    OrderedShard::begin(alloc, tier, lo, list.as_slice())
}

// Delivers the first level of a tier at a desk round the indexes from `lo` up to `hi`, with these results.
fn pass_by_hand<G: Game, R: Runtime>(
    rt: &R,
    level: &Level<G>,
    lo: u64,
    hi: u64,
    told: &[Told],
    delivered: u64,
)
    requires first { level.now.place ≡ place_of_spot (spot_of (first_state level.now.place.tier 0 0)) }
    requires order { lo ≤ hi }
    requires within { hi ≤ TIER_SIZE }
{
    let tier = level.tier();
    let shard = must(rt, ordered_range::<G>(rt.alloc(), tier, lo, hi));
    let mut expected = Expected::start(tier, lo, hi);
    expected.add(level);
    let blank = Blank::new(1);
    pass_named::<G, Brand, R>(rt, blank, shard, level, &expected, told, delivered);
    drop(expected);
}

// The deliveries of the note of 0 to its parents 1 and 2.
const TOLD: [Told; 2] = [
    (Ok(Delivery::FreshSettled), 1, false),
    (Ok(Delivery::FreshSettled), 2, true),
];

// Delivers the first level of Countdown, at desks round the indexes below 6 and from 6 on.
#[test]
fn desks_by_hand(rt: HostRuntime) {
    let alloc = rt.alloc();
    let tables: Tables<Countdown<10>> = Tables::new(alloc);
    let whole = must(&rt, begin_whole::<Countdown<10>>(alloc, 0));
    let runs = [must(&rt, whole.fresh(alloc))];
    let level = must(&rt, Level::gather(alloc, whole.place(), &runs, &tables));
    pass_by_hand(&rt, &level, 0, 6, &TOLD, 2);
    pass_by_hand(&rt, &level, 6, 11, &[], 0);
    drop(level);
    drop((runs, whole, tables));
}
