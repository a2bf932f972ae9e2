//! Boards of four shards, used as by callers with workers of their own: by hand, and from two threads.
ghost use Rattle.std.specs.Prelude.{◌≡◌, ◌<◌};
ghost use Rattle.gm_locks.specs.Spots.{spot_of};
ghost use Rattle.gm_solver.specs.Boards.{AreFourTiles};
ghost use Rattle.gm_shard.specs.inner.Masks.{IsPlaceOf};

use crate::expect::{Runtime, expect_eq, must};
use crate::solver::shards::first_note;
use gm_frontier::note::Note;
use gm_game::game::Game;
use gm_game::limits::TIER_SIZE;
use gm_shard::place::place_of;
use gm_shard::shard::Shard;
use gm_shard::status::{Delivery, Refused};
use gm_solver::held::gained;
use gm_solver::starts::begin_range;
use gm_solver::{Board, Four, ShardLedger, Shares};
use gm_testing::hosts::Shared;
use gm_toys::countdown::Countdown;
use std::marker::Brand;
use std::sync::ledger::Blank;
use std::sync::{Mutex, Wait};
use std::thread::join;

// A call by which a worker delivers.
#[derive(Clone, Copy)]
enum Call {
    Deliver,
    DeliverAt,
}

// An action with the pair of a note and a parent on a board, and its required result.
#[derive(Clone, Copy)]
enum Deed {
    // Delivers the pair to a shard, with this result.
    Once(Result<Delivery, Refused>),
    // Delivers nothing. The shard has the indexes from the first of these up to the second.
    HasRange(u64, u64),
    // Delivers the pair by a call while another thread holds the lock of shard 0, reads this counter of an index, and waits for
    // the result. This many pairs are new.
    Meanwhile(Call, u64, Option<u32>, u64),
}

// A deed with its shard, and the amounts of the first two shards after it.
type Step = (Deed, usize, (u64, u64));

// A note and a parent, with the place of the note's position among the parent's children.
type Pair<'a, G> = (&'a Note<G>, u64, Option<u32>);

/// Two threads' marks: the counter is read, and the result of the delivery came.
#[derive(Drop)]
pub(crate) struct Marks {
    pub read: Mutex<bool>,
    pub answered: Mutex<bool>,
}

/// Waits for the other thread's mark, for at most a million turns. Returns whether it came.
pub(crate) fn comes<R: Wait>(rt: &R, mark: &Mutex<bool>) -> bool {
    for _ in 0..1_000_000 {
        if *mark.lock(rt) {
            return true;
        }
    }
    false
}

// Holds the lock of shard 0, reads a counter, sets its mark, and waits until the other thread has its result. Returns the counter,
// if the shard has the index, and whether the result came.
fn hold<
    G: Game,
    A: ShardLedger + Send + Sync,
    B: ShardLedger + Send + Sync,
    C: ShardLedger + Send + Sync,
    D: ShardLedger + Send + Sync,
    R: Wait,
>(rt: &R, board: &Board<G, A, B, C, D>, marks: &Marks, index: u64) -> (Option<u32>, bool) {
    let held = board.a().lock(rt);
    let shard = held.shard();
    let (lo, hi) = shard.range();
    let counter = if lo <= index && index < hi {
        Some(shard.counter(index))
    } else {
        None
    };
    *marks.read.lock(rt) = true;
    let came = comes(rt, &marks.answered);
    drop(held);
    (counter, came)
}

// Waits until the other thread has read its counter, delivers to a shard by a call, and then sets its mark. Returns the number of
// new pairs.
fn deliver_meanwhile<
    G: Game,
    A: ShardLedger + Send + Sync,
    B: ShardLedger + Send + Sync,
    C: ShardLedger + Send + Sync,
    D: ShardLedger + Send + Sync,
    R: Wait,
>(
    rt: &R,
    board: &Board<G, A, B, C, D>,
    shares: &mut Shares<A, B, C, D>,
    marks: &Marks,
    call: Call,
    shard: usize,
    pair: Pair<G>,
) -> u64
    requires shard { shard < 4 }
    requires place { IsPlaceOf G.rules pair.0.now.position A.spot.tier pair.1 pair.2 }
{
    let _read = comes(rt, &marks.read);
    let (note, parent, place) = pair;
    let new = match call {
        Call::Deliver => gained(&board.deliver(rt, shard, note, parent, shares)),
        Call::DeliverAt => gained(&board.deliver_at(rt, shard, note, parent, place, shares)),
    };
    *marks.answered.lock(rt) = true;
    new
}

// Takes these steps, each with the same pair.
fn take_steps<
    G: Shared,
    A: ShardLedger + Send + Sync,
    B: ShardLedger + Send + Sync,
    C: ShardLedger + Send + Sync,
    D: ShardLedger + Send + Sync,
    R: Runtime,
>(
    rt: &R,
    board: &Board<G, A, B, C, D>,
    shares: &mut Shares<A, B, C, D>,
    pair: Pair<G>,
    steps: &[Step],
)
    requires { IsPlaceOf G.rules pair.0.now.position A.spot.tier pair.1 pair.2 }
{
    for (deed, shard, amounts) in steps {
        assert!(rt; *shard < 4);
        let (note, parent, _) = pair;
        match *deed {
            Deed::Once(answer) => {
                expect_eq(rt, board.deliver(rt, *shard, note, parent, shares), answer);
            }
            Deed::HasRange(lo, hi) => expect_eq(rt, board.range(*shard), (lo, hi)),
            Deed::Meanwhile(call, index, counter, new) => {
                let found = run_both(rt, board, shares, index, call, *shard, pair);
                expect_eq(rt, found, ((counter, true), new));
            }
        }
        expect_eq(rt, (shares.amount(0), shares.amount(1)), *amounts);
    }
}

// Runs the two threads, and waits for them.
fn run_both<
    G: Shared,
    A: ShardLedger + Send + Sync,
    B: ShardLedger + Send + Sync,
    C: ShardLedger + Send + Sync,
    D: ShardLedger + Send + Sync,
    R: Runtime,
>(
    rt: &R,
    board: &Board<G, A, B, C, D>,
    shares: &mut Shares<A, B, C, D>,
    index: u64,
    call: Call,
    shard: usize,
    pair: Pair<G>,
) -> ((Option<u32>, bool), u64)
    requires shard { shard < 4 }
    requires place { IsPlaceOf G.rules pair.0.now.position A.spot.tier pair.1 pair.2 }
{
    let marks = Marks {
        read: Mutex::new(false),
        answered: Mutex::new(false),
    };
    join(
        rt,
        || hold(rt, board, &marks, index),
        || -> u64
            requires { (shard < 4) × IsPlaceOf G.rules pair.0.now.position A.spot.tier pair.1 pair.2 }
        { deliver_meanwhile(rt, board, shares, &marks, call, shard, pair) },
    )
}

// Takes the steps on a board of these names, and checks the numbers of pairs in the first two shards after them.
fn named<
    G: Shared,
    A: ShardLedger + Send + Sync,
    B: ShardLedger + Send + Sync,
    C: ShardLedger + Send + Sync,
    D: ShardLedger + Send + Sync,
    R: Runtime,
>(
    rt: &R,
    blanks: Four<Blank>,
    shards: Four<Shard<G>>,
    note: &Note<G>,
    parent: u64,
    steps: &[Step],
    delivered: (u64, u64),
)
    requires names { (blanks.a.name ≡ A.name) × (blanks.b.name ≡ B.name) × (blanks.c.name ≡ C.name) × (blanks.d.name ≡ D.name) }
    requires parts { (blanks.a.parts ≡ A.parts) × (blanks.b.parts ≡ B.parts) × (blanks.c.parts ≡ C.parts) × (blanks.d.parts ≡ D.parts) }
    requires equal { (A.parts ≡ 1) × (B.parts ≡ 1) × (C.parts ≡ 1) × (D.parts ≡ 1) }
    requires spots { (spot_of shards.a ≡ A.spot) × (spot_of shards.b ≡ B.spot) × (spot_of shards.c ≡ C.spot) × (spot_of shards.d ≡ D.spot) }
    requires tiles { AreFourTiles G.rules A.spot B.spot C.spot D.spot }
{
    let place = place_of(note, shards.a.tier(), parent);
    let (board, mut shares) = Board::<G, A, B, C, D>::around(1, blanks, shards);
    take_steps(rt, &board, &mut shares, (note, parent, place), steps);
    assert!(rt; shares.parts() == 1);
    let shards = board.into_shards(shares);
    expect_eq(rt, (shards.a.delivered(), shards.b.delivered()), delivered);
    drop(shards);
}

// Takes these steps with the note of index 0 and a parent, on a board round tier 0 that is split at this index, and two shards
// without positions.
fn split_at<G: Shared, R: Runtime>(
    rt: &R,
    at: u64,
    parent: u64,
    steps: &[Step],
    delivered: (u64, u64),
) {
    let (alloc, size) = (rt.alloc(), G::tier_size(0));
    assert!(rt; at <= size && size <= TIER_SIZE);
    let shards: Four<Shard<G>> = Four {
        a: must(rt, begin_range(alloc, 0, 0, at)),
        b: must(rt, begin_range(alloc, 0, at, size)),
        c: must(rt, begin_range(alloc, 0, size, size)),
        d: must(rt, begin_range(alloc, 0, size, size)),
    };
    let blanks = Four {
        a: Blank::new(1),
        b: Blank::new(1),
        c: Blank::new(1),
        d: Blank::new(1),
    };
    let note = first_note(rt, &shards.a);
    named::<G, Brand, Brand, Brand, Brand, R>(rt, blanks, shards, &note, parent, steps, delivered);
}

const ONE_BY_ONE: [Step; 3] = [
    (Deed::Once(Ok(Delivery::FreshSettled)), 0, (1, 0)),
    (Deed::Once(Ok(Delivery::Repeat)), 0, (1, 0)),
    (Deed::Once(Err(Refused::NotMine)), 1, (1, 0)),
];

#[test]
fn board_by_hand(rt: HostRuntime) {
    split_at::<Countdown<10>, _>(&rt, 6, 1, &ONE_BY_ONE, (1, 0));
}

// The ways to cut a tier of one position into four ranges.
const CUTS: [[u64; 5]; 4] = [
    [0, 0, 0, 0, 1],
    [0, 0, 0, 1, 1],
    [0, 0, 1, 1, 1],
    [0, 1, 1, 1, 1],
];

// Counts the shards between these cuts that have nothing at the first level.
fn empty_between<G: Shared, R: Runtime>(rt: &R, cuts: &[u64; 5]) -> usize {
    let (size, mut empty) = (G::tier_size(0), 0usize);
    for (lo, hi) in cuts.iter().zip(&cuts[1..]) {
        assert!(rt; lo <= hi && *hi <= size && size <= TIER_SIZE);
        let shard = must(rt, begin_range::<G>(rt.alloc(), 0, *lo, *hi));
        let run = must(rt, shard.fresh(rt.alloc()));
        empty = empty.saturating_add(usize::from(run.list().is_empty()));
        drop((shard, run));
    }
    empty
}

// The shards of a tier of one position.
const EMPTY: [Step; 5] = [
    (Deed::HasRange(0, 1), 0, (0, 0)),
    (Deed::HasRange(1, 1), 1, (0, 0)),
    (Deed::HasRange(1, 1), 2, (0, 0)),
    (Deed::HasRange(1, 1), 3, (0, 0)),
    (Deed::Once(Err(Refused::NotMine)), 1, (0, 0)),
];

#[test]
fn three_of_four_shards_are_empty(rt: HostRuntime) {
    for cuts in &CUTS {
        expect_eq(&rt, empty_between::<Countdown<0>, _>(&rt, cuts), 3);
    }
    split_at::<Countdown<0>, _>(&rt, 1, 0, &EMPTY, (0, 0));
}

// Checks that shards have locks of their own. Index 1 has one move, to 0.
#[test]
fn locks_are_separate(rt: HostRuntime) {
    for call in [Call::Deliver, Call::DeliverAt] {
        let meanwhile = [(Deed::Meanwhile(call, 1, Some(1), 1), 1, (0, 1))];
        split_at::<Countdown<10>, _>(&rt, 2, 2, &meanwhile, (0, 1));
    }
}
