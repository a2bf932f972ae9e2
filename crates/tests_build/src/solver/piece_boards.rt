//! The board on which the program's workers deliver: its locks are separate, and what lies behind them can be read.
ghost use Rattle.std.specs.Prelude.{◌≡◌, ℕ, ◌<◌, ◌≤◌, length, IfOk};
ghost use Rattle.std.specs.Int.{div_ceil};
ghost use Rattle.gm_counters.specs.State.{pairs_in};
ghost use Rattle.gm_locks.specs.Spots.{spot_of};
ghost use Rattle.gm_locks.specs.Pieces.{piece_pairs, IsReadyFor};
ghost use Rattle.gm_backward.specs.inner.Tiling.{AreShardsAt, HaveNoneHere};

use crate::expect::{Runtime, expect, expect_eq, must};
use crate::solver::boards::{Marks, comes};
use gm_backward::context::SolveContext;
use gm_backward::cuts::Cuts;
use gm_backward::levels::{fresh, next_level};
use gm_counters::ordered::OrderedShard;
use gm_frontier::level::Level;
use gm_frontier::pair_list::PairList;
use gm_frontier::pairs::Pairs;
use gm_game::game::Game;
use gm_game::limits::TIER_SIZE;
use gm_locks::four::Four;
use gm_locks::piece::{PieceLedger, Pieced};
use gm_locks::pieces::PieceBoard;
use gm_locks::shares::Shares;
use gm_solver::gate::NoGate;
use gm_solver::observer::NoObserver;
use gm_solver::plan::Plan;
use gm_solver::source::Counter;
use gm_table::tables::Tables;
use gm_testing::hosts::Shared;
use gm_toys::countdown::Countdown;
use std::alloc::{AllocError, Global};
use std::marker::Brand;
use std::sync::ledger::Blank;
use std::sync::{Mutex, Wait};
use std::thread::join;

// Holds the lock of shard 1, reads the counter of the shard's first index, sets its mark, and waits until the other thread has
// delivered. Returns the counter, if the shard has an index, and whether the other mark came.
fn hold<
    G: Game,
    A: PieceLedger + Send + Sync,
    B: PieceLedger + Send + Sync,
    C: PieceLedger + Send + Sync,
    D: PieceLedger + Send + Sync,
    R: Wait,
>(rt: &R, board: &PieceBoard<G, A, B, C, D>, marks: &Marks) -> (Option<u32>, bool) {
    let pieced = board.b().lock(rt);
    let shard = pieced.shard();
    let (lo, hi) = shard.range();
    let counter = if lo < hi {
        Some(shard.counter(lo))
    } else {
        None
    };
    *marks.read.lock(rt) = true;
    let came = comes(rt, &marks.answered);
    drop(pieced);
    (counter, came)
}

// Waits until the other thread has read its counter, delivers a piece's pairs to shard 0, and then sets its mark. Returns whether
// none was refused.
fn deliver_meanwhile<
    G: Game,
    A: PieceLedger + Send + Sync,
    B: PieceLedger + Send + Sync,
    C: PieceLedger + Send + Sync,
    D: PieceLedger + Send + Sync,
    R: Wait,
>(
    rt: &R,
    board: &PieceBoard<G, A, B, C, D>,
    shares: &mut Shares<A, B, C, D>,
    marks: &Marks,
    pairs: &PairList<G>,
) -> bool
    requires piece { 0 < div_ceil (length A.notes) A.size }
    requires pairs { pairs.now ≡ piece_pairs G.rules A.spot A.notes A.size 0 }
{
    let _read = comes(rt, &marks.read);
    let answer = board.deliver(rt, 0, 0, pairs, pairs.len(), shares);
    *marks.answered.lock(rt) = true;
    answer.is_ok()
}

// Runs the two threads, and waits for them.
fn run_both<
    G: Shared,
    A: PieceLedger + Send + Sync,
    B: PieceLedger + Send + Sync,
    C: PieceLedger + Send + Sync,
    D: PieceLedger + Send + Sync,
    R: Runtime,
>(
    rt: &R,
    board: &PieceBoard<G, A, B, C, D>,
    shares: &mut Shares<A, B, C, D>,
    pairs: &PairList<G>,
) -> ((Option<u32>, bool), bool)
    requires piece { 0 < div_ceil (length A.notes) A.size }
    requires pairs { pairs.now ≡ piece_pairs G.rules A.spot A.notes A.size 0 }
{
    let marks = Marks {
        read: Mutex::new(false),
        answered: Mutex::new(false),
    };
    join(
        rt,
        || hold(rt, board, &marks),
        || -> bool
            requires { (0 < div_ceil (length A.notes) A.size) × (pairs.now ≡ piece_pairs G.rules A.spot A.notes A.size 0) }
        { deliver_meanwhile(rt, board, shares, &marks, pairs) },
    )
}

// Collects the pairs into a list.
fn list_of<G: Game>(alloc: Global, pairs: Pairs<G>) -> Result<PairList<G>, AllocError>
    ensures { IfOk result (λ list. list ≡ pairs.entry) }
{
    let mut list = PairList::new(alloc);
    for (note, parent) in pairs {
        list.push(&note, parent)?;
    }
    Ok(list)
}

// Delivers the first piece of a level to shard 0 of a board of these names while another thread holds the lock of shard 1, whose
// first index has this counter. This many pairs are new.
fn named<
    G: Shared,
    A: PieceLedger + Send + Sync,
    B: PieceLedger + Send + Sync,
    C: PieceLedger + Send + Sync,
    D: PieceLedger + Send + Sync,
    R: Runtime,
>(
    rt: &R,
    blanks: Four<Blank>,
    shards: Four<OrderedShard<G>>,
    level: &Level<G>,
    size: usize,
    counter: u32,
    new: u64,
)
    requires names { (blanks.a.name ≡ A.name) × (blanks.b.name ≡ B.name) × (blanks.c.name ≡ C.name) × (blanks.d.name ≡ D.name) }
    requires parts { (blanks.a.parts ≡ A.parts) × (blanks.b.parts ≡ B.parts) × (blanks.c.parts ≡ C.parts) × (blanks.d.parts ≡ D.parts) }
    requires equal { (A.parts ≡ 1) × (B.parts ≡ 1) × (C.parts ≡ 1) × (D.parts ≡ 1) }
    requires some { 0 < size }
    requires sizes { (A.size ≡ size) × (B.size ≡ size) × (C.size ≡ size) × (D.size ≡ size) }
    requires a { IsReadyFor G.rules shards.a level.now A.spot A.notes A.base }
    requires b { IsReadyFor G.rules shards.b level.now B.spot B.notes B.base }
    requires c { IsReadyFor G.rules shards.c level.now C.spot C.notes C.base }
    requires d { IsReadyFor G.rules shards.d level.now D.spot D.notes D.base }
{
    let alloc = rt.alloc();
    expect(rt, level.pieces(size) > 0);
    let (lo, hi) = shards.a.range();
    let pairs = must(rt, list_of(alloc, level.pairs(0, size, lo, hi)));
    let (one, a) = must(
        rt,
        Pieced::<G, A>::around(alloc, blanks.a, shards.a, level, size),
    );
    let (two, b) = must(
        rt,
        Pieced::<G, B>::around(alloc, blanks.b, shards.b, level, size),
    );
    let (three, c) = must(
        rt,
        Pieced::<G, C>::around(alloc, blanks.c, shards.c, level, size),
    );
    let (four, d) = must(
        rt,
        Pieced::<G, D>::around(alloc, blanks.d, shards.d, level, size),
    );
    let mut shares = Shares {
        parts: 1,
        a,
        b,
        c,
        d,
    };
    let one = Mutex::new(one);
    let two = Mutex::new(two);
    let three = Mutex::new(three);
    let four = Mutex::new(four);
    let board = PieceBoard::of(&one, &two, &three, &four);
    let found = run_both(rt, &board, &mut shares, &pairs);
    expect_eq(rt, found, ((Some(counter), true), true));
    expect_eq(rt, (shares.amount(0), shares.amount(1)), (new, 0));
    drop(shares);
    drop(pairs);
}

// Does so with names that are picked here.
fn on_brands<G: Shared, R: Runtime>(
    rt: &R,
    cuts: Cuts,
    shards: Four<OrderedShard<G>>,
    level: &Level<G>,
    counter: u32,
    new: u64,
)
    requires here { AreShardsAt G.rules level.now.place cuts shards }
    requires none { HaveNoneHere G.rules shards }
{
    let blanks = Four {
        a: Blank::new(1),
        b: Blank::new(1),
        c: Blank::new(1),
        d: Blank::new(1),
    };
    let size = 1;
    named::<G, Brand, Brand, Brand, Brand, R>(rt, blanks, shards, level, size, counter, new);
}

// Does so with the first level of tier 0, which is cut into two tiles.
fn at_first_level<G: Shared, R: Runtime>(rt: &R, counter: u32, new: u64) {
    let alloc = rt.alloc();
    let tables: Tables<G> = Tables::new(alloc);
    assert!(rt; G::tier_size(0) <= TIER_SIZE);
    assert!(rt; tables.has_children(0));
    let context = SolveContext {
        rt,
        alloc,
        plan: Plan::new(1, 2, 1).expect(rt, "a plan"),
        gate: &NoGate,
        source: &Counter::new(),
        observer: &NoObserver,
    };
    let tiles = must(rt, context.begin::<G>(0));
    let runs = must(rt, fresh(alloc, &tiles));
    let Ok(level) = next_level(alloc, &tables, &tiles, &runs) else {
        panic!(rt; "a call failed");
    };
    let (shards, cuts) = tiles.into_parts();
    on_brands(rt, cuts, shards, &level, counter, new);
    drop(level);
    drop((runs, tables));
}

// Checks that the shards of the program's board have locks of their own. Of Countdown's 11 indexes shard 0 has 0 to 5; index 6 has
// two children, and index 0 two parents.
#[test]
fn piece_locks_are_separate(rt: HostRuntime) {
    at_first_level::<Countdown<10>, _>(&rt, 2, 2);
}
