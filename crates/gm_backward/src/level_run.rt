//! One level by workers: they deliver, and then the coordinator delivers the missing pairs.
ghost use Rattle.std.specs.Prelude.{◌≡◌, ℕ, ◌+◌, ◌<◌, ◌≤◌, true, false, length, slice_index_or, IfOk, IfErr, OnOk};
ghost use Rattle.std.specs.Int.{div_ceil};
ghost use Rattle.gm_counters.specs.Steps.{place_of};
ghost use Rattle.gm_locks.specs.Rounds.{IsLevelAt};
ghost use Rattle.gm_locks.specs.Pieces.{IsReadyFor};
ghost use Rattle.gm_backward.specs.Solving.{IsError};
ghost use Rattle.gm_backward.specs.inner.Tiling.{AreShardsAt, HaveNoneHere, tile_at, next_place};

use crate::context::SolveContext;
use crate::crew::run_crew;
use crate::error::SolveError;
use crate::gate::Gate;
use crate::level_job::LevelJob;
use crate::source::Source;
use crate::tiles::{Tiles, close_all};
use gm_counters::ordered::OrderedShard;
use gm_frontier::pair_list::PairList;
use gm_frontier::pairs::Pairs;
use gm_game::game::Game;
use gm_game::limits::REMOTENESS;
use gm_immediate::observer::Observer;
use gm_locks::four::Four;
use gm_locks::piece::{PieceLedger, Pieced};
use gm_locks::pieces::PieceBoard;
use gm_locks::share::Share;
use gm_locks::shares::Shares;
use std::alloc::{AllocError, Global};
use std::marker::Brand;
use std::sync::ledger::Blank;
use std::sync::{Mutex, Wait};
use std::thread::Threads;

// Collects the pairs into a list.
fn list_of<G: Game>(alloc: Global, pairs: Pairs<G>) -> Result<PairList<G>, AllocError>
    ensures { IfOk result (λ list. list ≡ pairs.entry) }
{
    let mut list = PairList::new(alloc);
    for (note, parent) in pairs {
        list.push(&note, parent)?;
    }
    Ok(list)
}

// Delivers the pairs of a piece that are missing in a shard.
fn deliver_by_hand<G: Game, L: PieceLedger>(
    alloc: Global,
    job: &LevelJob<G>,
    piece: usize,
    pieced: &mut Pieced<G, L>,
    share: &mut Share<L>,
) -> Result<(), SolveError>
    requires level { IsLevelAt job.now.level.now L.spot L.notes }
    requires size { L.size ≡ job.now.notes }
    requires piece { piece < div_ceil (length L.notes) L.size }
    requires near { L.spot.level ≤ REMOTENESS }
    requires parts { 0 < share.old.parts }
    ensures here { OnOk result (slice_index_or pieced.new.whole piece false ≡ true) }
    ensures others { OnOk result ((p : ℕ) → slice_index_or pieced.old.whole p false ≡ true → slice_index_or pieced.new.whole p false ≡ true) }
    ensures parts { share.new.parts ≡ share.old.parts }
    ensures error { IfErr result (IsError G.rules L.spot.tier) }
{
    let tier = job.level.tier();
    let (lo, hi) = pieced.range();
    let list = list_of(alloc, job.level.pairs(piece, job.notes, lo, hi))?;
    match pieced.deliver_rest(piece, &list, share) {
        Ok(()) => Ok(()),
        Err(_refused) => Err(SolveError::TooFar { tier }),
    }
}

// Delivers the missing pairs to a shard, piece by piece.
fn deliver_missing<G: Game, L: PieceLedger>(
    alloc: Global,
    job: &LevelJob<G>,
    pieced: &mut Pieced<G, L>,
    share: &mut Share<L>,
) -> Result<(), SolveError>
    requires level { IsLevelAt job.now.level.now L.spot L.notes }
    requires size { L.size ≡ job.now.notes }
    requires near { L.spot.level ≤ REMOTENESS }
    requires parts { 0 < share.old.parts }
    ensures whole { OnOk result ((p : ℕ) → p < div_ceil (length L.notes) L.size → slice_index_or pieced.new.whole p false ≡ true) }
    ensures parts { share.new.parts ≡ share.old.parts }
    ensures error { IfErr result (IsError G.rules L.spot.tier) }
{
    for piece in 0..job.level.pieces(job.notes) {
        if pieced.is_whole(piece) {
            continue;
        }
        deliver_by_hand(alloc, job, piece, pieced, share)?;
    }
    Ok(())
}

// Delivers the missing pairs to the four shards, and closes the level.
fn finish_tiles<G: Game, A: PieceLedger, B: PieceLedger, C: PieceLedger, D: PieceLedger>(
    alloc: Global,
    job: &LevelJob<G>,
    mut a: Pieced<G, A>,
    mut b: Pieced<G, B>,
    mut c: Pieced<G, C>,
    mut d: Pieced<G, D>,
    shares: Shares<A, B, C, D>,
) -> Result<Tiles<G>, SolveError>
    requires a { IsLevelAt job.now.level.now A.spot A.notes × (A.size ≡ job.now.notes) × (A.spot ≡ tile_at G.rules job.now.level.now.place job.now.cuts 0) }
    requires b { IsLevelAt job.now.level.now B.spot B.notes × (B.size ≡ job.now.notes) × (B.spot ≡ tile_at G.rules job.now.level.now.place job.now.cuts 1) }
    requires c { IsLevelAt job.now.level.now C.spot C.notes × (C.size ≡ job.now.notes) × (C.spot ≡ tile_at G.rules job.now.level.now.place job.now.cuts 2) }
    requires d { IsLevelAt job.now.level.now D.spot D.notes × (D.size ≡ job.now.notes) × (D.spot ≡ tile_at G.rules job.now.level.now.place job.now.cuts 3) }
    requires parts { shares.parts ≡ A.parts }
    requires near { job.now.level.now.place.level ≤ REMOTENESS }
    ensures next { IfOk result (λ next. place_of next.shards.a ≡ next_place job.now.level.now.place) }
    ensures error { IfErr result (IsError G.rules job.now.level.now.place.tier) }
{
    let Shares {
        a: mut in_a,
        b: mut in_b,
        c: mut in_c,
        d: mut in_d,
        ..
    } = shares;
    deliver_missing(alloc, job, &mut a, &mut in_a)?;
    deliver_missing(alloc, job, &mut b, &mut in_b)?;
    deliver_missing(alloc, job, &mut c, &mut in_c)?;
    deliver_missing(alloc, job, &mut d, &mut in_d)?;
    let shards = Four {
        a: a.into_whole(in_a),
        b: b.into_whole(in_b),
        c: c.into_whole(in_c),
        d: d.into_whole(in_d),
    };
    let cuts = job.cuts;
    let shards = close_all(job.level, cuts, shards);
    Ok(Tiles { shards, cuts })
}

// Runs a level under locks with these ledgers' names.
fn run_under_locks<
    G: Game + Send + Sync,
    A: PieceLedger + Send,
    B: PieceLedger + Send,
    C: PieceLedger + Send,
    D: PieceLedger + Send,
    R: Threads + Wait + Sync,
    T: Gate,
    S: Source,
    O: Observer,
>(
    context: &SolveContext<R, T, S, O>,
    job: &LevelJob<G>,
    workers: usize,
    blanks: Four<Blank>,
    shards: Four<OrderedShard<G>>,
    by_workers: &mut u64,
) -> Result<Tiles<G>, SolveError>
    requires few { workers ≤ 16 }
    requires names { (blanks.a.name ≡ A.name) × (blanks.b.name ≡ B.name) × (blanks.c.name ≡ C.name) × (blanks.d.name ≡ D.name) }
    requires parts { (blanks.a.parts ≡ A.parts) × (blanks.b.parts ≡ B.parts) × (blanks.c.parts ≡ C.parts) × (blanks.d.parts ≡ D.parts) }
    requires equal { (A.parts ≡ workers + 1) × (B.parts ≡ workers + 1) × (C.parts ≡ workers + 1) × (D.parts ≡ workers + 1) }
    requires sizes { (A.size ≡ job.now.notes) × (B.size ≡ job.now.notes) × (C.size ≡ job.now.notes) × (D.size ≡ job.now.notes) }
    requires notes { (A.notes ≡ job.now.level.now.notes) × (B.notes ≡ job.now.level.now.notes)
        × (C.notes ≡ job.now.level.now.notes) × (D.notes ≡ job.now.level.now.notes) }
    requires a { IsReadyFor G.rules shards.a job.now.level.now A.spot A.notes A.base }
    requires b { IsReadyFor G.rules shards.b job.now.level.now B.spot B.notes B.base }
    requires c { IsReadyFor G.rules shards.c job.now.level.now C.spot C.notes C.base }
    requires d { IsReadyFor G.rules shards.d job.now.level.now D.spot D.notes D.base }
    requires here { AreShardsAt G.rules job.now.level.now.place job.now.cuts shards }
    requires near { job.now.level.now.place.level ≤ REMOTENESS }
    ensures next { IfOk result (λ next. place_of next.shards.a ≡ next_place job.now.level.now.place) }
    ensures error { IfErr result (IsError G.rules job.now.level.now.place.tier) }
{
    let alloc = context.alloc;
    let parts = workers as u64 + 1;
    let LevelJob { level, notes, .. } = *job;
    let (one, a) = Pieced::<G, A>::around(alloc, blanks.a, shards.a, level, notes)?;
    let (two, b) = Pieced::<G, B>::around(alloc, blanks.b, shards.b, level, notes)?;
    let (three, c) = Pieced::<G, C>::around(alloc, blanks.c, shards.c, level, notes)?;
    let (four, d) = Pieced::<G, D>::around(alloc, blanks.d, shards.d, level, notes)?;
    let mut rest = Shares { parts, a, b, c, d };
    let one = Mutex::new(one);
    let two = Mutex::new(two);
    let three = Mutex::new(three);
    let four = Mutex::new(four);
    let board = PieceBoard::of(&one, &two, &three, &four);
    let more = run_crew(context, &board, job, workers, &mut rest)?;
    *by_workers = by_workers.saturating_add(more);
    finish_tiles(
        alloc,
        job,
        one.into_inner(),
        two.into_inner(),
        three.into_inner(),
        four.into_inner(),
        rest,
    )
}

/// Runs a level, and closes it: workers walk its pieces, and the coordinator delivers the rest. Adds the number of the workers' deliveries to the one that is
/// given.
pub(crate) fn run_pieces<
    G: Game + Send + Sync,
    R: Threads + Wait + Sync,
    T: Gate,
    S: Source,
    O: Observer,
>(
    context: &SolveContext<R, T, S, O>,
    job: &LevelJob<G>,
    shards: Four<OrderedShard<G>>,
    by_workers: &mut u64,
) -> Result<Tiles<G>, SolveError>
    requires here { AreShardsAt G.rules job.now.level.now.place job.now.cuts shards }
    requires none { HaveNoneHere G.rules shards }
    requires near { job.now.level.now.place.level ≤ REMOTENESS }
    ensures next { IfOk result (λ next. place_of next.shards.a ≡ next_place job.now.level.now.place) }
    ensures error { IfErr result (IsError G.rules job.now.level.now.place.tier) }
{
    let count = job.level.pieces(job.notes);
    context.source.begin(context.rt, count);
    let workers = context.plan.workers().min(count);
    let parts = workers as u64 + 1;
    let blanks = Four {
        a: Blank::new(parts),
        b: Blank::new(parts),
        c: Blank::new(parts),
        d: Blank::new(parts),
    };
    run_under_locks::<G, Brand, Brand, Brand, Brand, R, T, S, O>(
        context, job, workers, blanks, shards, by_workers,
    )
}
