//! The workers of one level.
ghost use Rattle.std.specs.Prelude.{◌≡◌, ℕ, ◌+◌, ◌-◌, ◌^◌, ◌<◌, length, min, OnOk, IfOk, vec_len};
ghost use Rattle.std.specs.Int.{div_ceil};
ghost use Rattle.gm_locks.specs.Spots.{for_shard};
ghost use Rattle.gm_locks.specs.Amounts.{total_of};
ghost use Rattle.gm_locks.specs.Pieces.{piece_pairs};
ghost use Rattle.gm_backward.specs.inner.Tiling.{tile_at};

use crate::context::SolveContext;
use crate::gate::Gate;
use crate::level_job::LevelJob;
use crate::pieces::{PairLists, empty_lists, split};
use crate::source::Source;
use gm_frontier::pair_list::PairList;
use gm_game::game::Game;
use gm_immediate::observer::Observer;
use gm_locks::piece::PieceLedger;
use gm_locks::pieces::PieceBoard;
use gm_locks::share::ShardLedger;
use gm_locks::shares::Shares;
use std::alloc::{AllocError, Global};
use std::sync::{Mutex, Wait};
use std::thread;
use std::thread::Threads;

// One part of each share, for one worker.
#[derive(Drop)]
struct WorkerSlot<A: ShardLedger, B: ShardLedger, C: ShardLedger, D: ShardLedger> {
    shares: Shares<A, B, C, D>,
    ghost one_part: { shares.parts ≡ 1 },
}

// Makes a slot for each worker, with one part of each share.
fn slots_of<A: ShardLedger, B: ShardLedger, C: ShardLedger, D: ShardLedger>(
    alloc: Global,
    workers: usize,
    rest: &mut Shares<A, B, C, D>,
) -> Result<Vec<Mutex<WorkerSlot<A, B, C, D>>>, AllocError>
    requires { workers < rest.old.parts }
    ensures parts { IfOk result (λ slots. rest.new.parts + vec_len slots ≡ rest.old.parts) }
    ensures each { IfOk result (λ slots. vec_len slots ≡ workers) }
{
    let mut slots = Vec::new(alloc);
    for _ in 0..workers {
        let slot = WorkerSlot {
            shares: rest.split(),
        };
        slots.push(Mutex::new(slot))?;
    }
    Ok(slots)
}

// The workers of a level: what they work with and on, and a slot for each of them.
#[derive(Drop)]
struct Crew<
    'a,
    'b,
    'c,
    'd,
    G: Game,
    A: PieceLedger,
    B: PieceLedger,
    C: PieceLedger,
    D: PieceLedger,
    R: Threads + Wait + Sync,
    T: Gate,
    S: Source,
    O: Observer,
> {
    context: &'a SolveContext<'c, R, T, S, O>,
    board: &'a PieceBoard<'d, G, A, B, C, D>,
    job: &'a LevelJob<'b, G>,
    slots: &'a [Mutex<WorkerSlot<A, B, C, D>>],
    ghost tiles_are: { (k : ℕ) → k < 4 → for_shard k A.spot B.spot C.spot D.spot ≡ tile_at G.rules job.now.level.now.place job.now.cuts k },
    ghost notes_are: { A.notes ≡ job.now.level.now.notes },
    ghost size_is: { A.size ≡ job.now.notes },
}

impl<
    'a,
    'b,
    'c,
    'd,
    G: Game,
    A: PieceLedger,
    B: PieceLedger,
    C: PieceLedger,
    D: PieceLedger,
    R: Threads + Wait + Sync,
    T: Gate,
    S: Source,
    O: Observer,
> Crew<'a, 'b, 'c, 'd, G, A, B, C, D, R, T, S, O> {
    // Delivers the pairs of a piece to a shard. If the gate asks for it, each is delivered between its own two calls and under the lock, up to a pair that is
    // too far; otherwise all are delivered while the lock is held once. The gate is called while no lock is held.
    fn deliver(
        &self,
        worker: usize,
        shard: usize,
        piece: usize,
        pairs: &PairList<G>,
        shares: &mut Shares<A, B, C, D>,
    )
        requires shard { shard < 4 }
        requires piece { piece < div_ceil (length A.notes) A.size }
        requires pairs { pairs.now ≡ piece_pairs G.rules (for_shard shard A.spot B.spot C.spot D.spot) A.notes A.size piece }
        ensures { shares.new.parts ≡ shares.old.parts }
    {
        let place = self.job.level.place();
        let (rt, gate) = (self.context.rt, self.context.gate);
        if T::EACH && pairs.len() > 0 {
            for k in 0..pairs.len() {
                gate.before(rt, worker, place);
                let answer = self.board.deliver(rt, shard, piece, pairs, k + 1, shares);
                gate.after(rt, worker, place);
                if answer.is_err() {
                    return;
                }
            }
            return;
        }
        for _ in 0..pairs.len() {
            gate.before(rt, worker, place);
        }
        let _answer = self
            .board
            .deliver(rt, shard, piece, pairs, pairs.len(), shares);
        for _ in 0..pairs.len() {
            gate.after(rt, worker, place);
        }
    }

    // Walks a piece's pairs once, while no lock is held, and delivers them shard by shard. Each worker begins with another shard, so that they wait less for
    // one another's locks. A pair that is refused as too far is missing at the end of the level, and the coordinator finds it.
    fn walk(
        &self,
        worker: usize,
        piece: usize,
        lists: &mut PairLists<G>,
        shares: &mut Shares<A, B, C, D>,
    ) -> Result<(), AllocError>
        requires { piece < div_ceil (length A.notes) A.size }
        ensures { shares.new.parts ≡ shares.old.parts }
    {
        split(self.job, piece, lists)?;
        for turn in 0..4 {
            let shard = (worker % 4 + turn) % 4;
            self.deliver(worker, shard, piece, &lists[shard], shares);
        }
        Ok(())
    }

    // Does the work of one worker, over its slot: takes pieces of the level until there are no more for it, and delivers their pairs. It asks at most as many
    // times as there are pieces, and skips numbers that are no piece's. If memory is refused, a piece is not delivered, and the coordinator walks it.
    fn serve(&self, worker: usize) {
        let Some(slot) = self.slots.get(worker) else {
            return;
        };
        let context = self.context;
        let mut slot = slot.lock(context.rt);
        let count = self.job.level.pieces(self.job.notes);
        let mut lists = empty_lists::<G>(context.alloc);
        for _ in 0..count {
            let Some(piece) = context.source.next(context.rt, worker) else {
                return;
            };
            if piece < count {
                let _walked = self.walk(worker, piece, &mut lists, &mut slot.shares);
            }
        }
    }
}

// Takes back the workers' parts of the shares.
fn take_back<A: ShardLedger, B: ShardLedger, C: ShardLedger, D: ShardLedger>(
    slots: Vec<Mutex<WorkerSlot<A, B, C, D>>>,
    rest: &mut Shares<A, B, C, D>,
)
    ensures { rest.new.parts ≡ rest.old.parts + vec_len slots }
{
    let mut slots = slots;
    while let Some(slot) = slots.pop() {
        let WorkerSlot { shares } = slot.into_inner();
        rest.join(shares);
    }
}

// Returns the number of pairs that were delivered by these shares, or `u64::MAX` if there were more.
fn sum_of<A: ShardLedger, B: ShardLedger, C: ShardLedger, D: ShardLedger>(
    shares: &Shares<A, B, C, D>,
) -> u64
    ensures { result ≡ min (total_of shares.now) (2 ^ 64 - 1) }
{
    shares
        .amount(0)
        .saturating_add(shares.amount(1))
        .saturating_add(shares.amount(2))
        .saturating_add(shares.amount(3))
}

/// Runs the workers of a level and waits for all: the first in this thread, every other in a thread of its own, so that one worker starts no thread. A worker that
/// can't be started does nothing. Then takes the workers' parts of the shares back. Returns the number of pairs that were delivered by the shares, or `u64::MAX`
/// if there were more.
pub(crate) fn run_crew<
    G: Game + Send + Sync,
    A: PieceLedger + Send,
    B: PieceLedger + Send,
    C: PieceLedger + Send,
    D: PieceLedger + Send,
    R: Threads + Wait + Sync,
    T: Gate,
    S: Source,
    O: Observer,
>(
    context: &SolveContext<R, T, S, O>,
    board: &PieceBoard<G, A, B, C, D>,
    job: &LevelJob<G>,
    workers: usize,
    rest: &mut Shares<A, B, C, D>,
) -> Result<u64, AllocError>
    requires tiles { (k : ℕ) → k < 4 → for_shard k A.spot B.spot C.spot D.spot ≡ tile_at G.rules job.now.level.now.place job.now.cuts k }
    requires notes { A.notes ≡ job.now.level.now.notes }
    requires size { A.size ≡ job.now.notes }
    requires workers { workers < rest.old.parts }
    ensures parts { OnOk result (rest.new.parts ≡ rest.old.parts) }
    ensures number { IfOk result (λ number. number ≡ min (total_of rest.new) (2 ^ 64 - 1)) }
{
    let slots = slots_of::<A, B, C, D>(context.alloc, workers, rest)?;
    let crew = &Crew {
        context,
        board,
        job,
        slots: slots.as_slice(),
    };
    if workers <= 1 {
        crew.serve(0);
    } else {
        thread::scope(thread::scope_env(), context.rt, |scope| {
            for worker in 1..workers {
                let _started = scope.spawn(move || crew.serve(worker));
            }
            crew.serve(0);
        });
    }
    take_back(slots, rest);
    Ok(sum_of(rest))
}
