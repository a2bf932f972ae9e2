//! How a tier is shared among workers.
ghost use Rattle.std.specs.Prelude.{◌≡◌, ◌<◌, ◌≤◌, ◌↔◌, true, false, IsSome, IfSome};
ghost use Rattle.gm_backward.specs.inner.Plans.{ArePlanNumbers};

/// The most workers of a plan.
pub const WORKERS: usize = 16;

/// The most shards of a plan.
pub const SHARDS: usize = 4;

/// The most notes of a piece.
pub const PIECE: usize = 4096;

/// A tier of at most this many indexes is solved level by level by one worker, in the calling thread: starting threads would cost more than it saves.
const FEW_FOR_LEVELS: u64 = 512;

/// The number of workers that solve a tier, of shards into which it is split, and of notes in a piece of a level; and whether one pass is tried first.
#[derive(Clone, Copy, Debug, PartialEq, Eq)]
pub struct Plan {
    workers: usize,
    shards: usize,
    piece: usize,
    fastest: bool,
    ghost within: { ArePlanNumbers workers shards piece },
}

impl Plan {
    /// Returns the plan of these numbers; `None` exactly outside the limits, which are 1 to `WORKERS`, 1 to `SHARDS` and 1 to `PIECE`. By this plan workers
    /// solve each tier (one, in the caller's thread, if it has at most 512 indexes), with the gate round each delivery and the source asked for each piece.
    pub fn new(workers: usize, shards: usize, piece: usize) -> Option<Self>
        ensures exact { IsSome result ↔ ArePlanNumbers workers shards piece }
        ensures workers { IfSome result (λ plan. plan.workers ≡ workers) }
        ensures shards { IfSome result (λ plan. plan.shards ≡ shards) }
        ensures piece { IfSome result (λ plan. plan.piece ≡ piece) }
        ensures fastest { IfSome result (λ plan. plan.fastest ≡ false) }
    {
        Plan::of(workers, shards, piece, false)
    }

    /// Returns the plan of these numbers by which a build is fastest; `None` exactly if `new` returns `None`. A tier that every move leaves is solved in one
    /// pass, any other by workers.
    pub fn fastest(workers: usize, shards: usize, piece: usize) -> Option<Self>
        ensures exact { IsSome result ↔ ArePlanNumbers workers shards piece }
        ensures workers { IfSome result (λ plan. plan.workers ≡ workers) }
        ensures shards { IfSome result (λ plan. plan.shards ≡ shards) }
        ensures piece { IfSome result (λ plan. plan.piece ≡ piece) }
        ensures fastest { IfSome result (λ plan. plan.fastest ≡ true) }
    {
        Plan::of(workers, shards, piece, true)
    }

    // Returns the plan of these numbers if they are within the limits.
    fn of(workers: usize, shards: usize, piece: usize, fastest: bool) -> Option<Self>
        ensures exact { IsSome result ↔ ArePlanNumbers workers shards piece }
        ensures workers { IfSome result (λ plan. plan.workers ≡ workers) }
        ensures shards { IfSome result (λ plan. plan.shards ≡ shards) }
        ensures piece { IfSome result (λ plan. plan.piece ≡ piece) }
        ensures fastest { IfSome result (λ plan. plan.fastest ≡ fastest) }
    {
        let within = (1..=WORKERS).contains(&workers)
            && (1..=SHARDS).contains(&shards)
            && (1..=PIECE).contains(&piece);
        if !within {
            return None;
        }
        Some(Plan {
            workers,
            shards,
            piece,
            fastest,
        })
    }

    /// Returns the same plan with one worker.
    pub fn by_one(&self) -> Self
        ensures workers { result.workers ≡ 1 }
        ensures shards { result.shards ≡ self.now.shards }
        ensures piece { result.piece ≡ self.now.piece }
        ensures fastest { result.fastest ≡ self.now.fastest }
    {
        Plan {
            workers: 1,
            shards: self.shards,
            piece: self.piece,
            fastest: self.fastest,
        }
    }

    /// Returns the plan by which a tier of this size is solved level by level: the same, with one worker if there are few indexes.
    pub(crate) fn for_size(&self, size: u64) -> Self
        ensures shards { result.shards ≡ self.now.shards }
        ensures piece { result.piece ≡ self.now.piece }
    {
        if size <= FEW_FOR_LEVELS {
            return self.by_one();
        }
        *self
    }

    /// Returns whether one pass is tried first.
    pub fn is_fastest(&self) -> bool
        ensures { result ≡ self.now.fastest }
    {
        self.fastest
    }

    /// Returns the number of workers, 1 to `WORKERS`.
    pub fn workers(&self) -> usize
        ensures value { result ≡ self.now.workers }
        ensures within { (0 < result) × (result ≤ WORKERS) }
    {
        self.workers
    }

    /// Returns the number of shards of a tier, 1 to `SHARDS`.
    pub fn shards(&self) -> usize
        ensures value { result ≡ self.now.shards }
        ensures within { (0 < result) × (result ≤ SHARDS) }
    {
        self.shards
    }

    /// Returns the number of notes in a piece of a level, 1 to `PIECE`.
    pub fn piece(&self) -> usize
        ensures value { result ≡ self.now.piece }
        ensures within { (0 < result) × (result ≤ PIECE) }
    {
        self.piece
    }
}
