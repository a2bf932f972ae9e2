//! The children delivered to each position of a range whose pairs are delivered in an order in which none comes twice: no mask is kept.

ghost use Rattle.std.specs.Prelude.{◌≡◌, map, IfOk};
ghost use Rattle.gm_counters.specs.inner.Begin.{first_left};

use crate::log::Log;
use crate::status::{Delivery, Refused, Start, Status, first_left, is_settling, next_status};
use crate::statuses::Statuses;
use gm_frontier::last::Last;
use gm_frontier::note::Note;
use gm_game::game::Game;
use gm_game::limits::{REMOTENESS, TIER_SIZE};
use gm_game::position::{Phase, Place, Position};
use std::alloc::{AllocError, Global};
use std::marker::{Model, PhantomData};

// Returns the counters with which these indexes begin.
fn first_counters(alloc: Global, starts: &[Start]) -> Result<Vec<u8>, AllocError>
    ensures { IfOk result (λ left. left.items ≡ map first_left starts.now) }
{
    let mut left = Vec::with_capacity(alloc, starts.len())?;
    for start in starts {
        left.push(first_left(*start))?;
    }
    Ok(left)
}

// The counters and the statuses of a range, and the pairs that were delivered to it: a type that does not depend on the game.
#[derive(Drop)]
struct Rows {
    pairs: Option<Log<Position, u64>>,
    left: Vec<u8>,
    statuses: Statuses,
}

/// A range of a tier, with the children delivered to each of its positions, which only proofs read.
pub struct Ordered<G: Game> {
    tier: u64,
    lo: u64,
    phase: Phase,
    level: u32,
    rows: Rows,
    delivered: u64,
    game: PhantomData<G>,
}

// Dropped in one call, so that the prover tracks one value instead of every field.
impl<G: Game> Drop for Ordered<G> {
    fn drop(self) {
        let Ordered {
            tier: _,
            lo: _,
            phase: _,
            level: _,
            rows: _,
            delivered: _,
            game: _,
        } = self;
    }
}

impl<G: Game> Model for Ordered<G> {
    ghost use Rattle.gm_counters.specs.inner.Logged.{logged};
    ghost use Rattle.std.specs.Prelude.{length};
    ghost use Rattle.gm_counters.specs.State.{ShardState};
    ghost use Rattle.gm_counters.specs.inner.Ordered.{state_by};
    ghost use Rattle.gm_counters.specs.Good.{IsShardKept};

    ghost Value = { ShardState };

    ghost view = { λ s. state_by s.tier s.lo s.phase s.level (length s.rows.left.items) (logged s.rows.pairs) };

    ghost invariant = { λ s. IsShardKept G.rules (state_by s.tier s.lo s.phase s.level (length s.rows.left.items) (logged s.rows.pairs)) s.rows.statuses
        s.rows.left.items s.delivered };
}

impl<G: Game> Ordered<G> {
    ghost use Rattle.std.specs.Prelude.{◌≡◌, ◌+◌, ◌*◌, ◌<◌, ◌≤◌, ℕ, length, IfOk};
    ghost use Rattle.gm_game.specs.declared.limits.TheConstants.{MOVES, REMOTENESS};
    ghost use Rattle.gm_counters.specs.inner.Begin.{AreStarts, first_state};
    ghost use Rattle.gm_counters.specs.State.{IsInRange, pairs_in};
    ghost use Rattle.gm_counters.specs.Status.{StatusIs};
    ghost use Rattle.gm_counters.specs.Good.{IsGood, IsCounter};
    ghost use Rattle.gm_counters.specs.Steps.{CanTurn, IsWhole, place_of, at_next_level, first_ties};
    ghost use Rattle.gm_counters.specs.inner.Closing.{IsNoteOf, record_of_status};
    ghost use Rattle.gm_counters.specs.declared.status.Status.{Status as StatusSpec};
    ghost use Rattle.gm_counters.specs.declared.status.Status.TheVariants.{Hole};
    ghost use Rattle.gm_table.specs.Packed.{unpacked};

    /// Returns the range of the indexes from `lo` on, with no pair.
    pub fn begin(alloc: Global, tier: u64, lo: u64, starts: &[Start]) -> Result<Self, AllocError>
        requires starts { AreStarts G.rules tier lo starts.now }
        requires within { lo + length starts.now ≤ TIER_SIZE }
        ensures { IfOk result (λ s. s ≡ first_state tier lo (length starts.now)) }
    {
        let left = first_counters(alloc, starts)?;
        let statuses = Statuses::first(alloc, starts)?;
        Ok(Ordered {
            tier,
            lo,
            phase: Phase::WinLose,
            level: 0,
            rows: Rows {
                pairs: None,
                left,
                statuses,
            },
            delivered: 0,
            game: PhantomData,
        })
    }

    /// Returns the tier.
    pub fn tier(&self) -> u64
        ensures { result ≡ self.now.tier }
    {
        self.tier
    }

    /// Returns the first index of the range, and how many there are.
    pub fn range(&self) -> (u64, u64)
        ensures lo { result.0 ≡ self.now.lo }
        ensures count { result.1 ≡ length self.now.delivered }
        ensures small { self.now.lo + length self.now.delivered ≤ TIER_SIZE }
        ensures good { IsGood G.rules self.now }
    {
        (self.lo, self.rows.left.len() as u64)
    }

    /// Returns the present place.
    pub fn place(&self) -> Place
        ensures { result ≡ place_of self.now }
    {
        Place {
            tier: self.tier,
            phase: self.phase,
            level: self.level,
        }
    }

    /// Returns the record of an index, if one is known.
    pub fn status(&self, index: u64) -> Status
        requires { IsInRange self.now index }
        ensures { StatusIs G.rules self.now index result }
    {
        self.rows.statuses.get((index - self.lo) as usize)
    }

    /// Returns an index from `index` on, or the end of the range, that only holes come before, so that these indexes need no look.
    pub(crate) fn skip_holes(&self, index: u64) -> u64
        requires low { self.now.lo ≤ index }
        requires high { index ≤ self.now.lo + length self.now.delivered }
        ensures low { index ≤ result }
        ensures high { result ≤ self.now.lo + length self.now.delivered }
        ensures holes { (i : ℕ) → index ≤ i → i < result → StatusIs G.rules self.now i Hole }
    {
        self.lo + self.rows.statuses.skip_holes((index - self.lo) as usize) as u64
    }

    /// Returns the number of an index's record when nothing is left to settle: an undecided position is a draw.
    pub fn final_number(&self, index: u64) -> u32
        requires { IsInRange self.now index }
        ensures { (status : StatusSpec) × StatusIs G.rules self.now index status × (unpacked result ≡ record_of_status status) }
    {
        self.rows.statuses.final_number((index - self.lo) as usize)
    }

    /// Returns how many canonical children are not delivered.
    pub fn counter(&self, index: u64) -> u32
        requires { IsInRange self.now index }
        ensures { IsCounter G.rules self.now index result }
    {
        self.rows.left[(index - self.lo) as usize] as u32
    }

    /// Returns the note of an index, if it is settled.
    pub fn note(&self, index: u64) -> Option<Note<G>>
        requires { IsInRange self.now index }
        ensures { IsNoteOf G.rules self.now index result }
    {
        let p = Position {
            tier: self.tier,
            index,
        };
        match self.status(index) {
            Status::Settled(x) => Some(Note::of(p, x)),
            _ => None,
        }
    }

    /// Returns the number of pairs.
    pub fn delivered(&self) -> u64
        ensures value { result ≡ pairs_in self.now }
        ensures small { pairs_in self.now ≤ MOVES * TIER_SIZE }
    {
        self.delivered
    }

    /// Turns to the next level, when every pair up to the present place is delivered.
    pub fn close(&mut self)
        requires whole { IsWhole G.rules self.old }
        requires fits { self.old.level ≤ REMOTENESS }
        ensures { self.new ≡ at_next_level self.old }
    {
        self.level += 1;
    }

    /// Turns to ties.
    pub fn next_phase(&mut self, last: &Last<G>)
        requires { CanTurn self.old last.now }
        ensures { self.new ≡ first_ties self.old }
    {
        let _place = last.place();
        self.phase = Phase::Ties;
        self.level = 0;
    }
}

impl<G: Game> Ordered<G> {
    ghost use Rattle.std.specs.Prelude.{◌≡◌};
    ghost use Rattle.std.specs.List.{Contains};
    ghost use Rattle.gm_counters.specs.State.{delivered_to, with_pair};
    ghost use Rattle.gm_counters.specs.Status.{StatusIs};
    ghost use Rattle.gm_counters.specs.Steps.{CanDeliver};
    ghost use Rattle.gm_counters.specs.Delivery.{IsPairHere, Delivers};

    /// Delivers a note of the present level to a parent of the range to which it is not delivered yet.
    pub fn deliver_new(&mut self, note: &Note<G>, parent: u64) -> Result<Delivery, Refused>
        requires here { IsPairHere G.rules self.old note.now parent }
        requires new { Contains (delivered_to self.old parent) note.now.position → ⊥ }
        ensures { Delivers G.rules note.now parent self.old self.new result }
    {
        // The level is at most one above the limit, so a remoteness greater by one fits.
        let _level = self.level;
        let old = self.status(parent);
        let left = self.counter(parent);
        let solved = note.solved();
        let next = next_status(old, solved, left == 1);
        let settles = is_settling(old, next);
        if settles {
            if self.level >= REMOTENESS {
                return Err(Refused::TooFar);
            }
        }
        self.add_pair(note, parent, next);
        if settles {
            return Ok(Delivery::FreshSettled);
        }
        Ok(Delivery::Fresh)
    }

    // Adds a pair, which gives the parent its next status.
    fn add_pair(&mut self, note: &Note<G>, parent: u64, next: Status)
        requires can { CanDeliver G.rules self.old note.now.position parent }
        requires next { StatusIs G.rules (with_pair self.old note.now.position parent) parent next }
        ensures { self.new ≡ with_pair self.old note.now.position parent }
    {
        let k = (parent - self.lo) as usize;
        self.rows.left[k] -= 1;
        self.rows.statuses.set(k, next);
        self.delivered += 1;
        let child = note.position();
        self.rows.pairs = Some(Log::after(&self.rows.pairs, &child, &parent));
    }
}
