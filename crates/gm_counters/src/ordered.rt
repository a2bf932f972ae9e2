//! A shard to which no pair is delivered twice. Only proofs know the children delivered to it. The order in which its positions were settled is kept.

ghost use Rattle.std.specs.Prelude.{◌≡◌, ℕ, IfOk};
ghost use Rattle.std.specs.List.{Contains};
ghost use Rattle.gm_counters.specs.inner.Queues.{IsEmptied, IsQueue, IsSettledAt, AreNotesAt};

use crate::deliveries::Ordered;
use crate::queue::Queue;
use crate::status::{Delivery, Refused, Start, Status, has_phase, has_settled};
use gm_frontier::last::Last;
use gm_frontier::note::Note;
use gm_frontier::run::Run;
use gm_game::game::Game;
use gm_game::limits::{REMOTENESS, TIER_SIZE};
use gm_game::position::{Phase, Place};
use gm_table::packed::Packed;
use std::alloc::{AllocError, Global};
use std::marker::Model;
use std::mem::swap;

// Returns the queue of the positions that have ended in a phase, before any child is delivered.
fn ended<G: Game>(alloc: Global, children: &Ordered<G>, phase: Phase) -> Result<Queue, AllocError>
    requires { IsEmptied children.now }
    ensures { IfOk result (IsQueue G.rules children.now phase 0) }
{
    let (lo, count) = children.range();
    let mut queue = Queue::new(alloc, count as usize)?;
    let mut index = children.skip_holes(lo);
    while index < lo + count {
        if has_phase(children.status(index), phase) {
            queue.push((index - lo) as u32);
        }
        index = children.skip_holes(index + 1);
    }
    queue.advance();
    Ok(queue)
}

// Returns the notes of settled indexes of the range, in order.
fn notes_at<G: Game>(
    alloc: Global,
    children: &Ordered<G>,
    indexes: &[u32],
) -> Result<Vec<Note<G>>, AllocError>
    requires { (k : ℕ) → Contains indexes.now k → IsSettledAt G.rules children.now children.now.phase children.now.level k }
    ensures { IfOk result (λ notes. AreNotesAt G.rules children.now indexes.now notes.items) }
{
    let (lo, _count) = children.range();
    let mut notes = Vec::new(alloc);
    for index in indexes {
        notes.push(children.note(lo + u64::from(*index)).unwrap())?;
    }
    Ok(notes)
}

/// A range of a tier at a place, with the children delivered to each of its positions. It is good after any calls: see the contract of `range`.
pub struct OrderedShard<G: Game> {
    children: Ordered<G>,
    // The positions that are settled in the present phase.
    queue: Queue,
    // Before the phase of ties: the positions that have ended as ties.
    ties: Queue,
}

// Dropped in one call, so that the prover tracks one value instead of every field.
impl<G: Game> Drop for OrderedShard<G> {
    fn drop(self) {
        let OrderedShard {
            children: _,
            queue: _,
            ties: _,
        } = self;
    }
}

impl<G: Game> Model for OrderedShard<G> {
    ghost use Rattle.gm_counters.specs.State.{ShardState};
    ghost use Rattle.gm_counters.specs.inner.Queues.{AreQueues};

    ghost Value = { ShardState };

    ghost view = { λ s. s.children };

    ghost invariant = { λ s. AreQueues G.rules s.children s.queue s.ties };
}

impl<G: Game> OrderedShard<G> {
    ghost use Rattle.std.specs.Prelude.{◌≡◌, ◌+◌, ◌*◌, ◌<◌, ◌≤◌, ◌++◌, List, Option, length, IfOk, OnOk, OnErr};
    ghost use Rattle.gm_game.specs.declared.limits.TheConstants.{MOVES};
    ghost use Rattle.gm_game.specs.declared.position.Solved.{Solved};
    ghost use Rattle.gm_game.specs.declared.position.Phase.TheVariants.{Ties};
    ghost use Rattle.std.specs.List.{Contains};
    ghost use Rattle.gm_counters.specs.inner.Begin.{AreStarts, first_state};
    ghost use Rattle.gm_counters.specs.State.{IsInRange, delivered_to, pairs_in};
    ghost use Rattle.gm_counters.specs.Status.{StatusIs};
    ghost use Rattle.gm_counters.specs.Good.{IsGood, IsCounter};
    ghost use Rattle.gm_counters.specs.Delivery.{IsPairHere, Delivers};
    ghost use Rattle.gm_counters.specs.Steps.{IsWhole, CanTurn, place_of, at_next_level, first_ties};
    ghost use Rattle.gm_counters.specs.inner.Closing.{IsNoteOf, AreFinal, record_of_status};
    ghost use Rattle.gm_table.specs.Solving.{ArePart};
    ghost use Rattle.gm_counters.specs.declared.status.Status.{Status as StatusSpec};
    ghost use Rattle.gm_table.specs.Packed.{unpacked};
    ghost use Rattle.gm_counters.specs.inner.Queues.{AreSettledAt};

    /// Makes the shard of the indexes from `lo` on with these start values; nothing is delivered yet.
    pub fn begin(alloc: Global, tier: u64, lo: u64, starts: &[Start]) -> Result<Self, AllocError>
        requires starts { AreStarts G.rules tier lo starts.now }
        requires within { lo + length starts.now ≤ TIER_SIZE }
        ensures { IfOk result (λ s. s ≡ first_state tier lo (length starts.now)) }
    {
        let children = Ordered::begin(alloc, tier, lo, starts)?;
        let queue = ended(alloc, &children, Phase::WinLose)?;
        let ties = ended(alloc, &children, Phase::Ties)?;
        Ok(OrderedShard {
            children,
            queue,
            ties,
        })
    }

    /// Returns the tier.
    pub fn tier(&self) -> u64
        ensures { result ≡ self.now.tier }
    {
        self.children.tier()
    }

    /// Returns the index range: the first index, and the one past the last.
    pub fn range(&self) -> (u64, u64)
        ensures lo { result.0 ≡ self.now.lo }
        ensures hi { result.1 ≡ self.now.lo + length self.now.delivered }
        ensures small { self.now.lo + length self.now.delivered ≤ TIER_SIZE }
        ensures good { IsGood G.rules self.now }
    {
        let (lo, count) = self.children.range();
        (lo, lo + count)
    }

    /// Returns the present place.
    pub fn place(&self) -> Place
        ensures { result ≡ place_of self.now }
    {
        self.children.place()
    }

    /// Returns how many pairs are delivered.
    pub fn delivered(&self) -> u64
        ensures value { result ≡ pairs_in self.now }
        ensures small { pairs_in self.now ≤ MOVES * TIER_SIZE }
    {
        self.children.delivered()
    }

    /// Returns the record of an index, if one is known.
    pub fn status(&self, index: u64) -> Status
        requires { IsInRange self.now index }
        ensures { StatusIs G.rules self.now index result }
    {
        self.children.status(index)
    }

    /// Returns the number of distinct canonical children of an index that are not delivered: 0 at a hole and at an end.
    pub fn counter(&self, index: u64) -> u32
        requires { IsInRange self.now index }
        ensures { IsCounter G.rules self.now index result }
    {
        self.children.counter(index)
    }

    /// Returns the note of an index, if it is settled.
    pub fn note(&self, index: u64) -> Option<Note<G>>
        requires { IsInRange self.now index }
        ensures { IsNoteOf G.rules self.now index result }
    {
        self.children.note(index)
    }

    /// Delivers a note of the present level to a parent of the range to which it is not delivered yet: adds the pair, and settles an undecided parent if it
    /// decides.
    pub fn deliver_new(&mut self, note: &Note<G>, parent: u64) -> Result<Delivery, Refused>
        requires here { IsPairHere G.rules self.old note.now parent }
        requires new { Contains (delivered_to self.old parent) note.now.position → ⊥ }
        ensures { Delivers G.rules note.now parent self.old self.new result }
    {
        let (lo, _count) = self.children.range();
        let answer = self.children.deliver_new(note, parent);
        let _good = self.children.range();
        if has_settled(&answer) {
            self.queue.push((parent - lo) as u32);
        }
        answer
    }

    /// Turns to the next level, when every pair up to the present place is delivered.
    pub fn close(&mut self)
        requires whole { IsWhole G.rules self.old }
        requires fits { self.old.level ≤ REMOTENESS }
        ensures { self.new ≡ at_next_level self.old }
    {
        self.children.close();
        self.queue.advance();
    }

    // Returns the indexes of the range that are settled at the present place, in the order in which they were settled.
    fn present(&self) -> &[u32]
        ensures { AreSettledAt G.rules self.now self.now.phase self.now.level result.now }
    {
        self.queue.present()
    }

    /// Returns the notes of the present place, ascending. Takes time in proportion to the level.
    pub fn fresh(&self, alloc: Global) -> Result<Run<G>, AllocError>
        ensures place { IfOk result (λ run. run.place ≡ place_of self.now) }
        ensures lo { IfOk result (λ run. run.lo ≡ self.now.lo) }
        ensures hi { IfOk result (λ run. run.hi ≡ self.now.lo + length self.now.delivered) }
    {
        let mut indexes = Vec::from_slice(alloc, self.present())?;
        indexes.sort_unstable();
        let notes = notes_at(alloc, &self.children, indexes.as_slice())?;
        let (lo, hi) = self.range();
        Ok(Run::of(self.place(), lo, hi, notes))
    }

    // Returns the number of an index's record when nothing is left to settle: an undecided position is a draw.
    fn final_number(&self, index: u64) -> u32
        requires { IsInRange self.now index }
        ensures { (status : StatusSpec) × StatusIs G.rules self.now index status × (unpacked result ≡ record_of_status status) }
    {
        self.children.final_number(index)
    }

    // Appends the records of the holes from an index on and that of the index after them; returns the first index whose record is not appended yet. If memory is
    // refused, some of them may be appended.
    fn push_next(&self, index: u64, records: &mut Packed) -> Result<u64, AllocError>
        requires { IsInRange self.now index }
        ensures next { IfOk result (λ next. (index < next) × (next ≤ self.now.lo + length self.now.delivered)) }
        ensures ok { IfOk result (λ next. (part : List (Option Solved)) × (records.new ≡ records.old ++ part) × (index + length part ≡ next)
            × AreFinal G.rules self.now index part) }
        ensures err { OnErr result ((part : List (Option Solved)) × (records.new ≡ records.old ++ part)) }
    {
        let (_lo, hi) = self.range();
        let next = self.children.skip_holes(index);
        records.push_none((next - index) as usize)?;
        if next == hi {
            return Ok(next);
        }
        records.push_number(self.final_number(next))?;
        Ok(next + 1)
    }

    /// Appends the true records of the range when nothing is left to settle: undecided positions are draws. If memory is refused, the records are unchanged.
    pub fn finish(&self, last: &Last<G>, records: &mut Packed) -> Result<(), AllocError>
        requires last { last.now ≡ place_of self.now }
        requires ties { self.now.phase ≡ Ties }
        ensures ok { OnOk result ((part : List (Option Solved)) × (records.new ≡ records.old ++ part)
            × (length part ≡ length self.now.delivered) × ArePart G.rules self.now.tier self.now.lo part) }
        ensures err { OnErr result (records.new ≡ records.old) }
    {
        let _place = last.place();
        let before = records.len();
        let (mut index, hi) = self.range();
        while index < hi {
            match self.push_next(index, records) {
                Ok(next) => index = next,
                Err(error) => {
                    records.truncate(before);
                    return Err(error);
                }
            }
        }
        Ok(())
    }

    /// Turns from wins and losses to ties.
    pub fn next_phase(&mut self, last: &Last<G>)
        requires { CanTurn self.old last.now }
        ensures { self.new ≡ first_ties self.old }
    {
        self.children.next_phase(last);
        swap(&mut self.queue, &mut self.ties);
    }
}
