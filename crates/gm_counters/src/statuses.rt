//! Statuses of four bytes each.
ghost use Rattle.std.specs.Prelude.{◌≡◌, ◌<◌, ◌≤◌, ℕ, Some, length, map, slice_get, set, IfOk};
ghost use Rattle.gm_counters.specs.inner.Begin.{first_status};
ghost use Rattle.gm_counters.specs.Good.{IsWithinLimit};
ghost use Rattle.gm_table.specs.Packed.{unpacked};
ghost use Rattle.gm_counters.specs.inner.Closing.{record_of_status};
ghost use Rattle.gm_counters.specs.declared.status.Status.{Status as StatusSpec};
ghost use Rattle.gm_counters.specs.declared.status.Status.TheVariants.{Hole};
ghost use Rattle.gm_counters.specs.inner.Statuses.{first_number, status_numbered};

use crate::status::{Start, Status};
use gm_game::evaluate::of_end;
use gm_table::number::{DRAW, number_of, unpacked};
use std::alloc::{AllocError, Global};
use std::marker::Model;

/// The number of a hole.
const HOLE: u32 = 0;

/// The number of an undecided index: no record has it.
const UNDECIDED: u32 = 1;

/// Statuses of four bytes each. Contracts see the statuses.
#[derive(Drop)]
pub(crate) struct Statuses {
    numbers: Vec<u32>,
}

impl Model for Statuses {
    ghost use Rattle.std.specs.Prelude.{List, map};
    ghost use Rattle.gm_counters.specs.declared.status.Status.{Status};
    ghost use Rattle.gm_counters.specs.inner.Statuses.{status_numbered};

    ghost Value = { List Status };

    ghost view = { λ s. map status_numbered s.numbers.items };
}

impl Statuses {
    /// Returns the statuses with which these indexes begin.
    #[tactic(auto, using(crate::proofs::NumberLemmas::first_numbered))]
    pub(crate) fn first(alloc: Global, starts: &[Start]) -> Result<Statuses, AllocError>
        ensures { IfOk result (λ statuses. statuses ≡ map first_status starts.now) }
    {
        let mut numbers = Vec::with_capacity(alloc, starts.len())?;
        for start in starts {
            numbers.push(first_number(*start))?;
        }
        Ok(Statuses { numbers })
    }

    /// Returns a place from `from` on that only holes come before, so that these places need no look: the first whose number is not that of a hole, or the end.
    pub(crate) fn skip_holes(&self, from: usize) -> usize
        requires { from ≤ length self.now }
        ensures low { from ≤ result }
        ensures high { result ≤ length self.now }
        ensures holes { (k : ℕ) → from ≤ k → k < result → slice_get self.now k ≡ Some Hole }
    {
        let mut k = from;
        while self.numbers[k..].starts_with(&[HOLE; 8]) {
            k += 8;
        }
        while k < self.numbers.len() && self.numbers[k] == HOLE {
            k += 1;
        }
        k
    }

    /// Returns the status at a place.
    pub(crate) fn get(&self, k: usize) -> Status
        requires { k < length self.now }
        ensures { slice_get self.now k ≡ Some result }
    {
        status_of(self.number(k))
    }

    // Returns the number of the status at a place.
    fn number(&self, k: usize) -> u32
        requires { k < length self.now }
        ensures { slice_get self.now k ≡ Some (status_numbered result) }
    {
        self.numbers[k]
    }

    /// Returns the number of the record at a place when nothing is left to settle: an undecided one is a draw.
    pub(crate) fn final_number(&self, k: usize) -> u32
        requires { k < length self.now }
        ensures { (status : StatusSpec) × (slice_get self.now k ≡ Some status) × (unpacked result ≡ record_of_status status) }
    {
        let number = self.number(k);
        if number == UNDECIDED {
            return DRAW;
        }
        number
    }

    /// Puts a status in the place of another.
    pub(crate) fn set(&mut self, k: usize, status: Status)
        requires place { k < length self.old }
        requires near { IsWithinLimit status }
        ensures { self.new ≡ set self.old k status }
    {
        self.numbers[k] = number_of_status(status);
    }
}

// Returns the number of the status with which an index begins.
fn first_number(start: Start) -> u32
    ensures { result ≡ first_number start }
{
    match start {
        Start::Hole => HOLE,
        Start::Ended(end) => number_of(Some(of_end(end))),
        Start::Inner { children: _ } => UNDECIDED,
    }
}

// Returns the number of a status.
fn number_of_status(status: Status) -> u32
    requires { IsWithinLimit status }
    ensures { status_numbered result ≡ status }
{
    match status {
        Status::Hole => number_of(None),
        Status::Undecided => UNDECIDED,
        Status::Settled(solved) => number_of(Some(solved)),
    }
}

// Returns the status with this number.
fn status_of(number: u32) -> Status
    ensures { result ≡ status_numbered number }
{
    match unpacked(number) {
        Some(solved) => Status::Settled(solved),
        None if number == UNDECIDED => Status::Undecided,
        None => Status::Hole,
    }
}
