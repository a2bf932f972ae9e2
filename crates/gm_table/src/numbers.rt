//! Numbers of records, which take a byte each if all of them have short forms, and four otherwise.
ghost use Rattle.std.specs.Prelude.{◌≡◌, ℕ, ◌++◌, [], ◌∷◌, ◌<◌, ◌≤◌, Some, map, take, replicate, slice_get, get_or, length, IfOk, IfSome, OnOk, OnErr};
ghost use Rattle.gm_table.specs.Numbers.{wide};

use crate::number::{SHORT_STEP, STEP, is_short, narrowed, wide};
use std::alloc::{AllocError, Global};
use std::marker::Model;

/// Numbers of records, in their order. Contracts see the numbers.
#[derive(Drop)]
pub(crate) struct Numbers {
    stored: Stored,
}

#[derive(Drop)]
enum Stored {
    // The short form of each number.
    Short(Vec<u8>),
    // The numbers, if one of them has no short form.
    Long(Vec<u32>),
}

impl Model for Numbers {
    ghost use Rattle.std.specs.Prelude.{ℕ, List};
    ghost use Rattle.gm_table.specs.Numbers.{listed};

    ghost Value = { List ℕ };

    ghost view = { λ n. listed n.stored };
}

impl Numbers {
    /// Returns an empty list, with room for this many numbers in their short forms.
    pub(crate) fn with_capacity(alloc: Global, room: usize) -> Result<Numbers, AllocError>
        ensures { IfOk result (λ numbers. numbers ≡ []) }
    {
        let stored = Stored::Short(Vec::with_capacity(alloc, room)?);
        Ok(Numbers { stored })
    }

    /// Returns the numbers with these short forms. Copies them at once.
    pub(crate) fn of_short(alloc: Global, shorts: &[u8]) -> Result<Numbers, AllocError>
        ensures { IfOk result (λ numbers. numbers ≡ map wide shorts.now) }
    {
        let mut numbers = Vec::with_capacity(alloc, shorts.len())?;
        numbers.extend_from_slice(shorts)?;
        Ok(Numbers {
            stored: Stored::Short(numbers),
        })
    }

    /// Adds a number at the end. If memory is refused, the numbers are unchanged.
    #[inline(always)]
    pub(crate) fn push(&mut self, number: u32) -> Result<(), AllocError>
        ensures ok { OnOk result (self.new ≡ self.old ++ number ∷ []) }
        ensures err { OnErr result (self.new ≡ self.old) }
    {
        if let Stored::Short(numbers) = &mut self.stored {
            if is_short(number) {
                numbers.push(narrowed(number))?;
                return Ok(());
            }
        }
        self.push_long(number)
    }

    /// Adds this many zeros at the end. If memory is refused, the numbers are unchanged.
    #[tactic(auto, using(crate::proofs::NumberLemmas::wide_more_zeros))]
    pub(crate) fn push_zeros(&mut self, count: usize) -> Result<(), AllocError>
        ensures ok { OnOk result (self.new ≡ self.old ++ replicate count 0) }
        ensures err { OnErr result (self.new ≡ self.old) }
    {
        match &mut self.stored {
            Stored::Short(numbers) => push_times(numbers, 0, count),
            Stored::Long(numbers) => push_times(numbers, 0, count),
        }
    }

    // Adds a number at the end, and keeps all of them long. It is a function of its own, so that code for the common case is short.
    #[inline(never)]
    fn push_long(&mut self, number: u32) -> Result<(), AllocError>
        ensures ok { OnOk result (self.new ≡ self.old ++ number ∷ []) }
        ensures err { OnErr result (self.new ≡ self.old) }
    {
        match &mut self.stored {
            Stored::Short(numbers) => {
                let mut long = widened(numbers)?;
                long.push(number)?;
                self.stored = Stored::Long(long);
                Ok(())
            }
            Stored::Long(numbers) => {
                numbers.push(number)?;
                Ok(())
            }
        }
    }

    /// Adds other numbers at the end. If memory is refused, the numbers are unchanged.
    pub(crate) fn append(&mut self, more: &Numbers) -> Result<(), AllocError>
        ensures ok { OnOk result (self.new ≡ self.old ++ more.now) }
        ensures err { OnErr result (self.new ≡ self.old) }
    {
        match (&mut self.stored, &more.stored) {
            (Stored::Short(numbers), Stored::Short(others)) => {
                numbers.extend_from_slice(others.as_slice())
            }
            (Stored::Short(numbers), Stored::Long(others)) => {
                let mut long = widened(numbers)?;
                long.extend_from_slice(others.as_slice())?;
                self.stored = Stored::Long(long);
                Ok(())
            }
            (Stored::Long(numbers), Stored::Short(others)) => {
                numbers.extend_from_slice(widened(others)?.as_slice())
            }
            (Stored::Long(numbers), Stored::Long(others)) => {
                numbers.extend_from_slice(others.as_slice())
            }
        }
    }

    /// Keeps this many of the first numbers.
    #[tactic(auto, using(crate::proofs::NumberLemmas::take_wide))]
    pub(crate) fn truncate(&mut self, count: usize)
        ensures { self.new ≡ take count self.old }
    {
        match &mut self.stored {
            Stored::Short(numbers) => numbers.truncate(count),
            Stored::Long(numbers) => numbers.truncate(count),
        }
    }

    /// Returns the allocator of their memory.
    pub(crate) fn allocator(&self) -> Global {
        match &self.stored {
            Stored::Short(numbers) => *numbers.allocator(),
            Stored::Long(numbers) => *numbers.allocator(),
        }
    }

    /// Returns the short forms of the numbers, if each has one, and else an empty list.
    pub(crate) fn shorts(&self) -> &[u8]
        ensures { (k : ℕ) → k < length result.now → slice_get self.now k ≡ Some (wide (get_or result.now k 0)) }
    {
        match &self.stored {
            Stored::Short(numbers) => numbers.as_slice(),
            Stored::Long(_) => &[],
        }
    }

    /// Returns how many numbers there are.
    pub(crate) fn len(&self) -> usize
        ensures { result ≡ length self.now }
    {
        match &self.stored {
            Stored::Short(numbers) => numbers.len(),
            Stored::Long(numbers) => numbers.len(),
        }
    }

    /// Returns an index from `from` on that no record's number comes before, so that these numbers need no look: the next one of a record if all are short.
    pub(crate) fn skip_holes(&self, from: usize) -> usize
        requires { from ≤ length self.now }
        ensures low { from ≤ result }
        ensures high { result ≤ length self.now }
        ensures holes { (k : ℕ) → from ≤ k → k < result → IfSome (slice_get self.now k) (λ number. number < STEP) }
    {
        match &self.stored {
            Stored::Short(numbers) => next_record(numbers.as_slice(), from),
            Stored::Long(_) => from,
        }
    }

    /// Returns the number at an index; `None` past the end.
    #[inline]
    pub(crate) fn get(&self, index: usize) -> Option<u32>
        ensures { result ≡ slice_get self.now index }
    {
        match &self.stored {
            Stored::Short(numbers) => Some(wide(*numbers.get(index)?)),
            Stored::Long(numbers) => Some(*numbers.get(index)?),
        }
    }
}

// Adds a value at the end, this many times. If memory is refused, the list is unchanged.
fn push_times<T: Copy>(list: &mut Vec<T>, value: T, count: usize) -> Result<(), AllocError>
    ensures ok { OnOk result (list.new.items ≡ list.old.items ++ replicate count value) }
    ensures err { OnErr result (list.new.items ≡ list.old.items) }
{
    let len = list.len().checked_add(count).ok_or(AllocError)?;
    list.resize(len, value)
}

// Returns the first index from `from` on whose short form is a record's, or the number of short forms.
fn next_record(shorts: &[u8], from: usize) -> usize
    requires { from ≤ length shorts.now }
    ensures low { from ≤ result }
    ensures high { result ≤ length shorts.now }
    ensures holes { (k : ℕ) → from ≤ k → k < result → IfSome (slice_get shorts.now k) (λ short. short < 32) }
{
    let mut index = skip_eights(shorts, from);
    while index < shorts.len() && u32::from(shorts[index]) < SHORT_STEP {
        index += 1;
    }
    index
}

// Returns an index from `from` on, up to which all short forms are zeros: it passes eight at once.
fn skip_eights(shorts: &[u8], from: usize) -> usize
    requires { from ≤ length shorts.now }
    ensures low { from ≤ result }
    ensures high { result ≤ length shorts.now }
    ensures holes { (k : ℕ) → from ≤ k → k < result → IfSome (slice_get shorts.now k) (λ short. short < 32) }
{
    let mut index = from;
    while shorts[index..].starts_with(&[0; 8]) {
        index += 8;
    }
    index
}

// Returns the numbers with these short forms.
fn widened(numbers: &Vec<u8>) -> Result<Vec<u32>, AllocError>
    ensures { IfOk result (λ long. long.items ≡ map wide numbers.now.items) }
{
    let mut long = Vec::with_capacity(*numbers.allocator(), numbers.len())?;
    for short in numbers {
        long.push(wide(*short))?;
    }
    Ok(long)
}
