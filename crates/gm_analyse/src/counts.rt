//! How many positions have each value and remoteness.
ghost use Rattle.std.specs.Prelude.{◌≡◌, ◌++◌, ◌+◌, ◌<◌, ◌≤◌, ℕ, length, slice_index_or, vec_len, IfOk, OnOk};
ghost use Rattle.gm_analyse.specs.Numbers.{remoteness_in as remoteness_in_spec, number_in};
ghost use Rattle.gm_analyse.specs.Listing.{AreRecordCounts, counted};

use crate::numbers::count;
use gm_game::game::Game;
use gm_game::limits::REMOTENESS;
use gm_game::position::{Solved, Value};
use gm_table::table::Table;
use std::alloc::{AllocError, Global};
use std::marker::Model;

/// How many canonical positions have one value and remoteness.
#[derive(Clone, Copy, Debug, PartialEq, Eq)]
pub struct Count {
    pub value: Value,
    pub remoteness: u32,
    pub number: u64,
}

/// The counts of a table. Contracts see their list.
#[derive(Drop)]
pub struct Counts {
    counts: Vec<Count>,
}

impl Model for Counts {
    ghost use Rattle.std.specs.Prelude.{List};
    ghost use Rattle.gm_analyse.specs.declared.counts.Count.{Count as CountData};

    ghost Value = { List CountData };

    ghost view = { λ c. c.counts.items };
}

impl Counts {
    /// Returns the counts, without memory: in the order Lose, Draw, Tie, Win, then by remoteness.
    pub fn list(&self) -> &[Count]
        ensures { result.now ≡ self.now }
    {
        self.counts.as_slice()
    }
}

/// Counts the records of a table by value and remoteness.
pub(crate) fn counts_of<G: Game>(alloc: Global, table: &Table<G>) -> Result<Counts, AllocError>
    ensures { IfOk result (AreRecordCounts table.now.records) }
{
    let mut counts = Vec::new(alloc);
    for value in [Value::Lose, Value::Draw, Value::Tie, Value::Win] {
        let numbers = numbers_of(alloc, table, value)?;
        push_counts(&mut counts, value, numbers.as_slice())?;
    }
    Ok(Counts { counts })
}

/// Adds the counts of a value, by how many have it with each remoteness.
pub(crate) fn push_counts(
    counts: &mut Vec<Count>,
    value: Value,
    numbers: &[u64],
) -> Result<(), AllocError>
    requires { length numbers.now ≤ REMOTENESS + 1 }
    ensures { OnOk result (counts.new.items ≡ counts.old.items ++ counted value 0 numbers.now) }
{
    for (remoteness, number) in numbers.iter().enumerate() {
        if *number > 0 {
            counts.push(Count {
                value,
                remoteness: remoteness as u32,
                number: *number,
            })?;
        }
    }
    Ok(())
}

// Returns how many records have this value, for each remoteness up to the greatest.
fn numbers_of<G: Game>(
    alloc: Global,
    table: &Table<G>,
    value: Value,
) -> Result<Vec<u64>, AllocError>
    ensures few { IfOk result (λ numbers. vec_len numbers ≤ REMOTENESS + 1) }
    ensures numbers { IfOk result (λ numbers. (n : ℕ)
        → slice_index_or numbers.items n 0 ≡ number_in table.now.records (length table.now.records) value n) }
{
    let mut numbers = Vec::new(alloc);
    for index in 0..table.size() {
        if let Some(remoteness) = remoteness_in(value, table.at(index)) {
            count(&mut numbers, remoteness as usize)?;
        }
    }
    Ok(numbers)
}

/// Returns the remoteness of a record of this value.
pub(crate) fn remoteness_in(value: Value, known: Option<Solved>) -> Option<u32>
    ensures { result ≡ remoteness_in_spec value known }
{
    let solved = known?;
    if solved.value == value {
        Some(solved.remoteness)
    } else {
        None
    }
}
