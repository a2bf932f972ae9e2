//! The indexes of a table, laid out by place.
ghost use Rattle.std.specs.Prelude.{◌≡◌, ◌==◌, ◌<◌, ◌≤◌, ℕ, Some, [], ◌∷◌, ◌++◌, length, if◌then◌else◌, vec_len, OnOk, IfOk};
ghost use Rattle.gm_game.specs.declared.position.Phase.{Phase as PhaseSpec};
ghost use Rattle.gm_table.specs.Levels.{is_level, level_in};
ghost use Rattle.gm_table.specs.inner.Runs.{run_at, run_in, AreRunsOf};

use crate::packed::Packed;
use gm_game::limits::TIER_SIZE;
use gm_game::position::{Phase, Solved, Value};
use std::alloc::{AllocError, Global};

/// The indexes of the records of each place: for each phase a list for each level, ascending.
#[derive(Drop)]
pub(crate) struct Runs {
    win_lose: Vec<Vec<u32>>,
    ties: Vec<Vec<u32>>,
}

impl Runs {
    /// Lays out the indexes of these records, in one pass.
    pub(crate) fn of(alloc: Global, records: &Packed) -> Result<Runs, AllocError>
        requires { length records.now ≤ TIER_SIZE }
        ensures { IfOk result (AreRunsOf records.now) }
    {
        let mut runs = Runs {
            win_lose: Vec::new(alloc),
            ties: Vec::new(alloc),
        };
        let mut index = records.skip_holes(0);
        while index < records.len() {
            if let Some(solved) = records.get(index) {
                runs.place(solved, index as u32)?;
            }
            index = records.skip_holes(index + 1);
        }
        Ok(runs)
    }

    // Adds the index of a record at its place, if it has one.
    fn place(&mut self, solved: Solved, index: u32) -> Result<(), AllocError>
        ensures { OnOk result ((phase : PhaseSpec) (n : ℕ) → run_in self.new phase n
            ≡ (if is_level n (level_in phase (Some solved)) then run_in self.old phase n ++ index ∷ [] else run_in self.old phase n)) }
    {
        let level = solved.remoteness as usize;
        match solved.value {
            Value::Lose | Value::Win => add(&mut self.win_lose, level, index),
            Value::Tie => add(&mut self.ties, level, index),
            Value::Draw => Ok(()),
        }
    }

    /// Returns the indexes at a place.
    pub(crate) fn at(&self, phase: Phase, level: u32) -> &[u32]
        ensures { result.now ≡ run_in self.now phase level }
    {
        let runs = match phase {
            Phase::WinLose => &self.win_lose,
            Phase::Ties => &self.ties,
        };
        match runs.get(level as usize) {
            Some(run) => run.as_slice(),
            None => &[],
        }
    }
}

// Adds an index at the end of the run at a level.
fn add(runs: &mut Vec<Vec<u32>>, level: usize, index: u32) -> Result<(), AllocError>
    ensures { OnOk result ((n : ℕ) → run_at runs.new n
        ≡ (if level == n then run_at runs.old n ++ index ∷ [] else run_at runs.old n)) }
{
    grow(runs, level)?;
    runs[level].push(index)?;
    Ok(())
}

// Adds empty runs up to a level.
fn grow(runs: &mut Vec<Vec<u32>>, level: usize) -> Result<(), AllocError>
    ensures room { OnOk result (level < vec_len runs.new) }
    ensures same { OnOk result ((n : ℕ) → run_at runs.new n ≡ run_at runs.old n) }
{
    let alloc = *runs.allocator();
    while runs.len() <= level {
        runs.push(Vec::new(alloc))?;
    }
    Ok(())
}
