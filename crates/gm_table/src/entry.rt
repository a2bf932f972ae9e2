//! A table with its indexes laid out by place.
ghost use Rattle.std.specs.Prelude.{◌≡◌, IfOk, IfErr};
ghost use Rattle.gm_table.specs.Levels.{indexes_at};

use crate::runs::Runs;
use crate::table::Table;
use gm_game::game::Game;
use gm_game::position::Phase;
use std::alloc::{AllocFailed, Global};
use std::marker::Model;

/// A table with its indexes laid out by place. Contracts see the table.
pub(crate) struct Entry<G: Game> {
    table: Table<G>,
    runs: Runs,
}

// Dropped in one call, so that the prover tracks one value instead of every field.
impl<G: Game> Drop for Entry<G> {
    fn drop(self) {
        let Entry { table: _, runs: _ } = self;
    }
}

impl<G: Game> Model for Entry<G> {
    ghost use Rattle.gm_table.specs.Tables.{TableData};

    ghost Value = { TableData };

    ghost use Rattle.gm_table.specs.inner.Runs.{AreRunsOf};

    ghost view = { λ e. e.table };

    ghost invariant = { λ e. AreRunsOf e.table.records e.runs };
}

impl<G: Game> Entry<G> {
    ghost use Rattle.gm_table.specs.Tables.{IsTable};

    /// Lays out a table, unless it is laid out already. If memory runs out, the table comes back.
    pub(crate) fn of(alloc: Global, mut table: Table<G>) -> Result<Entry<G>, AllocFailed<Table<G>>>
        ensures ok { IfOk result (λ e. e ≡ table) }
        ensures err { IfErr result (λ e. e.value ≡ table) }
    {
        match table.take_runs() {
            Some(runs) => Ok(Entry { table, runs }),
            None => match Runs::of(alloc, table.records()) {
                Ok(runs) => Ok(Entry { table, runs }),
                Err(_) => Err(AllocFailed { value: table }),
            },
        }
    }

    /// Returns the table.
    pub(crate) fn table(&self) -> &Table<G>
        ensures value { result.now ≡ self.now }
        ensures table { IsTable G.rules self.now }
    {
        let _tier = self.table.tier();
        &self.table
    }

    /// Returns the table by value, without its layout.
    pub(crate) fn into_table(self) -> Table<G>
        ensures { result ≡ self }
    {
        let Entry { table, runs: _ } = self;
        table
    }

    /// Returns the indexes of the records at a place, ascending.
    pub(crate) fn run(&self, phase: Phase, level: u32) -> &[u32]
        ensures { result.now ≡ indexes_at phase level self.now.records }
    {
        self.runs.at(phase, level)
    }
}
