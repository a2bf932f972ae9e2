//! The parts that a level is made of.
ghost use Rattle.std.specs.Prelude.{◌≡◌, ℕ, ◌<◌, ◌^◌, length, slice_get, Some, ◌++◌, OnOk};
ghost use Rattle.std.specs.List.{Contains, flat_map};
ghost use Rattle.gm_table.specs.Tables.{IsHeld};
ghost use Rattle.gm_frontier.specs.Notes.{joined};
ghost use Rattle.gm_frontier.specs.Levels.{IsChildPart, AreRuns};
ghost use Rattle.gm_frontier.specs.inner.Records.{notes_at, notes_of_tier, AreRecorded};

use crate::note::Note;
use crate::run::Run;
use gm_game::game::Game;
use gm_game::position::{Place, Position};
use gm_table::table::Table;
use gm_table::tables::Tables;
use std::alloc::AllocError;
use std::marker::Model;

/// The source of the notes of a part: a run, or the records of a table at some of its indexes.
#[derive(Drop)]
enum Source<'a, G: Game> {
    Listed(&'a [Note<G>]),
    Recorded(&'a Table<G>, &'a [u32]),
}

// Returns a note of a list.
fn listed_note<G: Game>(notes: &[Note<G>], k: usize) -> Note<G>
    requires { k < length notes.now }
    ensures { slice_get notes.now k ≡ Some result }
{
    let note = &notes[k];
    note.copied()
}

// Returns the note of an index by its record.
fn recorded_note<G: Game>(table: &Table<G>, indexes: &[u32], k: usize) -> Note<G>
    requires recorded { AreRecorded G.rules table.now indexes.now }
    requires index { k < length indexes.now }
    ensures { slice_get (notes_at table.now indexes.now) k ≡ Some result }
{
    let index = u64::from(indexes[k]);
    let solved = table.at(index).unwrap();
    let tier = table.tier();
    Note::of(Position { tier, index }, solved)
}

/// Some notes of a level in one tier.
#[derive(Drop)]
pub(crate) struct Part<'a, G: Game> {
    source: Source<'a, G>,
}

impl<'a, G: Game> Model for Part<'a, G> {
    ghost use Rattle.std.specs.Prelude.{List};
    ghost use Rattle.gm_frontier.specs.Notes.{NoteData};

    ghost Value = { List NoteData };

    ghost use Rattle.gm_frontier.specs.inner.Parts.{notes_from, IsSource};

    ghost view = { λ p. notes_from p.source };

    ghost invariant = { λ p. IsSource G.rules p.source };
}

impl<'a, G: Game> Part<'a, G> {
    /// Returns the notes of a run.
    pub(crate) fn listed(notes: &'a [Note<G>]) -> Part<'a, G>
        ensures { result ≡ notes.now }
    {
        Part {
            source: Source::Listed(notes),
        }
    }

    /// Returns the notes of some indexes of a table.
    pub(crate) fn recorded(table: &'a Table<G>, indexes: &'a [u32]) -> Part<'a, G>
        requires { AreRecorded G.rules table.now indexes.now }
        ensures { result ≡ notes_at table.now indexes.now }
    {
        Part {
            source: Source::Recorded(table, indexes),
        }
    }

    /// Returns how many notes there are.
    pub(crate) fn len(&self) -> usize
        ensures { result ≡ length self.now }
    {
        match &self.source {
            Source::Listed(notes) => notes.len(),
            Source::Recorded(_, indexes) => indexes.len(),
        }
    }

    /// Returns the note with this number.
    pub(crate) fn note(&self, k: usize) -> Note<G>
        requires { k < length self.now }
        ensures { slice_get self.now k ≡ Some result }
    {
        match &self.source {
            Source::Listed(notes) => listed_note(notes, k),
            Source::Recorded(table, indexes) => recorded_note(table, indexes, k),
        }
    }
}

/// Returns the notes of a tier at a place, by its table.
fn child_part<'a, G: Game>(tables: &'a Tables<G>, tier: u64, place: Place) -> Part<'a, G>
    requires { IsHeld tables.now tier }
    ensures notes { result ≡ notes_of_tier tables.now place tier }
    ensures whole { IsChildPart G.rules place tier result }
{
    let table = tables.table(tier).unwrap();
    Part::recorded(table, tables.run(tier, place.phase, place.level))
}

// Adds a part, unless it is empty.
fn push_part<'a, G: Game>(parts: &mut Vec<Part<'a, G>>, part: Part<'a, G>) -> Result<(), AllocError>
    ensures { OnOk result (joined parts.new.items ≡ joined parts.old.items ++ part.entry) }
{
    if part.len() == 0 {
        return Ok(());
    }
    parts.push(part)?;
    Ok(())
}

/// Adds the notes of some runs.
pub(crate) fn push_runs<'a, G: Game>(
    parts: &mut Vec<Part<'a, G>>,
    runs: &'a [Run<G>],
) -> Result<(), AllocError>
    ensures notes { OnOk result (joined parts.new.items ≡ joined parts.old.items ++ flat_map (λ run. run.notes) runs.now) }
    ensures whole { OnOk result (AreRuns G.rules runs.now) }
{
    for run in runs {
        push_part(parts, Part::listed(run.list()))?;
    }
    Ok(())
}

/// Adds the notes of some held tiers at a place.
pub(crate) fn push_children<'a, G: Game>(
    parts: &mut Vec<Part<'a, G>>,
    tiers: &[u64],
    place: Place,
    tables: &'a Tables<G>,
) -> Result<(), AllocError>
    requires { (tier : ℕ) → Contains tiers.now tier → IsHeld tables.now tier }
    ensures notes { OnOk result (joined parts.new.items ≡ joined parts.old.items ++ flat_map (notes_of_tier tables.now place) tiers.now) }
    ensures whole { OnOk result ((tier : ℕ) → Contains tiers.now tier → IsChildPart G.rules place tier (notes_of_tier tables.now place tier)) }
{
    for tier in tiers {
        push_part(parts, child_part(tables, *tier, place))?;
    }
    Ok(())
}

/// Returns how many notes the parts have together.
pub(crate) fn note_count<'a, G: Game>(parts: &[Part<'a, G>]) -> usize
    requires { length (joined parts.now) < 2 ^ 64 }
    ensures { result ≡ length (joined parts.now) }
{
    let mut count = 0;
    for part in parts {
        count += part.len();
    }
    count
}

/// Returns the note with this number in the parts, one after another.
pub(crate) fn note_in<'a, G: Game>(parts: &[Part<'a, G>], k: usize) -> Note<G>
    requires { k < length (joined parts.now) }
    ensures { slice_get (joined parts.now) k ≡ Some result }
{
    let mut left = k;
    let mut passed = 0;
    while left >= parts[passed].len() {
        left -= parts[passed].len();
        passed += 1;
    }
    parts[passed].note(left)
}
