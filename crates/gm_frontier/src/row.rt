//! One note with its parents in a range.
ghost use Rattle.std.specs.Prelude.{◌≡◌, ◌≤◌, length, [], ◌∷◌, filter, MatchOption};
ghost use Rattle.gm_frontier.specs.Pairs.{is_within, pairs_of_note};

use crate::note::Note;
use arrayvec::ArrayVec;
use gm_game::game::Game;
use gm_game::limits::PARENTS;
use std::marker::Model;

/// The pairs of one note that are still to come. Contracts see their list.
#[derive(Drop)]
pub(crate) struct Row<G: Game> {
    note: Option<Note<G>>,
    parents: ArrayVec<u64, PARENTS>,
    passed: usize,
}

impl<G: Game> Model for Row<G> {
    ghost use Rattle.std.specs.Prelude.{ℕ, List, drop};
    ghost use Rattle.gm_frontier.specs.Notes.{NoteData};
    ghost use Rattle.gm_frontier.specs.inner.Rows.{row_pairs};

    ghost Value = { List (NoteData × ℕ) };

    ghost view = { λ r. row_pairs r.note (drop r.passed r.parents.items) };
}

// Removes the indexes of a list that aren't from `lo` up to `hi`.
fn keep_within(list: &mut ArrayVec<u64, PARENTS>, lo: u64, hi: u64)
    ensures { list.new.items ≡ filter (is_within lo hi) list.old.items }
{
    list.retain(|index| lo <= *index && *index < hi);
}

impl<G: Game> Row<G> {
    /// Returns an empty row.
    pub(crate) fn empty() -> Row<G>
        ensures { result ≡ [] }
    {
        Row {
            note: None,
            parents: ArrayVec::new(),
            passed: 0,
        }
    }

    /// Takes up the pairs of a note with its parents in the tier from `lo` up to `hi`, in place of those that are still to come.
    pub(crate) fn take_up(&mut self, note: Note<G>, tier: u64, lo: u64, hi: u64)
        ensures { self.new ≡ pairs_of_note G.rules tier lo hi note }
    {
        G::fill_parents(note.position(), tier, &mut self.parents);
        keep_within(&mut self.parents, lo, hi);
        self.note = Some(note);
        self.passed = 0;
    }

    /// Returns the next pair.
    pub(crate) fn next(&mut self) -> Option<(Note<G>, u64)>
        ensures { MatchOption result ((self.old ≡ []) × (self.new ≡ [])) (λ pair. self.old ≡ pair ∷ self.new) }
    {
        let note = self.note.as_ref()?;
        let parent = *self.parents.as_slice().get(self.passed)?;
        self.passed += 1;
        Some((note.copied(), parent))
    }
}
