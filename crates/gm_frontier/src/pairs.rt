//! The pairs of a level's notes, one after another.
ghost use Rattle.std.specs.Prelude.{◌≡◌, ◌≤◌, length};
ghost use Rattle.std.specs.Iterator.{YieldsFirst, item_count};
ghost use Rattle.gm_frontier.specs.Pairs.{pairs_of};
ghost use Rattle.gm_frontier.specs.inner.Rows.{stretch};

use crate::level::Level;
use crate::note::Note;
use crate::row::Row;
use gm_game::game::Game;
use std::marker::Model;

/// The pairs of some notes of a level into an index range. Contracts see the list of those that are still to come.
#[derive(Drop)]
pub struct Pairs<'a, G: Game> {
    level: &'a Level<'a, G>,
    row: Row<G>,
    from: usize,
    to: usize,
    lo: u64,
    hi: u64,
}

impl<'a, G: Game> Model for Pairs<'a, G> {
    ghost use Rattle.std.specs.Prelude.{ℕ, List, ◌++◌, ◌≤◌, length};
    ghost use Rattle.gm_frontier.specs.Notes.{NoteData};
    ghost use Rattle.gm_frontier.specs.Pairs.{pairs_of};
    ghost use Rattle.gm_frontier.specs.inner.Rows.{stretch};

    ghost Value = { List (NoteData × ℕ) };

    ghost view = { λ p. p.row ++ pairs_of G.rules p.level.now.place.tier p.lo p.hi (stretch p.from p.to p.level.now.notes) };

    ghost invariant = { λ p. p.to ≤ length p.level.now.notes };
}

impl<'a, G: Game> Iterator for Pairs<'a, G> {
    type Item = (Note<G>, u64);

    ghost next_gives = { YieldsFirst (λ pairs. pairs) };

    ghost remaining = { item_count (λ pairs. pairs) };

    fn next(&mut self) -> Option<(Note<G>, u64)> {
        loop {
            if let Some(pair) = self.row.next() {
                return Some(pair);
            }
            if self.from >= self.to {
                return None;
            }
            let note = self.level.note(self.from);
            self.row.take_up(note, self.level.tier(), self.lo, self.hi);
            self.from += 1;
        }
    }
}

impl<'a, G: Game> Pairs<'a, G> {
    /// Returns the pairs of the level's notes from one number up to another.
    pub(crate) fn of(
        level: &'a Level<'a, G>,
        from: usize,
        to: usize,
        lo: u64,
        hi: u64,
    ) -> Pairs<'a, G>
        requires { to ≤ length level.now.notes }
        ensures { result ≡ pairs_of G.rules level.now.place.tier lo hi (stretch from to level.now.notes) }
    {
        Pairs {
            level,
            row: Row::empty(),
            from,
            to,
            lo,
            hi,
        }
    }
}
