//! Positions with their values.
ghost use Rattle.std.specs.Prelude.{◌≡◌};
ghost use Rattle.gm_frontier.specs.Notes.{IsNote};

use gm_game::game::Game;
use gm_game::position::{Position, Solved};
use std::marker::{Model, PhantomData};

/// A canonical position with its true value: Win, Lose or Tie.
#[derive_where(Clone, Copy, Debug)]
pub struct Note<G: Game> {
    position: Position,
    solved: Solved,
    game: PhantomData<G>,
}

impl<G: Game> Model for Note<G> {
    ghost use Rattle.gm_frontier.specs.Notes.{NoteData, IsNote};

    ghost Value = { NoteData };

    ghost view = { λ n. record { position = n.position; solved = n.solved } };

    ghost invariant = { λ n. IsNote G.rules n.position n.solved };

    ghost inverse = { λ n. record { position = n.position; solved = n.solved; game = record {} } };
}

impl<G: Game> Note<G> {
    /// Makes a note of a canonical position and its true value, which is no draw.
    pub fn of(position: Position, solved: Solved) -> Self
        requires { IsNote G.rules position solved }
        ensures position { result.position ≡ position }
        ensures solved { result.solved ≡ solved }
    {
        Note {
            position,
            solved,
            game: PhantomData,
        }
    }

    /// Returns the position.
    pub fn position(&self) -> Position
        ensures value { result ≡ self.now.position }
        ensures note { IsNote G.rules self.now.position self.now.solved }
    {
        self.position
    }

    /// Returns the value and remoteness of the position.
    pub fn solved(&self) -> Solved
        ensures value { result ≡ self.now.solved }
        ensures note { IsNote G.rules self.now.position self.now.solved }
    {
        self.solved
    }

    /// Returns the same note again.
    pub(crate) fn copied(&self) -> Self
        ensures { result ≡ self.now }
    {
        Note::of(self.position(), self.solved())
    }
}
