//! What Nim and Chomp look like.
ghost use Rattle.std.specs.Prelude.{◌≡◌};
ghost use Rattle.gm_draw.specs.Pictures.{texts};
ghost use Rattle.gm_numbers.specs.NumbersPictures.{number_places as number_places_of, nim_title as nim_title_of, nim_picture, chomp_picture};
ghost use Rattle.gm_numbers.specs.laws.NumbersPictured.{nim_pictured, chomp_pictured};

use crate::chomp::{Chomp, ChompRules};
use crate::nim::{Nim, NimRules};
use gm_draw::on_boards::{PicturedMoves, PicturedNumbers};
use gm_draw::pictured::{Mover, Picture, Pictured, Style};

// Returns the names of the places of a text.
#[tactic(auto, unfolding(crate::specs::NumbersPictures::number_places))]
fn number_places() -> &'static [&'static [u8]]
    ensures { texts result.now ≡ number_places_of }
{
    &[b"1", b"5", b"2", b"6", b"3", b"7", b"4"]
}

// Returns the heading of Nim.
#[tactic(auto, unfolding(crate::specs::NumbersPictures::nim_title))]
fn nim_title(misere: bool) -> &'static [u8]
    ensures { result.now ≡ nim_title_of misere }
{
    if misere { b"Nim, misere" } else { b"Nim" }
}

impl<const MISERE: bool> PicturedNumbers for NimRules<MISERE> {
    ghost picture = { nim_picture MISERE };

    ghost pictured = { nim_pictured MISERE };

    #[tactic(auto, unfolding(crate::specs::NumbersPictures::nim_picture))]
    fn picture() -> Picture {
        Picture {
            title: nim_title(MISERE),
            style: Style::Digits,
            board: b"heap      1   2   3   4\ncounters  A B C D E F G",
            rows: &[],
            points: number_places(),
            mover: Mover::Same(b"player"),
            naming: b"A position is how many counters are left in the\nfour heaps, as 1 3 5 7. A move is a heap and how\nmany counters are taken from it, as 2-3.\n",
        }
    }
}

/// Has no effect; its contract states what Nim looks like.
pub fn nim_is_drawn<const MISERE: bool>()
    ensures { ⟦<Nim<MISERE> as Pictured>⟧.picture ≡ nim_picture MISERE }
{}

impl PicturedMoves for ChompRules {
    ghost picture = { chomp_picture };

    ghost pictured = { chomp_pictured };

    #[tactic(auto, unfolding(crate::specs::NumbersPictures::chomp_picture))]
    fn picture() -> Picture {
        Picture {
            title: b"Chomp",
            style: Style::Digits,
            board: b"row      1   2   3   4\nsquares  A B C D E F G",
            rows: &[],
            points: number_places(),
            mover: Mover::Same(b"player"),
            naming: b"A position is how long the four rows of the bar\nare, the top row first, as 7 7 3 1. A move is the\nrow and the column of a square, as 2-5: this\nsquare is bitten off, with all to the right and\nbelow.\n",
        }
    }
}

/// Has no effect; its contract states what Chomp looks like.
pub fn chomp_is_drawn()
    ensures { ⟦<Chomp as Pictured>⟧.picture ≡ chomp_picture }
{}
