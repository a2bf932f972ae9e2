//! What Dodgem looks like.
ghost use Rattle.std.specs.Prelude.{◌≡◌};
ghost use Rattle.gm_dodgem.specs.DodgemPicture.{dodgem_picture};
ghost use Rattle.gm_dodgem.specs.laws.DodgemPictured.{dodgem_pictured};

use crate::dodgem::{Dodgem, DodgemRules};
use gm_draw::cells::square_cells;
use gm_draw::on_boards::PicturedNumbers;
use gm_draw::pictured::{Mover, Picture, Pictured, Style};

impl PicturedNumbers for DodgemRules {
    ghost picture = { dodgem_picture };

    ghost pictured = { dodgem_pictured };

    #[tactic(auto, unfolding(crate::specs::DodgemPicture::dodgem_picture))]
    fn picture() -> Picture {
        Picture {
            title: b"Dodgem",
            style: Style::Stones,
            board: b"    1 2 3\na   A B C\nb   D E F\nc   G H I",
            rows: &[],
            points: square_cells(3),
            mover: Mover::Same(b"x"),
            naming: b"A cell is its row and its column, as a1.\nA position is its cells, row by row: x for the\nside to move, o for the other, . where it is empty\nYour cars go to the right, up or down. A move is\nfrom one cell to the next; a car that leaves the\nboard to the right is written as its cell.\n",
        }
    }
}

/// Has no effect; its contract states what Dodgem looks like.
pub fn dodgem_is_drawn()
    ensures { ⟦<Dodgem as Pictured>⟧.picture ≡ dodgem_picture }
{}
