//! What Dao looks like.
ghost use Rattle.std.specs.Prelude.{◌≡◌};
ghost use Rattle.gm_dao.specs.DaoPicture.{dao_picture};
ghost use Rattle.gm_dao.specs.laws.DaoPictured.{dao_pictured};

use crate::dao::{Dao, DaoRules};
use gm_draw::cells::square_cells;
use gm_draw::on_boards::PicturedMoves;
use gm_draw::pictured::{Mover, Picture, Pictured, Style};

impl PicturedMoves for DaoRules {
    ghost picture = { dao_picture };

    ghost pictured = { dao_pictured };

    #[tactic(auto, unfolding(crate::specs::DaoPicture::dao_picture))]
    fn picture() -> Picture {
        Picture {
            title: b"Dao",
            style: Style::Stones,
            board: b"    1 2 3 4\na   A B C D\nb   E F G H\nc   I J K L\nd   M N O P",
            rows: &[],
            points: square_cells(4),
            mover: Mover::Same(b"x"),
            naming: b"A cell is its row and its column, as a1.\nA position is its cells, row by row: x for the\nside to move, o for the other, . where it is empty\nA move is from one cell to another; a piece\nslides as far as it can.\n",
        }
    }
}

/// Has no effect; its contract states what Dao looks like.
pub fn dao_is_drawn()
    ensures { ⟦<Dao as Pictured>⟧.picture ≡ dao_picture }
{}
