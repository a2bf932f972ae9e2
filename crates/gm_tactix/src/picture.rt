//! What Tac Tix looks like.
ghost use Rattle.std.specs.Prelude.{◌≡◌, ◌≤◌};
ghost use Rattle.gm_tactix.specs.Board.{side_of};
ghost use Rattle.gm_tactix.specs.TactixPicture.{tactix_picture, tactix_title as tactix_title_of, tactix_board as tactix_board_of};
ghost use Rattle.gm_tactix.specs.laws.TactixPictured.{tactix_pictured};

use crate::side::side_for;
use crate::tactix::{TacTix, TacTixRules};
use gm_draw::cells::square_cells;
use gm_draw::on_boards::PicturedMoves;
use gm_draw::pictured::{Mover, Picture, Pictured, Style};

// Returns the heading of Tac Tix on a square of side 1 to 5.
#[tactic(auto, unfolding(crate::specs::TactixPicture::tactix_title))]
fn tactix_title(side: u32, misere: bool) -> &'static [u8]
    requires low { 1 ≤ side }
    requires high { side ≤ 5 }
    ensures { result.now ≡ tactix_title_of side misere }
{
    match (side, misere) {
        (5, false) => b"Tac Tix 5 by 5",
        (5, true) => b"Tac Tix 5 by 5, misere",
        (4, false) => b"Tac Tix 4 by 4",
        (4, true) => b"Tac Tix 4 by 4, misere",
        (3, false) => b"Tac Tix 3 by 3",
        (3, true) => b"Tac Tix 3 by 3, misere",
        (2, false) => b"Tac Tix 2 by 2",
        (2, true) => b"Tac Tix 2 by 2, misere",
        (_, false) => b"Tac Tix 1 by 1",
        (_, true) => b"Tac Tix 1 by 1, misere",
    }
}

// Returns the board of Tac Tix on a square of this side.
#[tactic(auto, unfolding(crate::specs::TactixPicture::tactix_board))]
fn tactix_board(side: u32) -> &'static [u8]
    ensures { result.now ≡ tactix_board_of side }
{
    match side {
        5 => {
            b"    1 2 3 4 5\na   A B C D E\nb   F G H I J\nc   K L M N O\nd   P Q R S T\ne   U V W X Y"
        }
        4 => b"    1 2 3 4\na   A B C D\nb   E F G H\nc   I J K L\nd   M N O P",
        3 => b"    1 2 3\na   A B C\nb   D E F\nc   G H I",
        2 => b"    1 2\na   A B\nb   C D",
        _ => b"    1\na   A",
    }
}

impl<const N: u32, const MISERE: bool> PicturedMoves for TacTixRules<N, MISERE> {
    ghost picture = { tactix_picture (side_of N) MISERE };

    ghost pictured = { tactix_pictured N MISERE };

    #[tactic(auto, unfolding(crate::specs::TactixPicture::tactix_picture))]
    fn picture() -> Picture {
        let side = side_for(N);
        Picture {
            title: tactix_title(side, MISERE),
            style: Style::Counters,
            board: tactix_board(side),
            rows: &[],
            points: square_cells(side),
            mover: Mover::Same(b"player"),
            naming: b"A cell is its row and its column, as a1.\nA position is its cells, row by row: x for a\ncounter, . where there is none.\nA move is the counter that is taken, or the first\nand the last of neighbors in a row or a column.\n",
        }
    }
}

/// Has no effect; its contract states what Tac Tix looks like.
pub fn tactix_is_drawn<const N: u32, const MISERE: bool>()
    ensures { ⟦<TacTix<N, MISERE> as Pictured>⟧.picture ≡ tactix_picture (side_of N) MISERE }
{}
