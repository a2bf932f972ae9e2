//! What games of patterns look like.
ghost use Rattle.std.specs.Prelude.{◌≡◌};
ghost use Rattle.gm_patterns.specs.PatternPictures.{square_board as square_board_of};

use crate::on_patterns::PatternMoves;
use crate::rules::PatternRules;
use gm_draw::on_boards::PicturedMoves;
use gm_draw::pictured::Picture;

impl<const CELLS: u32, T: PatternRules<CELLS>> PicturedMoves for PatternMoves<CELLS, T> {
    ghost picture = { T.picture };

    ghost pictured = { T.right.pictured };

    fn picture() -> Picture {
        T::picture()
    }
}

/// Returns a square of side 3 to 5, with the names of its rows and its columns.
#[tactic(auto, unfolding(crate::specs::PatternPictures::square_board))]
pub fn square_board(side: u32) -> &'static [u8]
    ensures { result.now ≡ square_board_of side }
{
    match side {
        5 =>
            b"    1 2 3 4 5\na   A B C D E\nb   F G H I J\nc   K L M N O\nd   P Q R S T\ne   U V W X Y",
        4 => b"    1 2 3 4\na   A B C D\nb   E F G H\nc   I J K L\nd   M N O P",
        _ => b"    1 2 3\na   A B C\nb   D E F\nc   G H I",
    }
}

/// Writes the picture of a game on a square of side 3 to 5, by the look of its men, its title, the side to move, and how cells, positions and moves are written.
#[macro_export]
macro_rules! on_square {
    ($side:literal, $style:expr, $title:expr, $mover:literal, $naming:expr $(,)?) => {
        $crate::prelude::Picture {
            title: $title,
            style: $style,
            board: $crate::picture::square_board($side),
            rows: &[],
            points: $crate::prelude::square_cells($side),
            mover: $crate::prelude::Mover::Same($mover),
            naming: $naming,
        }
    };
}
