//! What Connect Four looks like.
ghost use Rattle.std.specs.Prelude.{◌≡◌};
ghost use Rattle.gm_draw.specs.Pictures.{texts, IsPictureOf};
ghost use Rattle.gm_connect.specs.ConnectPicture.{cell_names as cell_names_of, connect_title as connect_title_of, connect_board as connect_board_of, connect_picture as connect_picture_of};
ghost use Rattle.gm_connect.specs.Sizes.{size_of};
ghost use Rattle.gm_connect.specs.Texts.{position_text};
ghost use Rattle.gm_connect.specs.laws.ConnectPictured.{connect_pictured};

use crate::connect::{ConnectFour, ConnectFourRules};
use crate::size::Size;
use gm_draw::on_boards::PicturedMoves;
use gm_draw::pictured::{Mover, Picture, Pictured, Style};

// Returns the heading.
#[tactic(auto, unfolding(crate::specs::ConnectPicture::connect_title))]
fn connect_title(size: Size) -> &'static [u8]
    ensures { result.now ≡ connect_title_of size }
{
    match size {
        Size::FourByFour => b"Connect Four 4 by 4",
        Size::FiveByFour => b"Connect Four 5 by 4",
        Size::FourByFive => b"Connect Four 4 by 5",
        Size::FourBySix => b"Connect Four 4 by 6",
        Size::FiveByFive => b"Connect Four 5 by 5",
        Size::SixByFour => b"Connect Four 6 by 4",
    }
}

// Returns the board, the top row first.
#[tactic(auto, unfolding(crate::specs::ConnectPicture::connect_board))]
fn connect_board(size: Size) -> &'static [u8]
    ensures { result.now ≡ connect_board_of size }
{
    match size {
        Size::FourByFour => b"    1 2 3 4\na   A B C D\nb   E F G H\nc   I J K L\nd   M N O P",
        Size::FiveByFour => {
            b"    1 2 3 4 5\na   A B C D E\nb   F G H I J\nc   K L M N O\nd   P Q R S T"
        }
        Size::FourByFive => {
            b"    1 2 3 4\na   A B C D\nb   E F G H\nc   I J K L\nd   M N O P\ne   Q R S T"
        }
        Size::FourBySix => {
            b"    1 2 3 4\na   A B C D\nb   E F G H\nc   I J K L\nd   M N O P\ne   Q R S T\nf   U V W X"
        }
        Size::FiveByFive => {
            b"    1 2 3 4 5\na   A B C D E\nb   F G H I J\nc   K L M N O\nd   P Q R S T\ne   U V W X Y"
        }
        Size::SixByFour => {
            b"    1 2 3 4 5 6\na   A B C D E F\nb   G H I J K L\nc   M N O P Q R\nd   S T U V W X"
        }
    }
}

// Returns the names of the cells, row by row.
fn cell_names(size: Size) -> &'static [&'static [u8]]
    ensures { texts result.now ≡ cell_names_of size }
{
    match size {
        Size::FourByFour => &[
            b"1", b"2", b"3", b"4", b"b1", b"b2", b"b3", b"b4", b"c1", b"c2", b"c3", b"c4", b"d1",
            b"d2", b"d3", b"d4",
        ],
        Size::FiveByFour => &[
            b"1", b"2", b"3", b"4", b"5", b"b1", b"b2", b"b3", b"b4", b"b5", b"c1", b"c2", b"c3",
            b"c4", b"c5", b"d1", b"d2", b"d3", b"d4", b"d5",
        ],
        Size::FourByFive => &[
            b"1", b"2", b"3", b"4", b"b1", b"b2", b"b3", b"b4", b"c1", b"c2", b"c3", b"c4", b"d1",
            b"d2", b"d3", b"d4", b"e1", b"e2", b"e3", b"e4",
        ],
        Size::FourBySix => &[
            b"1", b"2", b"3", b"4", b"b1", b"b2", b"b3", b"b4", b"c1", b"c2", b"c3", b"c4", b"d1",
            b"d2", b"d3", b"d4", b"e1", b"e2", b"e3", b"e4", b"f1", b"f2", b"f3", b"f4",
        ],
        Size::FiveByFive => &[
            b"1", b"2", b"3", b"4", b"5", b"b1", b"b2", b"b3", b"b4", b"b5", b"c1", b"c2", b"c3",
            b"c4", b"c5", b"d1", b"d2", b"d3", b"d4", b"d5", b"e1", b"e2", b"e3", b"e4", b"e5",
        ],
        Size::SixByFour => &[
            b"1", b"2", b"3", b"4", b"5", b"6", b"b1", b"b2", b"b3", b"b4", b"b5", b"b6", b"c1",
            b"c2", b"c3", b"c4", b"c5", b"c6", b"d1", b"d2", b"d3", b"d4", b"d5", b"d6",
        ],
    }
}

impl<const COLUMNS: u32, const ROWS: u32> PicturedMoves for ConnectFourRules<COLUMNS, ROWS> {
    ghost picture = { connect_picture_of (size_of COLUMNS ROWS) };

    ghost pictured = { connect_pictured (size_of COLUMNS ROWS) };

    #[tactic(auto, unfolding(crate::specs::ConnectPicture::connect_picture))]
    fn picture() -> Picture {
        let size = Size::of(COLUMNS, ROWS);
        Picture {
            title: connect_title(size),
            style: Style::Stones,
            board: connect_board(size),
            rows: &[],
            points: cell_names(size),
            mover: Mover::Same(b"x"),
            naming: b"A cell is its row and its column, as b1; in the\ntop row it is its column.\nA position is its cells, row by row: x for the\nside to move, o for the other, . where it is empty\nA move is the column that a piece is dropped into.\n",
        }
    }
}

/// Has no effect; its contract states what Connect Four looks like.
pub fn connect_four_is_drawn<const COLUMNS: u32, const ROWS: u32>()
    ensures { ⟦<ConnectFour<COLUMNS, ROWS> as Pictured>⟧.picture ≡ connect_picture_of (size_of COLUMNS ROWS) }
{}
