//! What the chess endings and Fox and Hounds look like.
ghost use Rattle.std.specs.Prelude.{◌≡◌};
ghost use Rattle.gm_squares.specs.Pictures.{chess_picture, foxhounds_picture, kpk_picture};
ghost use Rattle.gm_squares.specs.laws.MenPictured.{chess_pictured};
ghost use Rattle.gm_squares.specs.laws.PawnPictured.{kpk_pictured};
ghost use Rattle.gm_squares.specs.laws.ChasePictured.{foxhounds_pictured};

use crate::chess::ChessRules;
use crate::foxhounds::{FoxHounds, FoxRules};
use crate::kpk::{Kpk, PawnRules};
use gm_draw::chessboard::{chess_board, chess_squares};
use gm_draw::on_boards::PicturedMoves;
use gm_draw::pictured::{Mover, Picture, Pictured, Style};
use gm_pieces::on_boards::OnBoards;

// Returns the heading of an ending.
#[tactic(auto, unfolding(crate::specs::Pictures::chess_picture))]
fn title(queen: bool) -> &'static [u8]
    ensures { result.now ≡ (chess_picture queen).title }
{
    if queen {
        b"King and Queen against King"
    } else {
        b"King and Rook against King"
    }
}

// Returns the description of how squares, positions and moves are written.
#[tactic(auto, unfolding(crate::specs::Pictures::chess_picture))]
fn naming(queen: bool) -> &'static [u8]
    ensures { result.now ≡ (chess_picture queen).naming }
{
    if queen {
        b"A square is its file and its rank, as e4.\nA position is White's king and queen, as Ke1 Qa1,\nBlack's king, as ke8, and who moves: w or b.\nA move is a man's letter, its square, - and the\nsquare that it goes to.\n"
    } else {
        b"A square is its file and its rank, as e4.\nA position is White's king and rook, as Ke1 Ra1,\nBlack's king, as ke8, and who moves: w or b.\nA move is a man's letter, its square, - and the\nsquare that it goes to.\n"
    }
}

impl<const QUEEN: bool> PicturedMoves for ChessRules<QUEEN> {
    ghost picture = { chess_picture QUEEN };

    ghost pictured = { chess_pictured QUEEN };

    #[tactic(auto, using(crate::specs::laws::MenPictured::chess_named), unfolding(crate::specs::Pictures::chess_picture))]
    fn picture() -> Picture {
        Picture {
            title: title(QUEEN),
            style: Style::Chess,
            board: chess_board(),
            rows: &[],
            points: chess_squares(),
            mover: Mover::ByLast {
                byte: b'w',
                name: b"White",
                other: b"Black",
            },
            naming: naming(QUEEN),
        }
    }
}

impl PicturedMoves for PawnRules {
    ghost picture = { kpk_picture };

    ghost pictured = { kpk_pictured };

    #[tactic(auto, using(crate::specs::laws::PawnPictured::kpk_named), unfolding(crate::specs::Pictures::kpk_picture))]
    fn picture() -> Picture {
        Picture {
            title: b"King and Pawn against King",
            style: Style::Chess,
            board: chess_board(),
            rows: &[],
            points: chess_squares(),
            mover: Mover::ByLast {
                byte: b'w',
                name: b"White",
                other: b"Black",
            },
            naming: b"A square is its file and its rank, as e4.\nA position is White's king and pawn, as Ke1 Pe2,\nBlack's king, as ke8, and who moves: w or b.\nA move is a man's letter, its square, - and the\nsquare that it goes to; Qe7-e8 makes a queen.\n",
        }
    }
}

impl PicturedMoves for FoxRules {
    ghost picture = { foxhounds_picture };

    ghost pictured = { foxhounds_pictured };

    #[tactic(auto, using(crate::specs::laws::ChasePictured::foxhounds_named), unfolding(crate::specs::Pictures::foxhounds_picture))]
    fn picture() -> Picture {
        Picture {
            title: b"Fox and Hounds",
            style: Style::Hounds,
            board: chess_board(),
            rows: &[],
            points: chess_squares(),
            mover: Mover::ByLast {
                byte: b'h',
                name: b"hounds",
                other: b"fox",
            },
            naming: b"A square is its file and its rank, as e3.\nA position is the fox, as fd8, and the hounds, as\nha1, from the first rank up; then f or h for who\nmoves. A move is from one square to another.\n",
        }
    }
}

/// Has no effect; its contract states what the chess endings look like.
pub fn chess_is_drawn<const QUEEN: bool>()
    ensures { ⟦<OnBoards<ChessRules<QUEEN>> as Pictured>⟧.picture ≡ chess_picture QUEEN }
{}

/// Has no effect; its contract states what king and pawn against king looks like.
pub fn kpk_is_drawn()
    ensures { ⟦<Kpk as Pictured>⟧.picture ≡ kpk_picture }
{}

/// Has no effect; its contract states what Fox and Hounds looks like.
pub fn foxhounds_is_drawn()
    ensures { ⟦<FoxHounds as Pictured>⟧.picture ≡ foxhounds_picture }
{}
