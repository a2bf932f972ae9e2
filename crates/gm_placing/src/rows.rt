//! Games of rows: Tic-tac-toe on four by four, and Notakto. Misere Tic-tac-toe is a game of nine points.
ghost use Rattle.std.specs.Prelude.{◌≡◌};
ghost use Rattle.gm_patterns.specs.PatternGames.{pattern_rules};
ghost use Rattle.gm_patterns.specs.PatternTexts.{pattern_text, pattern_move_text};
ghost use Rattle.gm_placing.specs.RowRules.{tictactoe_four as four_game, notakto as notakto_game};
ghost use Rattle.gm_placing.specs.PlacingPictures.{tictactoe_four_picture, notakto_picture};
ghost use Rattle.gm_placing.specs.laws.PlacingTables.{tictactoe_four_right, notakto_right};

pub use gm_morris::games::{TicTacToeMisere, tictactoe_misere_is};
use gm_patterns::prelude::*;
use gm_patterns::{on_square, table};

/// The steps on three by three: a piece is placed on an empty cell.
pub(crate) const NINE: [Step; 9] = table![place 0, 1, 2, 3, 4, 5, 6, 7, 8];

/// The steps on four by four.
pub(crate) const SIXTEEN: [Step; 16] =
    table![place 0, 1, 2, 3, 4, 5, 6, 7, 8, 9, 10, 11, 12, 13, 14, 15];

/// Lines of three of the mover's. Each octal digit of a mask is a row.
const THREE_MINE: [Pattern; 8] =
    table![mine_on 0o007, 0o070, 0o700, 0o111, 0o222, 0o444, 0o421, 0o124];

/// Lines of four of the mover's. Each hexadecimal digit of a mask is a row.
const FOUR_MINE: [Pattern; 10] = table![
    mine_on
    0x000f, 0x00f0, 0x0f00, 0xf000, 0x1111, 0x2222, 0x4444, 0x8888, 0x8421, 0x1248
];

/// Lines of four of the opponent's.
const FOUR_THEIRS: [Pattern; 10] = table![
    theirs_on
    0x000f, 0x00f0, 0x0f00, 0xf000, 0x1111, 0x2222, 0x4444, 0x8888, 0x8421, 0x1248
];

/// The description of how cells, positions and moves are written if a piece is placed.
const PLACES: &[u8] =
    b"A cell is its row and its column, as a1.\nA position is its cells, row by row: x for the\nside to move, o for the other, . where it is empty\nA move is the cell that is taken.\n";

/// The same with common pieces.
const COMMON_PLACES: &[u8] =
    b"A cell is its row and its column, as a1.\nA position is its cells, row by row: x where it is\ntaken, . where it is empty.\nA move is the cell that is taken.\n";

/// The tables of Tic-tac-toe on four by four.
#[derive(Drop)]
pub struct TicTacToeFourRules;

/// Tic-tac-toe on four by four: a line of four wins (docs/GAMES.md, games of placing).
pub type TicTacToeFour = OnPatterns<16, TicTacToeFourRules>;

impl PatternRules<16> for TicTacToeFourRules {
    ghost game = { four_game };

    #[tactic(auto, unfolding(gm_board::specs::Images::board_of, gm_draw::specs::Points::square_points))]
    fn basics() -> Basics<16> {
        Basics {
            name: *b"tictactoe-4\0\0\0\0\0",
            start: Board { mine: 0, theirs: 0 },
            names: square_cells(4),
            tiers: Tiers::Placed,
            adds: true,
            swapped: true,
            ends: Ends {
                forbidden: &FOUR_MINE,
                lost: &FOUR_THEIRS,
                stuck: End::Tie,
                ..USUAL_ENDS
            },
        }
    }

    fn can_have(mine: u32, theirs: u32) -> bool {
        mine == theirs || mine + 1 == theirs
    }

    fn steps(_pieces: u32) -> &'static [Step] {
        &SIXTEEN
    }

    fn turned(mask: u32) -> u32 {
        mask
    }

    fn least_index(board: &Board<16>) -> u64 {
        board.least_index(4)
    }

    ghost picture = { tictactoe_four_picture };

    ghost right = { tictactoe_four_right };

    #[tactic(auto, unfolding(crate::specs::PlacingPictures::tictactoe_four_picture, gm_draw::specs::Points::square_points))]
    fn picture() -> Picture {
        Picture {
            title: b"Tic-Tac-Toe 4 by 4",
            style: Style::Crosses,
            board: b"    1   2   3   4\na   A | B | C | D\n   ---+---+---+---\nb   E | F | G | H\n   ---+---+---+---\nc   I | J | K | L\n   ---+---+---+---\nd   M | N | O | P",
            rows: &[],
            points: square_cells(4),
            mover: Mover::Same(b"x"),
            naming: PLACES,
        }
    }
}

/// The rules, texts and look of Tic-tac-toe on four by four are those that `specs/` states.
pub fn tictactoe_four_is()
    ensures rules { ⟦<TicTacToeFour as Game>⟧.rules ≡ pattern_rules 16 four_game }
    ensures shown { ⟦<TicTacToeFour as Shown>⟧.shown ≡ pattern_text 16 four_game }
    ensures move_shown { ⟦<TicTacToeFour as Shown>⟧.move_shown ≡ pattern_move_text 16 four_game }
    ensures picture { ⟦<TicTacToeFour as Pictured>⟧.picture ≡ tictactoe_four_picture }
{}

/// The tables of Notakto.
#[derive(Drop)]
pub struct NotaktoRules;

/// Notakto: both players place crosses, and who completes a line loses (docs/GAMES.md, games of placing).
pub type Notakto = OnPatterns<9, NotaktoRules>;

impl PatternRules<9> for NotaktoRules {
    ghost game = { notakto_game };

    #[tactic(auto, unfolding(gm_board::specs::Images::board_of, gm_draw::specs::Points::square_points))]
    fn basics() -> Basics<9> {
        Basics {
            name: *b"notakto\0\0\0\0\0\0\0\0\0",
            start: Board { mine: 0, theirs: 0 },
            names: square_cells(3),
            tiers: Tiers::Common,
            adds: true,
            swapped: false,
            ends: Ends {
                won: &THREE_MINE,
                stuck: End::Win,
                ..USUAL_ENDS
            },
        }
    }

    fn can_have(_mine: u32, theirs: u32) -> bool {
        theirs == 0
    }

    fn steps(_pieces: u32) -> &'static [Step] {
        &NINE
    }

    fn turned(mask: u32) -> u32 {
        mask
    }

    fn least_index(board: &Board<9>) -> u64 {
        board.least_index(3)
    }

    ghost picture = { notakto_picture };

    ghost right = { notakto_right };

    #[tactic(auto, unfolding(crate::specs::PlacingPictures::notakto_picture))]
    fn picture() -> Picture {
        on_square!(3, Style::Counters, b"Notakto", b"player", COMMON_PLACES)
    }
}

/// The rules, texts and look of Notakto are those that `specs/` states.
pub fn notakto_is()
    ensures rules { ⟦<Notakto as Game>⟧.rules ≡ pattern_rules 9 notakto_game }
    ensures shown { ⟦<Notakto as Shown>⟧.shown ≡ pattern_text 9 notakto_game }
    ensures move_shown { ⟦<Notakto as Shown>⟧.move_shown ≡ pattern_move_text 9 notakto_game }
    ensures picture { ⟦<Notakto as Pictured>⟧.picture ≡ notakto_picture }
{}
