//! Clobber on four by four.
ghost use Rattle.std.specs.Prelude.{◌≡◌};
ghost use Rattle.gm_patterns.specs.PatternGames.{pattern_rules};
ghost use Rattle.gm_patterns.specs.PatternTexts.{pattern_text, pattern_move_text};
ghost use Rattle.gm_sliding.specs.ClobberRules.{clobber as clobber_game};
ghost use Rattle.gm_sliding.specs.SlidingPictures.{clobber_picture};
ghost use Rattle.gm_sliding.specs.laws.SlidingTables.{clobber_right};

use gm_patterns::prelude::*;
use gm_patterns::{on_square, table};

/// The steps: a piece takes one of the opponent's beside it.
const CAPTURES: [Step; 48] = table![
    capture
    0 1, 0 4, 1 0, 1 2, 1 5, 2 1, 2 3, 2 6, 3 2, 3 7, 4 0, 4 5, 4 8, 5 1, 5 4, 5 6, 5 9, 6 2, 6 5,
    6 7, 6 10, 7 3, 7 6, 7 11, 8 4, 8 9, 8 12, 9 5, 9 8, 9 10, 9 13, 10 6, 10 9, 10 11, 10 14, 11 7,
    11 10, 11 15, 12 8, 12 13, 13 9, 13 12, 13 14, 14 10, 14 13, 14 15, 15 11, 15 14
];

/// The description of how cells, positions and moves are written if a piece goes from cell to cell.
pub(crate) const SLIDES: &[u8] =
    b"A cell is its row and its column, as a1.\nA position is its cells, row by row: x for the\nside to move, o for the other, . where it is empty\nA move is from one cell to another.\n";

/// The tables of Clobber.
#[derive(Drop)]
pub struct ClobberRules;

/// Clobber on four by four: who can't take a piece loses (docs/GAMES.md, games of sliding and taking).
pub type Clobber = OnPatterns<16, ClobberRules>;

impl PatternRules<16> for ClobberRules {
    ghost game = { clobber_game };

    #[tactic(auto, unfolding(gm_board::specs::Images::board_of, gm_draw::specs::Points::square_points))]
    fn basics() -> Basics<16> {
        Basics {
            name: *b"clobber\0\0\0\0\0\0\0\0\0",
            start: Board {
                mine: 0xa5a5,
                theirs: 0x5a5a,
            },
            names: square_cells(4),
            tiers: Tiers::Sides,
            adds: false,
            swapped: true,
            ends: USUAL_ENDS,
        }
    }

    fn can_have(mine: u32, theirs: u32) -> bool {
        mine == theirs || mine + 1 == theirs
    }

    fn steps(_pieces: u32) -> &'static [Step] {
        &CAPTURES
    }

    fn turned(mask: u32) -> u32 {
        mask
    }

    fn least_index(board: &Board<16>) -> u64 {
        board.least_index(4)
    }

    ghost picture = { clobber_picture };

    ghost right = { clobber_right };

    #[tactic(auto, unfolding(crate::specs::SlidingPictures::clobber_picture))]
    fn picture() -> Picture {
        on_square!(4, Style::Stones, b"Clobber 4 by 4", b"x", SLIDES)
    }
}

/// The rules, texts and look of Clobber are those that `specs/` states.
pub fn clobber_is()
    ensures rules { ⟦<Clobber as Game>⟧.rules ≡ pattern_rules 16 clobber_game }
    ensures shown { ⟦<Clobber as Shown>⟧.shown ≡ pattern_text 16 clobber_game }
    ensures move_shown { ⟦<Clobber as Shown>⟧.move_shown ≡ pattern_move_text 16 clobber_game }
    ensures picture { ⟦<Clobber as Pictured>⟧.picture ≡ clobber_picture }
{}
