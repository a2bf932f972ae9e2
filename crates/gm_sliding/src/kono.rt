//! Four Field Kono.
ghost use Rattle.std.specs.Prelude.{◌≡◌};
ghost use Rattle.gm_patterns.specs.PatternGames.{pattern_rules};
ghost use Rattle.gm_patterns.specs.PatternTexts.{pattern_text, pattern_move_text};
ghost use Rattle.gm_sliding.specs.KonoRules.{kono as kono_game};
ghost use Rattle.gm_sliding.specs.SlidingPictures.{kono_picture};
ghost use Rattle.gm_sliding.specs.laws.SlidingTables.{kono_right};

use crate::clobber::SLIDES;
use gm_patterns::prelude::*;
use gm_patterns::{on_square, table};

/// The steps: a man goes to a free cell beside its own, or over one of its own side onto one of the opponent's, which it takes.
const STEPS: [Step; 80] = table![
    slide
    0 1, 0 4, 1 0, 1 2, 1 5, 2 1, 2 3, 2 6, 3 2, 3 7, 4 0, 4 5, 4 8, 5 1, 5 4, 5 6, 5 9, 6 2, 6 5,
    6 7, 6 10, 7 3, 7 6, 7 11, 8 4, 8 9, 8 12, 9 5, 9 8, 9 10, 9 13, 10 6, 10 9, 10 11, 10 14, 11 7,
    11 10, 11 15, 12 8, 12 13, 13 9, 13 12, 13 14, 14 10, 14 13, 14 15, 15 11, 15 14;
    vault
    0 1 2, 0 4 8, 1 2 3, 1 5 9, 2 1 0, 2 6 10, 3 2 1, 3 7 11, 4 5 6, 4 8 12, 5 6 7, 5 9 13, 6 5 4,
    6 10 14, 7 6 5, 7 11 15, 8 4 0, 8 9 10, 9 5 1, 9 10 11, 10 6 2, 10 9 8, 11 7 3, 11 10 9, 12 8 4,
    12 13 14, 13 9 5, 13 14 15, 14 10 6, 14 13 12, 15 11 7, 15 14 13
];

/// The tables of Four Field Kono.
#[derive(Drop)]
pub struct KonoRules;

/// Four Field Kono: who has fewer than two men or can't move loses (docs/GAMES.md, games of sliding and taking).
pub type Kono = OnPatterns<16, KonoRules>;

impl PatternRules<16> for KonoRules {
    ghost game = { kono_game };

    #[tactic(auto, unfolding(gm_board::specs::Images::board_of, gm_draw::specs::Points::square_points))]
    fn basics() -> Basics<16> {
        Basics {
            name: *b"kono\0\0\0\0\0\0\0\0\0\0\0\0",
            start: Board {
                mine: 0xff00,
                theirs: 0x00ff,
            },
            names: square_cells(4),
            tiers: Tiers::Sides,
            adds: false,
            swapped: true,
            ends: Ends {
                over: Some((2, End::Lose)),
                ..USUAL_ENDS
            },
        }
    }

    fn can_have(mine: u32, theirs: u32) -> bool {
        (0 < mine && mine <= 8) && (1 < theirs && theirs <= 8)
    }

    fn steps(_pieces: u32) -> &'static [Step] {
        &STEPS
    }

    fn turned(mask: u32) -> u32 {
        mask
    }

    fn least_index(board: &Board<16>) -> u64 {
        board.least_index(4)
    }

    ghost picture = { kono_picture };

    ghost right = { kono_right };

    #[tactic(auto, unfolding(crate::specs::SlidingPictures::kono_picture))]
    fn picture() -> Picture {
        on_square!(4, Style::Stones, b"Four Field Kono", b"x", SLIDES)
    }
}

/// The rules, texts and look of Four Field Kono are those that `specs/` states.
pub fn kono_is()
    ensures rules { ⟦<Kono as Game>⟧.rules ≡ pattern_rules 16 kono_game }
    ensures shown { ⟦<Kono as Shown>⟧.shown ≡ pattern_text 16 kono_game }
    ensures move_shown { ⟦<Kono as Shown>⟧.move_shown ≡ pattern_move_text 16 kono_game }
    ensures picture { ⟦<Kono as Pictured>⟧.picture ≡ kono_picture }
{}
