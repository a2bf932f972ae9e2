//! Cram on four by four and on five by five.
ghost use Rattle.std.specs.Prelude.{◌≡◌};
ghost use Rattle.gm_patterns.specs.PatternGames.{pattern_rules};
ghost use Rattle.gm_patterns.specs.PatternTexts.{pattern_text, pattern_move_text};
ghost use Rattle.gm_dominoes.specs.DominoRules.{cram_four, cram_five};

use crate::tables::{DominoFive, DominoFour};
use gm_patterns::prelude::*;

/// Cram on four by four: who can't place a domino loses (docs/GAMES.md, games of dominoes and pins).
pub type CramFour = DominoFour<true>;

/// The rules and texts of Cram on four by four are those that `specs/` states.
pub fn cram_four_is()
    ensures rules { ⟦<CramFour as Game>⟧.rules ≡ pattern_rules 16 cram_four }
    ensures shown { ⟦<CramFour as Shown>⟧.shown ≡ pattern_text 16 cram_four }
    ensures move_shown { ⟦<CramFour as Shown>⟧.move_shown ≡ pattern_move_text 16 cram_four }
{}

/// Cram on five by five: who can't place a domino loses (docs/GAMES.md, games of dominoes and pins).
pub type CramFive = DominoFive<true>;

/// The rules and texts of Cram on five by five are those that `specs/` states.
pub fn cram_five_is()
    ensures rules { ⟦<CramFive as Game>⟧.rules ≡ pattern_rules 25 cram_five }
    ensures shown { ⟦<CramFive as Shown>⟧.shown ≡ pattern_text 25 cram_five }
    ensures move_shown { ⟦<CramFive as Shown>⟧.move_shown ≡ pattern_move_text 25 cram_five }
{}
