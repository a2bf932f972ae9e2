//! Mu Torere.
ghost use Rattle.std.specs.Prelude.{◌≡◌};
ghost use Rattle.gm_patterns.specs.PatternGames.{pattern_rules};
ghost use Rattle.gm_patterns.specs.PatternTexts.{pattern_text, pattern_move_text};
ghost use Rattle.gm_ways.specs.Ways.{mutorere};

use crate::ways::Ways;
use gm_patterns::prelude::*;

/// Mu Torere: a move goes to the one empty point, and a player who can't move loses (docs/GAMES.md, Mu Torere).
pub type MuTorere = Ways<2>;

/// The rules and texts of Mu Torere are those that `specs/` states.
#[tactic(auto, unfolding(crate::specs::Ways::variant_of))]
pub fn mutorere_is()
    ensures rules { ⟦<MuTorere as Game>⟧.rules ≡ pattern_rules 9 mutorere }
    ensures shown { ⟦<MuTorere as Shown>⟧.shown ≡ pattern_text 9 mutorere }
    ensures move_shown { ⟦<MuTorere as Shown>⟧.move_shown ≡ pattern_move_text 9 mutorere }
{}
