//! Chain: a number that goes down by one.
ghost use Rattle.std.specs.Prelude.{◌≡◌};
ghost use Rattle.gm_toys.specs.Subtraction.{number_text, step_text};
ghost use Rattle.gm_toys.specs.Chain.{chain};

use crate::countdown::CountsDown;
use gm_game::game::Game;
use gm_game::shown::Shown;

/// Goes down from `N` by one, so that each position is one move further from the end.
pub type Chain<const N: u32> = CountsDown<false, N>;

/// Chain's rules and texts are those that `specs/` states.
pub fn chain_is<const N: u32>()
    ensures rules { ⟦<Chain<N> as Game>⟧.rules ≡ chain N }
    ensures shown { ⟦<Chain<N> as Shown>⟧.shown ≡ number_text }
    ensures move_shown { ⟦<Chain<N> as Shown>⟧.move_shown ≡ step_text }
{}
