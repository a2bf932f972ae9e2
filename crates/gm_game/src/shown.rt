//! The texts of positions and moves.
ghost use Rattle.std.specs.Prelude.{◌≡◌, ◌↔◌, true, Some, List, ℕ};
ghost use Rattle.std.specs.List.{Contains};
ghost use Rattle.gm_game.specs.declared.position.Position.{Position};
ghost use Rattle.gm_game.specs.Shown.{IsShown};

use crate::game::Game;
use crate::limits::LINE;
use crate::position::Position;
use arrayvec::ArrayVec;

/// A text of at most 64 bytes.
pub type Line = ArrayVec<u8, LINE>;

/// A game whose positions and moves have texts, which can be read back.
pub trait Shown: Game {
    /// The text of a position.
    ghost shown: { Position → List ℕ };

    /// The text of a move from a position.
    ghost move_shown: { Position → ℕ → List ℕ };

    /// Returns the text of a legal position.
    fn show(p: Position) -> Line
        requires { Self.rules.is_legal p ≡ true }
        ensures { result.items ≡ shown p };

    /// Returns the legal position with this text, if there is one. Any bytes may be given.
    fn read(text: &[u8]) -> Option<Position>
        ensures { (p : Position) → (result ≡ Some p) ↔ ((Self.rules.is_legal p ≡ true) × (shown p ≡ text.now)) };

    /// Returns the text of a move from a legal position.
    fn move_text(p: Position, m: u32) -> Line
        requires legal { Self.rules.is_legal p ≡ true }
        requires listed { Contains (Self.rules.moves p) m }
        ensures { result.items ≡ move_shown p m };

    /// Returns the move from a legal position with this text, if there is one. Any bytes may be given.
    fn read_move(p: Position, text: &[u8]) -> Option<u32>
        requires { Self.rules.is_legal p ≡ true }
        ensures { (m : ℕ) → (result ≡ Some m) ↔ (Contains (Self.rules.moves p) m × (move_shown p m ≡ text.now)) };

    /// The laws of texts: each is of visible ASCII characters and spaces, and fits a `Line`; different positions, and different moves of a position, have
    /// different texts.
    ghost readable: { IsShown Self.rules shown move_shown };
}

/// Has no effect; its contract states the laws of a game's texts.
pub fn texts<G: Shown>()
    ensures { IsShown G.Game.rules G.shown G.move_shown }
{}
