//! Pictures of games on boards: the rules of a game state what it looks like.
ghost use Rattle.gm_pieces.specs.MoveGames.{move_rules};
ghost use Rattle.gm_pieces.specs.MoveTexts.{position_text_by, move_text_by};
ghost use Rattle.gm_pieces.specs.Small.{small_game};
ghost use Rattle.gm_draw.specs.Pictures.{PictureSpec, IsPictureOf};
ghost use Rattle.gm_draw.specs.Pictured.{IsPictured};

use crate::pictured::{Picture, Pictured};
use gm_pieces::lists::MoveLists;
use gm_pieces::on_boards::OnBoards;
use gm_pieces::on_numbers::SmallMoves;
use gm_pieces::small_rules::SmallRules;

/// The rules of a game with numbered moves, and what the game looks like.
pub trait PicturedMoves: MoveLists {
    /// What the game looks like.
    ghost picture: { PictureSpec };

    /// Returns what the game looks like.
    fn picture() -> Picture
        ensures { IsPictureOf result (position_text_by Self.game Self.text) picture };

    /// The laws of pictures.
    ghost pictured: { IsPictured (move_rules Self.game) (position_text_by Self.game Self.text) (move_text_by Self.step_text) picture };
}

impl<T: PicturedMoves> Pictured for OnBoards<T> {
    ghost picture = { T.picture };

    ghost pictured = { T.pictured };

    fn picture() -> Picture {
        T::picture()
    }
}

/// The rules of a small game, and what the game looks like.
pub trait PicturedNumbers: SmallRules {
    /// What the game looks like.
    ghost picture: { PictureSpec };

    /// Returns what the game looks like.
    fn picture() -> Picture
        ensures { IsPictureOf result (position_text_by (small_game Self.game) Self.game.text) picture };

    /// The laws of pictures.
    ghost pictured: { IsPictured (move_rules (small_game Self.game)) (position_text_by (small_game Self.game) Self.game.text)
        (move_text_by (λ t m. Self.game.step_text m)) picture };
}

impl<T: PicturedNumbers> PicturedMoves for SmallMoves<T> {
    ghost picture = { T.picture };

    ghost pictured = { T.pictured };

    fn picture() -> Picture {
        T::picture()
    }
}
