//! What a small game must give.
ghost use Rattle.std.specs.Prelude.{◌≡◌, ◌<◌, true};
ghost use Rattle.gm_pieces.specs.Small.{SmallGame, is_board};
ghost use Rattle.gm_pieces.specs.SmallTables.{IsSmallGame};

use gm_game::limits::NAME;
use gm_game::position::End;
use gm_game::shown::Line;

/// A small game: its rules as code, each call by its field of the record.
pub trait SmallRules: Drop {
    /// The rules.
    ghost game: { SmallGame };

    /// Returns the game's name in ASCII, padded with zeros.
    fn name() -> [u8; NAME]
        ensures { result ≡ game.name };

    /// Returns a number above all boards.
    fn size() -> u64
        ensures { result ≡ game.size };

    /// Returns a number above all numbers of moves.
    fn bound() -> u32
        ensures { result ≡ game.bound };

    /// Returns the board at the start.
    fn start() -> u64
        ensures { result ≡ game.start };

    /// Tests whether a number is a legal board.
    fn is_legal_board(board: u64) -> bool
        ensures { result ≡ is_board game board };

    /// Returns how the last move has ended the game, if it has.
    fn end_by_last_move(board: u64) -> Option<End>
        requires below { board < game.size }
        requires legal { is_board game board ≡ true }
        ensures { result ≡ game.over board };

    /// Returns how the game ends for a player who can't move.
    fn end_if_no_move() -> End
        ensures { result ≡ game.stuck };

    /// Tests whether the move with this number could be made if the game were not over.
    fn can_move(board: u64, number: u64) -> bool
        requires below { board < game.size }
        requires legal { is_board game board ≡ true }
        requires number { number < game.bound }
        ensures { result ≡ game.can_move board number };

    /// Returns the board after a move, as the other side sees it.
    fn moved(board: u64, number: u64) -> u64
        requires below { board < game.size }
        requires legal { is_board game board ≡ true }
        requires number { number < game.bound }
        requires step { game.can_move board number ≡ true }
        ensures { result ≡ game.moved board number };

    /// Tests whether the move with this number can have led to the board.
    fn can_have_led_here(board: u64, number: u64) -> bool
        requires below { board < game.size }
        requires legal { is_board game board ≡ true }
        requires number { number < game.bound }
        ensures { result ≡ game.can_have_led_here board number };

    /// Returns the board before a move, as the side that made it saw it.
    fn undo(board: u64, number: u64) -> u64
        requires below { board < game.size }
        requires legal { is_board game board ≡ true }
        requires number { number < game.bound }
        requires was { game.can_have_led_here board number ≡ true }
        ensures { result ≡ game.undo board number };

    /// Returns the text of a board.
    fn board_text(board: u64) -> Line
        requires below { board < game.size }
        requires legal { is_board game board ≡ true }
        ensures { result.items ≡ game.text board };

    /// Returns the board of a text. Any bytes may be given.
    fn board_in(text: &[u8]) -> u64
        ensures { result ≡ game.told text.now };

    /// Returns the text of a move.
    fn move_text(number: u64) -> Line
        requires { number < game.bound }
        ensures { result.items ≡ game.step_text number };

    /// The tables are right.
    ghost tables: { IsSmallGame game };
}
