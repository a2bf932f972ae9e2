//! What a game with numbered moves must give.
ghost use Rattle.std.specs.Prelude.{◌≡◌, ◌<◌, ◌↔◌, ℕ, true, IsTrue, List};
ghost use Rattle.gm_game.specs.Boards.{board_of, position_of, least_index as least_index_of, IsNumbered};
ghost use Rattle.gm_game.specs.Rules.{IsCanonical};
ghost use Rattle.gm_pieces.specs.MoveGames.{MoveGame, board_game, move_rules, is_undecided, goes_on as goes_on_of, IsMove, IsMoveGame, IsMoveSymmetric};
ghost use Rattle.gm_pieces.specs.MoveTexts.{AreTexts};
ghost use Rattle.gm_pieces.specs.inner.Tried.{AreCandidates};

use crate::candidates::Candidates;
use arrayvec::ArrayVec;
use gm_game::limits::{CHILD_TIERS, NAME};
use gm_game::position::{End, Position};
use gm_game::shown::Line;

/// A game on boards: its tests of one board and one move, and their texts. The rest follows.
pub trait MoveRules: Drop {
    /// A board, as the rules see it.
    ghost Cells: { Type 0 };

    /// A symmetry.
    ghost Symmetry: { Type 0 };

    /// The rules.
    ghost game: { MoveGame Cells Symmetry };

    /// A board.
    type Board: Copy;

    /// What the rules see of a board.
    ghost cells: { Self.Board → Cells };

    /// The text of a board.
    ghost text: { Cells → List ℕ };

    /// The text of a move, by its tier and number.
    ghost step_text: { ℕ → ℕ → List ℕ };

    /// Returns the game's name in ASCII, padded with zeros.
    fn name() -> [u8; NAME]
        ensures { result ≡ game.name };

    /// Returns the position that the game starts from.
    fn initial() -> Position
        ensures { result ≡ position_of (board_game game) game.start };

    /// Returns how many indexes the tier has: 0 for a number that is no tier of the game.
    fn tier_size(tier: u64) -> u64
        ensures { result ≡ game.size tier };

    /// Returns the other tiers, ascending, that a move from this tier can lead to.
    fn child_tiers(tier: u64) -> ArrayVec<u64, CHILD_TIERS>
        ensures { result.items ≡ game.child_tiers tier };

    /// Returns a number that is smaller for each child tier.
    fn tier_rank(tier: u64) -> u64
        ensures { result ≡ game.tier_rank tier };

    /// Returns a number above all numbers of moves from a tier.
    fn move_number_bound(tier: u64) -> u32
        ensures { result ≡ game.move_number_bound tier };

    /// Returns the board with this index.
    fn board(tier: u64, index: u64) -> Self::Board
        requires { index < game.size tier }
        ensures { cells result ≡ game.board tier index };

    /// Returns whether a board is legal.
    fn is_legal_board(board: Self::Board) -> bool
        ensures { result ≡ game.legal (cells board) };

    /// Returns the tier of a board.
    fn tier(board: Self::Board) -> u64
        requires { game.legal (cells board) ≡ true }
        ensures { result ≡ game.tier (cells board) };

    /// Returns the index of a board.
    fn index(board: Self::Board) -> u64
        requires { game.legal (cells board) ≡ true }
        ensures { result ≡ game.index (cells board) };

    /// Returns the least of the indexes of a board's images.
    fn least_index(board: Self::Board) -> u64
        requires { game.legal (cells board) ≡ true }
        ensures { result ≡ least_index_of (board_game game) (cells board) };

    /// Returns whether p, whose board is given, is legal and the representative of its symmetric positions. A game may make the tests in another order.
    fn is_canonical(p: Position, board: Self::Board) -> bool
        requires below { p.index < game.size p.tier }
        requires own { cells board ≡ board_of (board_game game) p }
        ensures { IsTrue result ↔ IsCanonical (move_rules game) p }
    {
        Self::is_legal_board(board)
            && Self::tier(board) == p.tier
            && Self::least_index(board) == p.index
    }

    /// Returns whether p is a legal position. A game may have a test that needs no board.
    fn is_legal(p: Position) -> bool
        ensures { result ≡ (move_rules game).is_legal p }
    {
        if p.index >= Self::tier_size(p.tier) {
            return false;
        }
        let board = Self::board(p.tier, p.index);
        Self::is_legal_board(board) && Self::tier(board) == p.tier
    }

    /// Returns how the last move has ended the game, if it has.
    fn end_by_last_move(board: Self::Board) -> Option<End>
        requires { game.legal (cells board) ≡ true }
        ensures { result ≡ game.end_by_last_move (cells board) };

    /// Returns how the game ends if the player to move can't move.
    fn end_if_no_move(board: Self::Board) -> End
        requires { game.legal (cells board) ≡ true }
        ensures { result ≡ game.end_if_no_move (cells board) };

    /// Returns whether the move with this number could be made if the game were not over.
    fn can_move(board: Self::Board, number: u32) -> bool
        requires legal { game.legal (cells board) ≡ true }
        requires below { number < game.move_number_bound (game.tier (cells board)) }
        ensures { result ≡ game.can_move (cells board) number };

    /// Returns the numbers that are tried for a board's moves, ascending: all below the bound, unless a game gives fewer.
    #[inline(always)]
    fn candidates(board: Self::Board) -> Candidates
        requires { game.legal (cells board) ≡ true }
        ensures { AreCandidates (game.can_move (cells board)) (game.move_number_bound (game.tier (cells board))) result }
    {
        Candidates::below(Self::move_number_bound(Self::tier(board)))
    }

    /// Returns the board after a move, as the other player sees it.
    fn moved(board: Self::Board, number: u32) -> Self::Board
        requires legal { game.legal (cells board) ≡ true }
        requires step { IsMove game (cells board) number }
        ensures { cells result ≡ game.moved (cells board) number };

    /// Returns whether the move with this number can have led to this board from a board of the tier.
    fn can_have_led_here(tier: u64, board: Self::Board, number: u32) -> bool
        requires legal { game.legal (cells board) ≡ true }
        requires below { number < game.move_number_bound tier }
        ensures { result ≡ game.can_have_led_here tier (cells board) number };

    /// Returns the numbers that are tried for the moves that can have led to this board from the tier, ascending: all below the bound, unless a game gives fewer.
    #[inline(always)]
    fn earlier_candidates(tier: u64, board: Self::Board) -> Candidates
        requires { game.legal (cells board) ≡ true }
        ensures { AreCandidates (game.can_have_led_here tier (cells board)) (game.move_number_bound tier) result }
    {
        Candidates::below(Self::move_number_bound(tier))
    }

    /// Returns the board before the move with this number, as the player who made it saw it.
    fn undo(tier: u64, board: Self::Board, number: u32) -> Self::Board
        requires legal { game.legal (cells board) ≡ true }
        requires below { number < game.move_number_bound tier }
        requires was { game.can_have_led_here tier (cells board) number ≡ true }
        ensures { cells result ≡ game.undo tier (cells board) number };

    /// Returns whether the board is a legal one of the tier from which the game goes on by this move. A game may make the tests in another order.
    fn goes_on(tier: u64, board: Self::Board, number: u32) -> bool
        requires { number < game.move_number_bound tier }
        ensures { result ≡ goes_on_of game tier (cells board) number }
    {
        Self::is_legal_board(board)
            && Self::tier(board) == tier
            && Self::end_by_last_move(board).is_none()
            && Self::can_move(board, number)
    }

    /// Returns the text of a board.
    fn board_text(board: Self::Board) -> Line
        requires { game.legal (cells board) ≡ true }
        ensures { result.items ≡ text (cells board) };

    /// Returns the board that has this text, if there is one. Any bytes may be given.
    fn board_in(bytes: &[u8]) -> Self::Board
        ensures { (b : Cells) → game.legal b ≡ true → text b ≡ bytes.now → b ≡ cells result };

    /// Returns the text of a move.
    fn move_text(board: Self::Board, number: u32) -> Line
        requires legal { game.legal (cells board) ≡ true }
        requires step { IsMove game (cells board) number }
        ensures { result.items ≡ step_text (game.tier (cells board)) number };

    /// The game's own laws: among others, making a move and taking it back undo one another.
    ghost lawful: { IsMoveGame game };

    /// The numbering of boards is one to one.
    ghost numbered: { IsNumbered (board_game game) };

    /// The symmetries keep the rules.
    ghost symmetric: { IsMoveSymmetric game };

    /// Texts are plain and fit a line, and different boards and different moves have different texts.
    ghost readable: { AreTexts game text step_text };
}
