//! The game that follows from the rules of a small game.
ghost use Rattle.std.specs.Prelude.{ℕ};
ghost use Rattle.gm_pieces.specs.Small.{small_game};
ghost use Rattle.gm_pieces.specs.laws.SmallLaws.{small_lawful, small_numbered, small_symmetric, small_readable};

use crate::lists::MoveLists;
use crate::on_boards::OnBoards;
use crate::rules::MoveRules;
use crate::small_rules::SmallRules;
use arrayvec::ArrayVec;
use gm_game::limits::{CHILD_TIERS, NAME};
use gm_game::position::{End, Position};
use gm_game::shown::Line;
use std::marker::PhantomData;

/// The moves of the small game with the rules T.
#[derive(Drop)]
pub struct SmallMoves<T: SmallRules> {
    rules: PhantomData<T>,
}

/// The small game with the rules T.
pub type OnNumbers<T> = OnBoards<SmallMoves<T>>;

impl<T: SmallRules> MoveRules for SmallMoves<T> {
    ghost Cells = { ℕ };

    ghost Symmetry = { ℕ };

    ghost game = { small_game T.game };

    type Board = u64;

    ghost cells = { λ b. b };

    ghost text = { T.game.text };

    ghost step_text = { λ t m. T.game.step_text m };

    fn name() -> [u8; NAME] {
        T::name()
    }

    fn initial() -> Position {
        Position {
            tier: 0,
            index: T::start(),
        }
    }

    fn tier_size(tier: u64) -> u64 {
        if tier == 0 { T::size() } else { 0 }
    }

    fn child_tiers(_tier: u64) -> ArrayVec<u64, CHILD_TIERS> {
        ArrayVec::new()
    }

    fn tier_rank(_tier: u64) -> u64 {
        0
    }

    fn move_number_bound(_tier: u64) -> u32 {
        T::bound()
    }

    fn board(_tier: u64, index: u64) -> u64 {
        index
    }

    fn is_legal_board(board: u64) -> bool {
        T::is_legal_board(board)
    }

    fn tier(_board: u64) -> u64 {
        0
    }

    fn index(board: u64) -> u64 {
        board
    }

    fn least_index(board: u64) -> u64 {
        board
    }

    #[tactic(auto, using(crate::specs::laws::SmallLaws::board_below))]
    fn end_by_last_move(board: u64) -> Option<End> {
        T::end_by_last_move(board)
    }

    fn end_if_no_move(_board: u64) -> End {
        T::end_if_no_move()
    }

    #[tactic(auto, using(crate::specs::laws::SmallLaws::board_below))]
    fn can_move(board: u64, number: u32) -> bool {
        T::can_move(board, u64::from(number))
    }

    #[tactic(auto, using(crate::specs::laws::SmallLaws::board_below))]
    fn moved(board: u64, number: u32) -> u64 {
        T::moved(board, u64::from(number))
    }

    #[tactic(auto, using(crate::specs::laws::SmallLaws::board_below))]
    fn can_have_led_here(_tier: u64, board: u64, number: u32) -> bool {
        T::can_have_led_here(board, u64::from(number))
    }

    #[tactic(auto, using(crate::specs::laws::SmallLaws::board_below))]
    fn undo(_tier: u64, board: u64, number: u32) -> u64 {
        T::undo(board, u64::from(number))
    }

    #[tactic(auto, using(crate::specs::laws::SmallLaws::board_below))]
    fn board_text(board: u64) -> Line {
        T::board_text(board)
    }

    #[tactic(auto, using(crate::specs::laws::SmallLaws::told))]
    fn board_in(bytes: &[u8]) -> u64 {
        T::board_in(bytes)
    }

    fn move_text(_board: u64, number: u32) -> Line {
        T::move_text(u64::from(number))
    }

    ghost lawful = { small_lawful T.game T.tables };

    ghost numbered = { small_numbered T.game T.tables };

    ghost symmetric = { small_symmetric T.game T.tables };

    ghost readable = { small_readable T.game T.tables };
}

impl<T: SmallRules> MoveLists for SmallMoves<T> {}
