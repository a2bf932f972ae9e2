//! Fox and Hounds: four hounds hunt a fox.
ghost use Rattle.std.specs.Prelude.{◌≡◌, ℕ};
ghost use Rattle.gm_pieces.specs.MoveTexts.{position_text_by, move_text_by as text_of_move};
ghost use Rattle.gm_squares.specs.declared.chase.Chase.{Chase as ChaseOf};
ghost use Rattle.gm_squares.specs.FoxHounds.{fox_and_hounds, foxhounds_rules, board_text as board_text_of, step_text as step_text_of};
ghost use Rattle.gm_squares.specs.laws.ChaseLaws.{lawful, symmetric};
ghost use Rattle.gm_squares.specs.laws.ChaseNumbering.{numbered};
ghost use Rattle.gm_squares.specs.laws.ChaseTexts.{readable};

use crate::chase::{Chase, can_go, gone, has_square, lowest, toggled};
use crate::dark_squares::{dark, dark_in, leads, to_square};
use crate::hounds::{four_at, fox_at, free_below, squares_rank};
use crate::text::{byte_at, push_square};
use crate::ways::{by_ways, comers, goers};
use arrayvec::ArrayVec;
use gm_game::game::Game;
use gm_game::limits::{CHILD_TIERS, MOVES, NAME, PARENTS};
use gm_game::position::{End, Position};
use gm_game::shown::{Line, Shown};
use gm_game::text::push_text;
use gm_pieces::lists::MoveLists;
use gm_pieces::marked::{
    MarkedMoves, count_moves, has_no_mark, list_marked_results, put_marked_befores,
};
use gm_pieces::marks::Marks;
use gm_pieces::moves::plays_on;
use gm_pieces::on_boards::OnBoards;
use gm_pieces::rules::MoveRules;

/// The number of positions in the one tier.
const POSITIONS: u64 = 2_013_760;

/// The rules of Fox and Hounds. A fox past the hounds wins at once, and a side that can't move loses (docs/GAMES.md, Fox and Hounds).
#[derive(Drop)]
pub struct FoxRules;

/// Fox and Hounds.
pub type FoxHounds = OnBoards<FoxRules>;

impl MoveRules for FoxRules {
    ghost Cells = { ChaseOf };

    ghost Symmetry = { ℕ };

    ghost game = { fox_and_hounds };

    type Board = Chase;

    ghost cells = { λ b. b };

    ghost text = { board_text_of };

    ghost step_text = { λ t m. step_text_of m };

    fn name() -> [u8; NAME] {
        *b"foxhounds\0\0\0\0\0\0\0"
    }

    #[tactic(auto, using(crate::specs::laws::ChaseNumbering::start_index))]
    fn initial() -> Position {
        Position { tier: 0, index: 50 }
    }

    fn tier_size(tier: u64) -> u64 {
        if tier == 0 { POSITIONS } else { 0 }
    }

    fn child_tiers(_tier: u64) -> ArrayVec<u64, CHILD_TIERS> {
        ArrayVec::new()
    }

    fn tier_rank(_tier: u64) -> u64 {
        0
    }

    fn move_number_bound(_tier: u64) -> u32 {
        128
    }

    #[tactic(auto, using(crate::specs::laws::HoundNumbers::below, crate::specs::laws::HoundNumbers::four_squares))]
    fn board(_tier: u64, index: u64) -> Chase {
        let hounds = four_at(index / 56);
        Chase {
            hounds_move: index % 2 == 1,
            hounds,
            fox: fox_at(hounds, (index / 2 % 28) as u32),
        }
    }

    #[tactic(auto, unfolding(crate::specs::FoxHounds::legal))]
    fn is_legal_board(board: Chase) -> bool {
        board.hounds.count_ones() == 4 && (board.fox < 32 && !has_square(board.hounds, board.fox))
    }

    fn tier(_board: Chase) -> u64 {
        0
    }

    #[tactic(auto, using(crate::specs::laws::ChaseFacts::fox_below))]
    fn index(board: Chase) -> u64 {
        let number = 28 * squares_rank(board.hounds)
            + u64::from(free_below(board.hounds, board.fox));
        2 * number + u64::from(board.hounds_move)
    }

    fn least_index(board: Chase) -> u64 {
        Self::index(board)
    }

    // Each index is that of a board of its own.
    fn is_canonical(_p: Position, _board: Chase) -> bool {
        true
    }

    #[tactic(auto, unfolding(crate::specs::FoxHounds::end_by_last_move))]
    fn end_by_last_move(board: Chase) -> Option<End> {
        if board.fox / 4 > board.hounds.trailing_zeros() / 4 {
            None
        } else if board.hounds_move {
            Some(End::Lose)
        } else {
            Some(End::Win)
        }
    }

    fn end_if_no_move(_board: Chase) -> End {
        End::Lose
    }

    #[tactic(auto, unfolding(crate::specs::FoxHounds::can_move, crate::specs::FoxHounds::from_square))]
    fn can_move(board: Chase, number: u32) -> bool {
        let side = board.hounds_move;
        leads(side, number) && can_go(side, board, number / 4, to_square(number))
    }

    #[tactic(auto, using(crate::specs::laws::ChaseLaws::on_board), unfolding(crate::specs::FoxHounds::moved, crate::specs::FoxHounds::from_square))]
    fn moved(board: Chase, number: u32) -> Chase {
        let side = board.hounds_move;
        gone(side, board, number / 4, to_square(number))
    }

    #[tactic(auto, unfolding(crate::specs::FoxHounds::can_have_led_here, crate::specs::FoxHounds::from_square))]
    fn can_have_led_here(_tier: u64, board: Chase, number: u32) -> bool {
        let side = !board.hounds_move;
        leads(side, number) && can_go(side, board, to_square(number), number / 4)
    }

    #[tactic(auto, using(crate::specs::laws::ChaseLaws::was_on_board), unfolding(crate::specs::FoxHounds::undo, crate::specs::FoxHounds::from_square))]
    fn undo(_tier: u64, board: Chase, number: u32) -> Chase {
        let side = !board.hounds_move;
        gone(side, board, to_square(number), number / 4)
    }

    #[tactic(auto, using(crate::specs::laws::ChaseFacts::legal_in), unfolding(crate::specs::FoxHounds::board_text, crate::specs::FoxHounds::squares_of))]
    fn board_text(board: Chase) -> Line {
        let (first, rest) = lowest(board.hounds);
        let (second, rest) = lowest(rest);
        let (third, rest) = lowest(rest);
        let (fourth, _) = lowest(rest);
        let mut line = ArrayVec::new();
        push_square(&mut line, b"f", dark(board.fox));
        push_square(&mut line, b" h", dark(first));
        push_square(&mut line, b" h", dark(second));
        push_square(&mut line, b" h", dark(third));
        push_square(&mut line, b" h", dark(fourth));
        push_text(&mut line, if board.hounds_move { b" h" } else { b" f" });
        line
    }

    #[tactic(auto, using(crate::specs::laws::ChaseTexts::told_text), unfolding(crate::specs::FoxHounds::told))]
    fn board_in(text: &[u8]) -> Chase {
        let hounds = toggled(toggled(0, dark_in(text, 17)), dark_in(text, 13));
        Chase {
            hounds_move: byte_at(text, 20) == b'h',
            hounds: toggled(toggled(hounds, dark_in(text, 9)), dark_in(text, 5)),
            fox: dark_in(text, 1),
        }
    }

    #[tactic(auto, using(crate::specs::laws::ChaseLaws::on_board), unfolding(crate::specs::FoxHounds::step_text, crate::specs::FoxHounds::from_square))]
    fn move_text(_board: Chase, number: u32) -> Line {
        let mut line = ArrayVec::new();
        push_square(&mut line, b"", dark(number / 4));
        push_square(&mut line, b"-", dark(to_square(number)));
        line
    }

    ghost lawful = { lawful };

    ghost numbered = { numbered };

    ghost symmetric = { symmetric };

    ghost readable = { readable };
}

impl MarkedMoves for FoxRules {
    fn open_marks(board: Chase) -> Marks {
        by_ways(
            goers(board, 0),
            goers(board, 1),
            goers(board, 2),
            goers(board, 3),
        )
    }

    fn earlier_marks(tier: u64, board: Chase) -> Marks {
        if tier != 0 {
            return Marks::none();
        }
        by_ways(
            comers(board, 0),
            comers(board, 1),
            comers(board, 2),
            comers(board, 3),
        )
    }
}

impl MoveLists for FoxRules {
    fn is_stuck(board: Chase) -> bool {
        has_no_mark::<Self>(board)
    }

    // Different moves lead to different positions.
    #[tactic(auto, using(crate::specs::laws::ChaseApart::children_counted, crate::specs::laws::ChaseApart::over_counted))]
    fn count_children(board: Chase) -> usize {
        if plays_on::<Self>(board) {
            count_moves::<Self>(board) as usize
        } else {
            0
        }
    }

    fn fill_results(board: Chase, list: &mut ArrayVec<Position, MOVES>) {
        list_marked_results::<Self>(board, list);
    }

    fn fill_parents(tier: u64, board: Chase, list: &mut ArrayVec<u64, PARENTS>) {
        put_marked_befores::<Self>(tier, board, list);
    }
}

/// The rules and texts of Fox and Hounds are those that `specs/` states.
pub fn foxhounds_is()
    ensures rules { ⟦<FoxHounds as Game>⟧.rules ≡ foxhounds_rules }
    ensures shown { ⟦<FoxHounds as Shown>⟧.shown ≡ position_text_by fox_and_hounds board_text_of }
    ensures move_shown { ⟦<FoxHounds as Shown>⟧.move_shown ≡ text_of_move (λ t m. step_text_of m) }
{}
