//! The game that follows from the tables of a game of patterns.
ghost use Rattle.std.specs.Prelude.{◌≡◌, ◌<◌, ℕ, List};
ghost use Rattle.gm_board.specs.declared.cell.Cell.{Cell};
ghost use Rattle.gm_board.specs.Images.{board_of};
ghost use Rattle.gm_pieces.specs.SideTexts.{cells_text as board_text_of};
ghost use Rattle.gm_patterns.specs.PatternGames.{pattern_game};
ghost use Rattle.gm_patterns.specs.PatternTexts.{step_text as step_text_of};
ghost use Rattle.gm_patterns.specs.laws.PatternLaws.{pattern_lawful, pattern_numbered, pattern_symmetric};
ghost use Rattle.gm_patterns.specs.laws.PatternPictured.{pattern_readable};

use crate::boards::{end_by_patterns, passed};
use crate::indexes::{boards_before, boards_with};
use crate::lesser::past_lesser;
use crate::pattern::has_some;
use crate::rules::PatternRules;
use crate::text::name_of;
use crate::tiers::{
    as_children, can_have, numbers_in, over_by, put_children, step_at, step_count, tier_of,
};
use arrayvec::ArrayVec;
use gm_game::limits::{CHILD_TIERS, NAME};
use gm_game::position::{End, Position};
use gm_game::shown::Line;
use gm_pieces::board::Board;
use gm_pieces::lists::MoveLists;
use gm_pieces::on_boards::OnBoards;
use gm_pieces::rules::MoveRules;
use std::marker::PhantomData;

/// The moves of the game with the tables T.
#[derive(Drop)]
pub struct PatternMoves<const CELLS: u32, T: PatternRules<CELLS>> {
    tables: PhantomData<T>,
}

/// The game with the tables T.
pub type OnPatterns<const CELLS: u32, T> = OnBoards<PatternMoves<CELLS, T>>;

impl<const CELLS: u32, T: PatternRules<CELLS>> MoveRules for PatternMoves<CELLS, T> {
    ghost Cells = { List Cell };

    ghost Symmetry = { List ℕ };

    ghost game = { pattern_game CELLS T.game };

    type Board = Board<CELLS>;

    ghost cells = { λ b. board_of CELLS b.mine b.theirs };

    ghost text = { board_text_of };

    ghost step_text = { step_text_of CELLS T.game };

    fn name() -> [u8; NAME] {
        T::basics().name
    }

    #[tactic(auto, using(crate::specs::laws::TableFacts::start_legal))]
    fn initial() -> Position {
        let start = T::basics().start;
        Position {
            tier: Self::tier(start),
            index: Self::index(start),
        }
    }

    #[tactic(auto, unfolding(crate::specs::PatternGames::size_of))]
    fn tier_size(tier: u64) -> u64 {
        let (more, fewer) = numbers_in::<CELLS, T>(tier);
        if fewer > more {
            return 0;
        }
        let first = boards_with::<CELLS, T>(more, fewer);
        let rest = if more == fewer {
            0
        } else {
            boards_with::<CELLS, T>(fewer, more)
        };
        first + rest
    }

    #[tactic(auto, unfolding(crate::specs::PatternGames::child_tiers))]
    fn child_tiers(tier: u64) -> ArrayVec<u64, CHILD_TIERS> {
        let (more, fewer) = numbers_in::<CELLS, T>(tier);
        if more + fewer > u64::from(CELLS) {
            return ArrayVec::new();
        }
        if fewer > more {
            return ArrayVec::new();
        }
        let mut list = ArrayVec::new();
        put_children::<CELLS, T>(tier, more, fewer, &mut list);
        put_children::<CELLS, T>(tier, fewer, more, &mut list);
        as_children(list.as_slice())
    }

    #[tactic(auto, unfolding(crate::specs::PatternGames::rank_of))]
    fn tier_rank(tier: u64) -> u64 {
        let (more, fewer) = numbers_in::<CELLS, T>(tier);
        if T::basics().adds {
            u64::from(CELLS).saturating_sub(more + fewer)
        } else {
            more + fewer
        }
    }

    fn move_number_bound(tier: u64) -> u32 {
        step_count::<CELLS, T>(tier)
    }

    #[tactic(auto, using(crate::specs::laws::MaskFacts::cells_few, crate::specs::laws::IndexFacts::size_few, crate::specs::laws::IndexFacts::first_fits, crate::specs::laws::IndexFacts::rest_fits), unfolding(crate::specs::PatternGames::board_at))]
    fn board(tier: u64, index: u64) -> Board<CELLS> {
        let (more, fewer) = numbers_in::<CELLS, T>(tier);
        let first = boards_with::<CELLS, T>(more, fewer);
        if index < first {
            Board::numbered(more as u32, fewer as u32, index)
        } else {
            Board::numbered(fewer as u32, more as u32, index - first)
        }
    }

    #[tactic(auto, using(gm_board::specs::laws::Images::board_length), unfolding(crate::specs::PatternGames::legal))]
    fn is_legal_board(board: Board<CELLS>) -> bool {
        let mine = u64::from(board.own_pieces());
        let theirs = u64::from(board.their_pieces());
        can_have::<CELLS, T>(mine, theirs) && !has_some(board, T::basics().ends.forbidden)
    }

    #[tactic(auto, unfolding(crate::specs::PatternGames::tier_on))]
    fn tier(board: Board<CELLS>) -> u64 {
        tier_of::<CELLS, T>(
            u64::from(board.own_pieces()),
            u64::from(board.their_pieces()),
        )
    }

    #[tactic(auto, using(crate::specs::laws::IndexFacts::index_small), unfolding(crate::specs::PatternGames::index_on))]
    fn index(board: Board<CELLS>) -> u64 {
        boards_before::<CELLS, T>(board) + board.index()
    }

    #[tactic(auto, using(crate::specs::laws::IndexFacts::least_small, crate::specs::laws::IndexFacts::least_is))]
    fn least_index(board: Board<CELLS>) -> u64 {
        boards_before::<CELLS, T>(board) + T::least_index(&board)
    }

    #[tactic(auto, using(crate::specs::laws::MaskFacts::legal_few), unfolding(crate::specs::PatternGames::end_by_last_move))]
    fn end_by_last_move(board: Board<CELLS>) -> Option<End> {
        match over_by::<CELLS, T>(board.own_pieces(), board.their_pieces()) {
            Some(end) => Some(end),
            None => end_by_patterns::<CELLS, T>(board),
        }
    }

    fn end_if_no_move(_board: Board<CELLS>) -> End {
        T::basics().ends.stuck
    }

    #[tactic(auto, unfolding(crate::specs::PatternGames::can_move))]
    fn can_move(board: Board<CELLS>, number: u32) -> bool {
        step_at::<CELLS, T>(Self::tier(board), number)
            .before
            .fits(board)
    }

    #[tactic(auto, unfolding(crate::specs::PatternGames::moved))]
    fn moved(board: Board<CELLS>, number: u32) -> Board<CELLS> {
        passed::<CELLS, T>(step_at::<CELLS, T>(Self::tier(board), number).made(board))
    }

    #[tactic(auto, unfolding(crate::specs::PatternGames::can_have_led_here))]
    fn can_have_led_here(tier: u64, board: Board<CELLS>, number: u32) -> bool {
        step_at::<CELLS, T>(tier, number)
            .after
            .fits(passed::<CELLS, T>(board))
    }

    #[tactic(auto, unfolding(crate::specs::PatternGames::undo))]
    fn undo(tier: u64, board: Board<CELLS>, number: u32) -> Board<CELLS> {
        step_at::<CELLS, T>(tier, number).taken_back(passed::<CELLS, T>(board))
    }

    fn board_text(board: Board<CELLS>) -> Line {
        board.text()
    }

    #[tactic(auto, using(crate::specs::laws::MaskFacts::cells_few, crate::specs::laws::TableFacts::legal_in))]
    fn board_in(bytes: &[u8]) -> Board<CELLS> {
        Board::in_text(bytes)
    }

    #[tactic(auto, using(crate::specs::laws::MaskFacts::step_named), unfolding(crate::specs::PatternTexts::step_text))]
    fn move_text(board: Board<CELLS>, number: u32) -> Line {
        name_of(
            T::basics().names,
            step_at::<CELLS, T>(Self::tier(board), number),
        )
    }

    ghost lawful = { pattern_lawful CELLS T.game T.right.tables };

    ghost numbered = { pattern_numbered CELLS T.game T.right.tables };

    ghost symmetric = { pattern_symmetric CELLS T.game T.right.tables };

    ghost readable = { pattern_readable CELLS T.game T.right.tables };
}

impl<const CELLS: u32, T: PatternRules<CELLS>> MoveLists for PatternMoves<CELLS, T> {
    // Returns the first canonical legal position with its board. The mover's pieces show that most indexes are holes, many at once.
    fn first_board(tier: u64, lo: u64, hi: u64) -> Option<(u64, Board<CELLS>)> {
        let end = hi.min(Self::tier_size(tier));
        let mut index = lo;
        while index < end {
            let board = Self::board(tier, index);
            let next = past_lesser::<CELLS, T>(tier, index, board);
            if next > index {
                index = next;
                continue;
            }
            if Self::is_canonical(Position { tier, index }, board) {
                return Some((index, board));
            }
            index += 1;
        }
        None
    }
}
