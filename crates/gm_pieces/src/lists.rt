//! What follows from the rules of a game: its lists of moves, children and parents.
ghost use Rattle.std.specs.Prelude.{◌≡◌, ◌==◌, ◌<◌, ◌≤◌, true, [], map, length};
ghost use Rattle.gm_game.specs.Ascending.{put_all};
ghost use Rattle.gm_game.specs.Boards.{least_index as least_index_of, next_images};
ghost use Rattle.gm_game.specs.Children.{IsSetOf, HasSame, set_of};
ghost use Rattle.gm_game.specs.Rules.{IsKind, AreHoles};
ghost use Rattle.gm_pieces.specs.MoveGames.{board_game, move_rules, steps, befores};
ghost use Rattle.gm_pieces.specs.inner.FirstBoards.{IsFirstBoard};

use crate::moves::{has_no_move, list_moves, list_results, plays_on, put_befores};
use crate::rules::MoveRules;
use arrayvec::ArrayVec;
use gm_game::children::insert_position;
use gm_game::limits::{MOVES, PARENTS};
use gm_game::position::{End, Kind, Position};

/// The lists of a game on boards. Each call has a body here, and a game may put a faster one in its place.
pub trait MoveLists: MoveRules {
    /// Returns whether no move could be made if the game were not over.
    fn is_stuck(board: Self::Board) -> bool
        requires { Self.game.legal (Self.cells board) ≡ true }
        ensures { result ≡ (length (steps Self.game (Self.cells board)) == 0) }
    {
        has_no_move::<Self>(board)
    }

    /// Returns how the game has ended: by the last move, or else because the player to move can't move.
    fn end(board: Self::Board) -> Option<End>
        requires { Self.game.legal (Self.cells board) ≡ true }
        ensures { result ≡ (board_game Self.game).ended (Self.cells board) }
    {
        match Self::end_by_last_move(board) {
            None if Self::is_stuck(board) => Some(Self::end_if_no_move(board)),
            end => end,
        }
    }

    /// Returns the numbers of the moves that could be made if the game were not over, ascending.
    fn open_moves(board: Self::Board) -> ArrayVec<u32, MOVES>
        requires { Self.game.legal (Self.cells board) ≡ true }
        ensures { result.items ≡ steps Self.game (Self.cells board) }
    {
        list_moves::<Self>(board)
    }

    /// Returns the numbers of the moves, ascending.
    fn moves(board: Self::Board) -> ArrayVec<u32, MOVES>
        requires { Self.game.legal (Self.cells board) ≡ true }
        ensures { result.items ≡ (board_game Self.game).moves (Self.cells board) }
    {
        if plays_on::<Self>(board) {
            Self::open_moves(board)
        } else {
            ArrayVec::new()
        }
    }

    /// Writes the positions of the least images of the boards that a move leads to, ascending and once each, over what the set holds.
    fn fill_children(board: Self::Board, set: &mut ArrayVec<Position, MOVES>)
        requires { Self.game.legal (Self.cells board) ≡ true }
        ensures { IsSetOf (next_images (board_game Self.game) (Self.cells board)) set.new.items }
    {
        let mut results = ArrayVec::new();
        Self::fill_results(board, &mut results);
        set.clear();
        for p in results.as_slice() {
            insert_position(set, *p);
        }
    }

    /// Writes the positions of the least images of the boards that a move leads to over what the list holds, in any order and as often as moves lead to them.
    fn fill_results(board: Self::Board, list: &mut ArrayVec<Position, MOVES>)
        requires { Self.game.legal (Self.cells board) ≡ true }
        ensures { HasSame (next_images (board_game Self.game) (Self.cells board)) list.new.items }
    {
        let moves = Self::moves(board);
        list_results::<Self>(board, moves.as_slice(), list);
    }

    /// Returns how many positions `fill_children` writes.
    #[tactic(auto, using(gm_game::proofs::ChildrenLemmas::set_once))]
    fn count_children(board: Self::Board) -> usize
        requires { Self.game.legal (Self.cells board) ≡ true }
        ensures { result ≡ length (set_of (next_images (board_game Self.game) (Self.cells board))) }
    {
        let mut set = ArrayVec::new();
        Self::fill_children(board, &mut set);
        set.len()
    }

    /// Returns the kind of p, for a solver.
    fn kind(p: Position) -> Kind
        ensures { IsKind (move_rules Self.game) p result }
    {
        if p.index >= Self::tier_size(p.tier) {
            return Kind::Hole;
        }
        let board = Self::board(p.tier, p.index);
        if !Self::is_canonical(p, board) {
            return Kind::Hole;
        }
        Self::end(board).map_or(Kind::Inner, |end| Kind::Ended(end))
    }

    /// Returns `index`, or a later one such that no index from `index` up to it is that of a canonical legal position. A game whose holes lie together passes over many of them in constant time.
    #[inline(always)]
    fn skip_holes(tier: u64, index: u64) -> u64
        requires { index < Self.game.size tier }
        ensures low { index ≤ result }
        ensures holes { AreHoles (move_rules Self.game) tier index result }
    {
        index
    }

    /// Returns the first canonical legal position of the tier with an index from `lo` up to `hi`: its index and its board; `None` if there is no such position.
    fn first_board(tier: u64, lo: u64, hi: u64) -> Option<(u64, Self::Board)>
        ensures { IsFirstBoard Self.cells Self.game tier lo hi result }
    {
        let end = hi.min(Self::tier_size(tier));
        let mut index = lo;
        while index < end {
            let next = Self::skip_holes(tier, index);
            if next > index {
                index = next;
                continue;
            }
            let board = Self::board(tier, index);
            if Self::is_canonical(Position { tier, index }, board) {
                return Some((index, board));
            }
            index += 1;
        }
        None
    }

    /// Returns the least indexes of the boards of the tier from which a move leads to this one, ascending and once each.
    fn parents(tier: u64, board: Self::Board) -> ArrayVec<u64, PARENTS>
        requires { Self.game.legal (Self.cells board) ≡ true }
        ensures { result.items ≡ put_all [] (map (least_index_of (board_game Self.game)) (befores Self.game tier (Self.cells board))) }
    {
        let mut list = ArrayVec::new();
        Self::fill_parents(tier, board, &mut list);
        list
    }

    /// Writes the indexes that `parents` gives over what the list holds.
    fn fill_parents(tier: u64, board: Self::Board, list: &mut ArrayVec<u64, PARENTS>)
        requires { Self.game.legal (Self.cells board) ≡ true }
        ensures { list.new.items ≡ put_all [] (map (least_index_of (board_game Self.game)) (befores Self.game tier (Self.cells board))) }
    {
        put_befores::<Self>(tier, board, list);
    }
}
