//! The calls of `Game` for a game with numbered moves.
ghost use Rattle.gm_pieces.specs.MoveGames.{move_rules};
ghost use Rattle.gm_pieces.specs.laws.MoveLaws.{moves_are_game};

use crate::boards::{board, least_position, position};
use crate::lists::MoveLists;
use arrayvec::ArrayVec;
use gm_game::game::Game;
use gm_game::limits::{CHILD_TIERS, MOVES, NAME, PARENTS};
use gm_game::position::{End, Kind, Position};
use std::marker::PhantomData;

/// The game with the rules T.
#[derive(Drop)]
pub struct OnBoards<T: MoveLists> {
    rules: PhantomData<T>,
}

impl<T: MoveLists> Game for OnBoards<T> {
    ghost rules = { move_rules T.game };

    ghost lawful = { moves_are_game T.game T.lawful T.numbered T.symmetric };

    fn name() -> [u8; NAME] {
        T::name()
    }

    fn initial() -> Position {
        T::initial()
    }

    fn tier_size(tier: u64) -> u64 {
        T::tier_size(tier)
    }

    fn is_legal(p: Position) -> bool {
        T::is_legal(p)
    }

    fn primitive(p: Position) -> Option<End> {
        T::end(board::<T>(p))
    }

    fn moves(p: Position) -> ArrayVec<u32, MOVES> {
        T::moves(board::<T>(p))
    }

    #[tactic(auto, using(crate::specs::laws::MoveLaws::move_in))]
    fn play(p: Position, m: u32) -> Position {
        position::<T>(T::moved(board::<T>(p), m))
    }

    fn canonical(p: Position) -> Position {
        least_position::<T>(board::<T>(p))
    }

    fn fill_children(p: Position, set: &mut ArrayVec<Position, MOVES>) {
        T::fill_children(board::<T>(p), set);
    }

    fn fill_results(p: Position, list: &mut ArrayVec<Position, MOVES>) {
        T::fill_results(board::<T>(p), list);
    }

    fn count_children(p: Position) -> usize {
        T::count_children(board::<T>(p))
    }

    fn kind(p: Position) -> Kind {
        T::kind(p)
    }

    fn first_canonical(tier: u64, lo: u64, hi: u64) -> Option<u64> {
        let (index, _board) = T::first_board(tier, lo, hi)?;
        Some(index)
    }

    fn first_results(
        tier: u64,
        lo: u64,
        hi: u64,
        list: &mut ArrayVec<Position, MOVES>,
    ) -> Option<(u64, Option<End>)> {
        let (index, board) = T::first_board(tier, lo, hi)?;
        let end = T::end(board);
        if end.is_none() {
            T::fill_results(board, list);
        }
        Some((index, end))
    }

    fn parents(c: Position, tier: u64) -> ArrayVec<u64, PARENTS> {
        T::parents(tier, board::<T>(c))
    }

    fn fill_parents(c: Position, tier: u64, list: &mut ArrayVec<u64, PARENTS>) {
        T::fill_parents(tier, board::<T>(c), list);
    }

    fn child_tiers(tier: u64) -> ArrayVec<u64, CHILD_TIERS> {
        T::child_tiers(tier)
    }

    fn tier_rank(tier: u64) -> u64 {
        T::tier_rank(tier)
    }
}
