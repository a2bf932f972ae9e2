//! The boards before a board, for a game whose masks give them nearly in the order of their least indexes.
ghost use Rattle.std.specs.Prelude.{◌≡◌, ℕ, ◌<◌, ◌≤◌, true, [], map, length, slice_index};
ghost use Rattle.arrayvec.specs.ArrayVec.{array_vec_len};
ghost use Rattle.gm_game.specs.Ascending.{put as put_once, put_all};
ghost use Rattle.gm_game.specs.Boards.{least_index as least_index_of};
ghost use Rattle.gm_game.specs.Rules.{IsAscending};
ghost use Rattle.gm_pieces.specs.MoveGames.{board_game, befores};

use arrayvec::ArrayVec;
use gm_game::limits::PARENTS;
use gm_pieces::marked::MarkedMoves;

// Returns the place of the first number of an ascending list that isn't below x, or the list's length. Takes a step for each number that isn't below x.
#[tactic(auto, using(crate::specs::laws::Ascents::ascending_at))]
fn place_from_end(list: &[u64], x: u64) -> usize
    requires { IsAscending list.now }
    ensures within { result ≤ length list.now }
    ensures before { (k : ℕ) → k < result → slice_index list.now k < x }
    ensures after { result < length list.now → x ≤ slice_index list.now result }
{
    let mut place = list.len();
    while place > 0 && list[place - 1] >= x {
        place -= 1;
    }
    place
}

// Puts x into an ascending list, unless the list has it already.
#[tactic(auto, using(gm_game::proofs::Putting::put_at, gm_game::proofs::Putting::put_there))]
fn put_from_end(list: &mut ArrayVec<u64, PARENTS>, x: u64)
    requires room { array_vec_len list.old < PARENTS }
    requires ascending { IsAscending list.old.items }
    ensures { list.new.items ≡ put_once x list.old.items }
{
    let place = place_from_end(list.as_slice(), x);
    if place == list.len() || list[place] != x {
        list.insert(place, x);
    }
}

/// Writes the least indexes of the boards of the tier from which a move leads to this one, ascending and once each, over what the list holds. Takes the time of
/// `put_marked_befores`, but of a search only for those that come out of order.
pub fn put_befores_from_end<T: MarkedMoves>(
    tier: u64,
    board: T::Board,
    list: &mut ArrayVec<u64, PARENTS>,
)
    requires { T.game.legal (T.cells board) ≡ true }
    ensures { list.new.items ≡ put_all [] (map (least_index_of (board_game T.game)) (befores T.game tier (T.cells board))) }
{
    list.clear();
    let mut marks = T::earlier_marks(tier, board);
    while let Some((number, rest)) = marks.split_first() {
        put_from_end(list, T::least_index(T::undo(tier, board, number as u32)));
        marks = rest;
    }
}
