//! Ascending lists of indexes without repeats.
ghost use Rattle.std.specs.Prelude.{◌≡◌, ℕ, ◌<◌, ◌≤◌, length, slice_index};
ghost use Rattle.arrayvec.specs.ArrayVec.{array_vec_len};
ghost use Rattle.gm_game.specs.Ascending.{put as put_once};

use arrayvec::ArrayVec;
use gm_game::limits::PARENTS;

// Returns the place of the first number of a list that isn't below x, or the list's length.
fn place_of(list: &[u64], x: u64) -> usize
    ensures within { result ≤ length list.now }
    ensures before { (k : ℕ) → k < result → slice_index list.now k < x }
    ensures after { result < length list.now → x ≤ slice_index list.now result }
{
    // From the end, and to the beginning: so the loop has no branch that depends on what the list holds.
    let mut place = list.len();
    let mut next = place;
    while next > 0 {
        next -= 1;
        place = if list[next] < x { place } else { next };
    }
    place
}

/// Puts x into an ascending list, unless the list has it already.
#[tactic(auto, using(gm_game::proofs::Putting::put_at, gm_game::proofs::Putting::put_there))]
pub fn put(list: &mut ArrayVec<u64, PARENTS>, x: u64)
    requires { array_vec_len list.old < PARENTS }
    ensures { list.new.items ≡ put_once x list.old.items }
{
    let place = place_of(list.as_slice(), x);
    if place == list.len() || list[place] != x {
        list.insert(place, x);
    }
}
