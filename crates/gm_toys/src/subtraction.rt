//! What subtraction games share: each move lowers a number, and texts are decimal numbers.
ghost use Rattle.std.specs.Prelude.{◌≡◌, ◌↔◌, ◌≤◌};
ghost use Rattle.gm_toys.specs.Lower.{ℕ, Some, Contains, decimal};
ghost use Rattle.gm_toys.specs.Subtraction.{moves_down, numbers_above};

use arrayvec::ArrayVec;
use gm_game::limits::{MOVES, PARENTS};
use gm_game::shown::Line;
use gm_game::text::{push_decimal, read_decimal};

/// Returns the moves at a number: 1 up to `most`, but at most the number itself.
#[tactic(auto, using(crate::specs::laws::SubtractionLaws::range_push, crate::specs::laws::SubtractionLaws::range_length))]
pub fn moves_down(most: u32, index: u64) -> ArrayVec<u32, MOVES>
    requires { most ≤ MOVES }
    ensures { result.items ≡ moves_down most index }
{
    let count = index.min(u64::from(most)) as u32;
    let mut list = ArrayVec::new();
    for taken in 0..count {
        list.push(1 + taken);
    }
    list
}

/// Returns the numbers up to `last` from which taking at most `most` leads to this one, ascending.
#[tactic(auto, using(crate::specs::laws::SubtractionLaws::range_push, crate::specs::laws::SubtractionLaws::range_length))]
pub fn numbers_above(most: u32, last: u64, index: u64) -> ArrayVec<u64, PARENTS>
    requires few { most ≤ PARENTS }
    requires within { index ≤ last }
    ensures { result.items ≡ numbers_above most last index }
{
    let count = (last - index).min(u64::from(most));
    let mut list = ArrayVec::new();
    for taken in 0..count {
        list.push(index + 1 + taken);
    }
    list
}

/// Returns a number in decimal.
pub fn show_number(number: u64) -> Line
    ensures { result.items ≡ decimal number }
{
    let mut line = ArrayVec::new();
    push_decimal(&mut line, number);
    line
}

/// Returns the number up to `last` with this text.
pub fn read_number(last: u64, text: &[u8]) -> Option<u64>
    ensures { (n : ℕ) → (result ≡ Some n) ↔ ((n ≤ last) × (decimal n ≡ text.now)) }
{
    match read_decimal(text) {
        Some(number) if number <= last => Some(number),
        _ => None,
    }
}

/// Returns the move at a number with this text.
pub fn read_step(most: u32, index: u64, text: &[u8]) -> Option<u32>
    ensures { (m : ℕ) → (result ≡ Some m) ↔ (Contains (moves_down most index) m × (decimal m ≡ text.now)) }
{
    match read_number(index.min(u64::from(most)), text) {
        Some(taken) if taken > 0 => Some(taken as u32),
        _ => None,
    }
}
