//! The texts of values.
ghost use Rattle.std.specs.Prelude.{◌≡◌, ◌↔◌, ℕ, ◌+◌, ◌^◌, ◌<◌, ◌≤◌, ◌++◌, length, Some, IsTrue};
ghost use Rattle.std.specs.Fmt.{decimal};
ghost use Rattle.arrayvec.specs.ArrayVec.{array_vec_len};
ghost use Rattle.gm_game.specs.Texts.{text_of, value_words};

use crate::limits::LINE;
use crate::position::{Solved, Value};
use crate::shown::Line;
use arrayvec::ArrayVec;
use itoa::Buffer;
use std::str;

/// Appends a text, for which there is room.
pub fn push_text(line: &mut Line, text: &[u8])
    requires { array_vec_len line.old + length text.now ≤ LINE }
    ensures { line.new.items ≡ line.old.items ++ text.now }
{
    let _fits = line.try_extend_from_slice(text);
}

/// Appends a number in decimal, which takes at most 20 bytes.
pub fn push_decimal(line: &mut Line, number: u64)
    requires { array_vec_len line.old + 20 ≤ LINE }
    ensures { line.new.items ≡ line.old.items ++ decimal number }
{
    let mut buffer = Buffer::new();
    push_text(line, buffer.format(number).as_bytes());
}

fn words(value: Value) -> &'static [u8]
    ensures { result.now ≡ value_words value }
{
    match value {
        Value::Lose => b"lose in ",
        Value::Draw => b"draw",
        Value::Tie => b"tie in ",
        Value::Win => b"win in ",
    }
}

/// Returns the text of a value: `win in 7`, `lose in 4`, `tie in 9` or `draw`.
pub fn value_text(solved: Solved) -> Line
    ensures { result.items ≡ text_of solved }
{
    let mut line = ArrayVec::new();
    push_text(&mut line, words(solved.value));
    if solved.value != Value::Draw {
        push_decimal(&mut line, u64::from(solved.remoteness));
    }
    line
}

// Returns the number that std reads from the text, which may have a sign or leading zeros.
fn parsed(text: &[u8]) -> Option<u64>
    ensures { (n : ℕ) → n < 2 ^ 64 → decimal n ≡ text.now → result ≡ Some n }
{
    match str::from_utf8(text) {
        Ok(digits) => digits.parse::<u64>().ok(),
        Err(_) => None,
    }
}

// Returns whether the text is this number in decimal.
fn is_written(number: u64, text: &[u8]) -> bool
    ensures { IsTrue result ↔ (decimal number ≡ text.now) }
{
    let mut line: Line = ArrayVec::new();
    push_decimal(&mut line, number);
    line.as_slice() == text
}

/// Returns the number below 2^64 whose decimal form, without sign or leading zeros, is this text, if there is one. Any bytes may be given.
pub fn read_decimal(text: &[u8]) -> Option<u64>
    ensures { (n : ℕ) → (result ≡ Some n) ↔ ((n < 2 ^ 64) × (decimal n ≡ text.now)) }
{
    match parsed(text) {
        Some(number) => {
            if is_written(number, text) {
                Some(number)
            } else {
                None
            }
        }
        None => None,
    }
}
