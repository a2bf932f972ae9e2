//! Numbers of four digits of mixed radix, and the texts of their digits.
ghost use Rattle.std.specs.Prelude.{◌≡◌, ◌+◌, ◌<◌, ◌≤◌};
ghost use Rattle.gm_numbers.specs.Digits.{digit as digit_of, four_text, digit_in as digit_of_text, pair_text as text_of_pair};

use arrayvec::ArrayVec;
use gm_game::shown::Line;
use gm_game::text::push_text;

/// Returns the digit of a number with this weight and this radix.
pub fn digit(weight: u64, radix: u64, number: u64) -> u64
    requires weight { 0 < weight }
    requires radix { 0 < radix }
    ensures value { result ≡ digit_of weight radix number }
    ensures small { result < radix }
{
    number / weight % radix
}

// Returns the byte of a digit.
fn digit_byte(digit: u64) -> u8
    requires { digit < 10 }
    ensures { result ≡ 48 + digit }
{
    b'0' + digit as u8
}

/// Returns the text of four digits, with spaces between them.
pub fn digits_text(a: u64, b: u64, c: u64, d: u64) -> Line
    requires first { a < 10 }
    requires second { b < 10 }
    requires third { c < 10 }
    requires fourth { d < 10 }
    ensures { result.items ≡ four_text a b c d }
{
    let text = [
        digit_byte(a),
        b' ',
        digit_byte(b),
        b' ',
        digit_byte(c),
        b' ',
        digit_byte(d),
    ];
    let mut line = ArrayVec::new();
    push_text(&mut line, &text);
    line
}

/// Returns the digit whose byte a text has at this place, or some number if the byte is no digit. Any bytes may be given.
pub fn digit_in(text: &[u8], place: usize) -> u64
    ensures value { result ≡ digit_of_text text.now place }
    ensures small { result ≤ 255 }
{
    match text.get(place) {
        Some(byte) => u64::from(*byte).saturating_sub(48),
        None => 0,
    }
}

/// Returns the text of two numbers of one digit, with `-` between them.
pub fn pair_text(one: u64, other: u64) -> Line
    requires one { one < 10 }
    requires other { other < 10 }
    ensures { result.items ≡ text_of_pair one other }
{
    let mut line = ArrayVec::new();
    push_text(&mut line, &[digit_byte(one), b'-', digit_byte(other)]);
    line
}
