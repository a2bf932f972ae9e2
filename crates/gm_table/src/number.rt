//! The code of a record: its number, the number's short form of a byte, and its number in each version of a tier file (docs/FORMATS.md, "Tier file"). No other
//! module knows the bits.
ghost use Rattle.std.specs.Prelude.{◌≡◌, ◌≢◌, ◌+◌, ◌*◌, ◌<◌, ◌≤◌, ◌/◌, ◌%◌, ◌↔◌, IsTrue, IfSome, IfNone, Option, None};
ghost use Rattle.gm_game.specs.declared.position.Solved.{Solved};
ghost use Rattle.gm_table.specs.declared.version.Version.TheVariants.{Two};
ghost use Rattle.gm_table.specs.Numbers.{wide, IsShort};
ghost use Rattle.gm_table.specs.Packed.{unpacked, IsInLimit};
ghost use Rattle.gm_table.specs.RecordCodes.{code, record_number, IsStorable};

use crate::version::Version;
use gm_game::position::{Solved, Value};

/// One more than the greatest remoteness: a record's number is the code of its value times this, plus its remoteness.
pub const STEP: u32 = 1_048_576;

/// One more than the greatest remoteness of a record whose number has a short form: so the first short form of a record.
pub(crate) const SHORT_STEP: u32 = 32;

/// The number of a draw.
pub const DRAW: u32 = 2 * STEP;

// Returns the code of a value.
fn code_of(value: Value) -> u32
    ensures value { result ≡ code value }
    ensures few { result ≤ 4 }
{
    match value {
        Value::Lose => 1,
        Value::Draw => 2,
        Value::Tie => 3,
        Value::Win => 4,
    }
}

/// Returns the number of a record within the greatest remoteness: that of a tier file of version 2 (docs/FORMATS.md, "Tier file"). It is never 1.
pub fn number_of(known: Option<Solved>) -> u32
    requires { IsInLimit known }
    ensures stored { result ≡ record_number Two known }
    ensures number { unpacked result ≡ known }
    ensures apart { result ≢ 1 }
{
    match known {
        None => 0,
        Some(solved) => code_of(solved.value) * STEP + solved.remoteness,
    }
}

/// Returns the number of the record with this number in a file of version 2: that of no record, or of a win, has several.
pub(crate) fn stored(number: u32) -> u32
    ensures { result ≡ record_number Two (unpacked number) }
{
    match number / STEP {
        0 => 0,
        1 | 2 | 3 => number,
        _ => 4 * STEP + number % STEP,
    }
}

/// Returns the record with this number.
pub fn unpacked(number: u32) -> Option<Solved>
    ensures { result ≡ unpacked number }
{
    let value = match number / STEP {
        0 => return None,
        1 => Value::Lose,
        2 => Value::Draw,
        3 => Value::Tie,
        _ => Value::Win,
    };
    Some(Solved {
        value,
        remoteness: number % STEP,
    })
}

/// Returns whether a number has a short form.
pub fn is_short(number: u32) -> bool
    ensures { IsTrue result ↔ IsShort number }
{
    number / STEP < 8 && number % STEP < SHORT_STEP
}

/// Returns the short form of a number.
pub fn narrowed(number: u32) -> u8
    requires { IsShort number }
    ensures { wide result ≡ number }
{
    (number / STEP * SHORT_STEP + number % STEP) as u8
}

/// Returns the number with this short form.
pub(crate) fn wide(short: u8) -> u32
    ensures { result ≡ wide short }
{
    u32::from(short) / SHORT_STEP * STEP + u32::from(short) % SHORT_STEP
}

/// Returns the short form of a number, if it has one.
pub fn short_of(number: u32) -> Option<u8>
    ensures short { IfSome result (λ short. wide short ≡ number) }
    ensures none { result ≡ None → IsShort number → ⊥ }
{
    if is_short(number) {
        Some(narrowed(number))
    } else {
        None
    }
}

/// Returns the number of a record in a file of a version.
pub fn number_in(version: Version, entry: Option<Solved>) -> u32
    requires { IsStorable version entry }
    ensures { result ≡ record_number version entry }
{
    match entry {
        None => 0,
        Some(solved) => code_of(solved.value) * version.step() + solved.remoteness,
    }
}

/// Returns the record with this number in a file of a version; `None` if no record has it.
pub fn record_in(version: Version, number: u32) -> Option<Option<Solved>>
    ensures some { IfSome result (λ r. IsStorable version r × (record_number version r ≡ number)) }
    ensures none { IfNone result ((r : Option Solved) → IsStorable version r → record_number version r ≢ number) }
{
    let remoteness = number % version.step();
    let value = match number / version.step() {
        0 if remoteness == 0 => return Some(None),
        1 => Value::Lose,
        2 if remoteness == 0 => Value::Draw,
        3 => Value::Tie,
        4 => Value::Win,
        _ => return None,
    };
    Some(Some(Solved { value, remoteness }))
}
