//! The texts of JSON, appended part by part.
ghost use Rattle.std.specs.Prelude.{◌≡◌, ◌++◌, true, OnOk};
ghost use Rattle.std.specs.Str.Lossy.{utf8_lossy};
ghost use Rattle.json.specs.Print.{quoted};
ghost use Rattle.serde_json.specs.Data.{string};
ghost use Rattle.serde_json.specs.Written.{comma_if};
ghost use Rattle.gm_play.specs.PlayTexts.{value_word};
ghost use Rattle.std.specs.List.{list_all};
ghost use Rattle.std.specs.Fmt.{decimal};
ghost use Rattle.gm_json.specs.inner.Parts.{is_clear as is_clear_spec, key_text, member_text};
ghost use Rattle.gm_json.specs.Words.{whole, text as text_spec};

use crate::words::text_value;
use gm_game::position::Value;
use gm_play::texts::word_of;
use itoa::Buffer;
use std::alloc::{AllocError, Global};

// Returns whether a byte stands for itself in a string.
fn is_clear(byte: u8) -> bool
    ensures { result ≡ is_clear_spec byte }
{
    32 <= byte && byte < 127 && byte != b'"' && byte != b'\\'
}

fn are_clear(text: &[u8]) -> bool
    ensures { result ≡ list_all is_clear_spec text.now }
{
    text.iter().all(|byte| is_clear(*byte))
}

/// Appends bytes as they are.
pub(crate) fn push_bytes(out: &mut Vec<u8>, bytes: &[u8]) -> Result<(), AllocError>
    ensures { OnOk result (out.new.items ≡ out.old.items ++ bytes.now) }
{
    out.extend_from_slice(bytes)
}

// Appends a string of bytes that stand for themselves.
fn push_clear(out: &mut Vec<u8>, text: &[u8]) -> Result<(), AllocError>
    requires { list_all is_clear_spec text.now ≡ true }
    ensures { OnOk result (out.new.items ≡ out.old.items ++ quoted text.now) }
{
    push_bytes(out, b"\"")?;
    push_bytes(out, text)?;
    push_bytes(out, b"\"")
}

// Appends a string of any bytes.
fn push_other(alloc: Global, out: &mut Vec<u8>, text: &[u8]) -> Result<(), AllocError>
    ensures { OnOk result (out.new.items ≡ out.old.items ++ quoted (utf8_lossy text.now)) }
{
    let tree = text_value(alloc, text)?;
    let written = tree.to_string(alloc);
    drop(tree);
    push_bytes(out, written?.as_bytes())
}

/// Appends a text as a string, in which bytes that aren't UTF-8 are replaced.
pub(crate) fn push_text(alloc: Global, out: &mut Vec<u8>, text: &[u8]) -> Result<(), AllocError>
    ensures { OnOk result (out.new.items ≡ out.old.items ++ quoted (utf8_lossy text.now)) }
{
    if are_clear(text) {
        push_clear(out, text)
    } else {
        push_other(alloc, out, text)
    }
}

/// Appends a comma after an earlier member.
pub(crate) fn push_comma(out: &mut Vec<u8>, later: bool) -> Result<(), AllocError>
    ensures { OnOk result (out.new.items ≡ out.old.items ++ comma_if later) }
{
    if later { push_bytes(out, b",") } else { Ok(()) }
}

/// Appends the key of a member.
pub(crate) fn push_key(out: &mut Vec<u8>, later: bool, key: &str) -> Result<(), AllocError>
    requires { list_all is_clear_spec key.now ≡ true }
    ensures { OnOk result (out.new.items ≡ out.old.items ++ key_text later key.now) }
{
    push_comma(out, later)?;
    push_clear(out, key.as_bytes())?;
    push_bytes(out, b":")
}

/// Appends a member whose value is a text.
pub(crate) fn push_text_member(
    alloc: Global,
    out: &mut Vec<u8>,
    later: bool,
    key: &str,
    text: &[u8],
) -> Result<(), AllocError>
    requires { list_all is_clear_spec key.now ≡ true }
    ensures { OnOk result (out.new.items ≡ out.old.items ++ member_text later key.now (text_spec text.now)) }
{
    push_key(out, later, key)?;
    push_text(alloc, out, text)
}

/// Appends a member that has the word of a value.
pub(crate) fn push_value_member(
    out: &mut Vec<u8>,
    later: bool,
    key: &str,
    value: Value,
) -> Result<(), AllocError>
    requires { list_all is_clear_spec key.now ≡ true }
    ensures { OnOk result (out.new.items ≡ out.old.items ++ member_text later key.now (string (value_word value))) }
{
    push_key(out, later, key)?;
    push_clear(out, word_of(value).as_bytes())
}

/// Appends a member whose value is a number.
pub(crate) fn push_number_member(
    out: &mut Vec<u8>,
    later: bool,
    key: &str,
    number: u64,
) -> Result<(), AllocError>
    requires { list_all is_clear_spec key.now ≡ true }
    ensures { OnOk result (out.new.items ≡ out.old.items ++ member_text later key.now (whole number)) }
{
    push_key(out, later, key)?;
    push_number(out, number)
}

/// Appends a number in decimal.
pub(crate) fn push_number(out: &mut Vec<u8>, number: u64) -> Result<(), AllocError>
    ensures { OnOk result (out.new.items ≡ out.old.items ++ decimal number) }
{
    let mut buffer = Buffer::new();
    push_bytes(out, buffer.format(number).as_bytes())
}
