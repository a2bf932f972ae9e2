//! Texts and values in JSON, and lines of it.
ghost use Rattle.std.specs.Prelude.{◌≡◌, ◌++◌, false, IfOk, OnOk};
ghost use Rattle.std.specs.Str.Lossy.{utf8_lossy};
ghost use Rattle.serde_json.specs.Data.{string, put as with_member};
ghost use Rattle.serde_json.specs.View.{view, members_view};
ghost use Rattle.serde_json.specs.Written.{has_float};
ghost use Rattle.gm_json.specs.Words.{line_of};

use serde_json::{Map, Value as Json, put};
use std::alloc::{AllocError, Global};

/// Returns a JSON string with this text. Bytes that aren't UTF-8 are replaced.
pub fn text_value(alloc: Global, text: &[u8]) -> Result<Json, AllocError>
    ensures { IfOk result (λ v. view v ≡ string (utf8_lossy text.now)) }
{
    Ok(Json::String(String::from_utf8_lossy(alloc, text)?))
}

/// Returns a JSON string with this word.
pub fn word_value(alloc: Global, word: &str) -> Result<Json, AllocError>
    ensures { IfOk result (λ v. view v ≡ string word.now) }
{
    Ok(Json::String(String::from_str(alloc, word)?))
}

/// Puts a text under a key of an object. Bytes that aren't UTF-8 are replaced.
pub fn put_text(
    alloc: Global,
    members: &mut Map<String, Json>,
    key: &str,
    text: &[u8],
) -> Result<(), AllocError>
    ensures { OnOk result (members_view members.new.entries ≡ with_member key.now (string (utf8_lossy text.now)) (members_view members.old.entries)) }
{
    put(members, alloc, key, text_value(alloc, text)?)
}

/// Puts a word under a key of an object.
pub(crate) fn put_word(
    alloc: Global,
    members: &mut Map<String, Json>,
    key: &str,
    word: &str,
) -> Result<(), AllocError>
    ensures { OnOk result (members_view members.new.entries ≡ with_member key.now (string word.now) (members_view members.old.entries)) }
{
    put(members, alloc, key, word_value(alloc, word)?)
}

/// Appends a tree as a line of compact JSON.
pub fn push_line(alloc: Global, lines: &mut Vec<u8>, tree: Json) -> Result<(), AllocError>
    requires { has_float (view tree) ≡ false }
    ensures { OnOk result (lines.new.items ≡ lines.old.items ++ line_of (view tree)) }
{
    let text = tree.to_string(alloc);
    drop(tree);
    let text = text?;
    lines.extend_from_slice(text.as_bytes())?;
    lines.extend_from_slice(b"\n")
}
