//! Lines that are objects of JSON: the lines of text that an object stands for, and the id of its answers.
ghost use Rattle.std.specs.Prelude.{◌≡◌, ◌++◌, ◌∷◌, [], None, true, drop, map, IfOk, IfSome, OnOk, option_map};
ghost use Rattle.serde_json.specs.View.{view, items_view};
ghost use Rattle.gm_json.specs.Objects.{is_braced, IsObject, IsNoObject, lines_of_items, lines_of_places, lines_named, lines_in, is_id, is_named, id_in, with_id};
ghost use Rattle.gm_json.specs.Places.{place_line};

use crate::parts::{push_bytes, push_number};
use serde_json::Value as Json;
use std::alloc::{AllocError, Global};

/// The number of bytes that an object of a line has at most.
pub(crate) const LONGEST: usize = 65_536;

// Tests whether a line begins with a brace.
fn is_braced(line: &[u8]) -> bool
    ensures { result ≡ is_braced line.now }
{
    match line.first() {
        Some(first) => *first == b'{',
        None => false,
    }
}

/// Returns the object that a line is, if it is one.
pub(crate) fn object_of(alloc: Global, line: &[u8]) -> Result<Option<Json>, AllocError>
    ensures is { IfOk result (λ o. IfSome o (λ v. IsObject line.now (view v))) }
    ensures none { IfOk result (λ o. o ≡ None → IsNoObject line.now) }
{
    if !is_braced(line) || line.len() > LONGEST {
        return Ok(None);
    }
    match Json::from_slice(alloc, line) {
        Ok(tree) => Ok(Some(tree)),
        Err(error) if error.is_memory() => Err(AllocError),
        Err(_) => Ok(None),
    }
}

// Returns the line that names a tier and an index.
fn line_at(alloc: Global, tier: u64, index: u64) -> Result<Vec<u8>, AllocError>
    ensures { IfOk result (λ v. v.items ≡ place_line tier index) }
{
    let mut line = Vec::new(alloc);
    push_bytes(&mut line, b"@")?;
    push_number(&mut line, tier)?;
    push_bytes(&mut line, b" ")?;
    push_number(&mut line, index)?;
    Ok(line)
}

// Returns a list of one line.
fn one_line(alloc: Global, line: Vec<u8>) -> Result<Vec<Vec<u8>>, AllocError>
    ensures { IfOk result (λ v. map (λ l. l.items) v.items ≡ line.items ∷ []) }
{
    let mut lines = Vec::new(alloc);
    lines.push(line)?;
    Ok(lines)
}

// Returns the lines of the places in a tier whose indexes a list has. Returns `None` if an item is no index.
fn lines_of_items(
    alloc: Global,
    tier: u64,
    items: &[Json],
) -> Result<Option<Vec<Vec<u8>>>, AllocError>
    ensures { IfOk result (λ o. option_map (λ v. map (λ l. l.items) v.items) o ≡ lines_of_items tier (items_view items.now)) }
{
    let mut lines = Vec::new(alloc);
    for item in items {
        let Some(index) = item.as_u64() else {
            return Ok(None);
        };
        lines.push(line_at(alloc, tier, index)?)?;
    }
    Ok(Some(lines))
}

// Returns the lines of the places in a tier that an object names: by `indexes`, or else by `index`.
fn lines_of_places(
    alloc: Global,
    tree: &Json,
    tier: u64,
) -> Result<Option<Vec<Vec<u8>>>, AllocError>
    ensures { IfOk result (λ o. option_map (λ v. map (λ l. l.items) v.items) o ≡ lines_of_places (view tree.now) tier) }
{
    if let Some(list) = tree.get("indexes") {
        return match list.as_array() {
            Some(items) => lines_of_items(alloc, tier, items.as_slice()),
            None => Ok(None),
        };
    }
    match tree.get("index").and_then(Json::as_u64) {
        Some(index) => Ok(Some(one_line(alloc, line_at(alloc, tier, index)?)?)),
        None => Ok(None),
    }
}

// Returns the lines that an object names: the text of `position`, or else the places in `tier`.
fn lines_named(alloc: Global, tree: &Json) -> Result<Option<Vec<Vec<u8>>>, AllocError>
    ensures { IfOk result (λ o. option_map (λ v. map (λ l. l.items) v.items) o ≡ lines_named (view tree.now)) }
{
    if let Some(text) = tree.get("position") {
        return match text.as_str() {
            Some(text) => {
                let line = Vec::from_slice(alloc, text.as_bytes())?;
                Ok(Some(one_line(alloc, line)?))
            }
            None => Ok(None),
        };
    }
    match tree.get("tier").and_then(Json::as_u64) {
        Some(tier) => lines_of_places(alloc, tree, tier),
        None => Ok(None),
    }
}

// Tests whether a value can be an id: a text or a whole number.
fn is_id(id: &Json) -> bool
    ensures { result ≡ is_id (view id.now) }
{
    id.is_string() || (id.is_number() && !id.is_f64())
}

/// Tests whether an object has an id, or no member of that name.
pub(crate) fn is_named(tree: &Json) -> bool
    ensures { result ≡ is_named (view tree.now) }
{
    match tree.get("id") {
        Some(id) => is_id(id),
        None => true,
    }
}

/// Returns the id of the answers to an object, if it has one.
pub(crate) fn id_of(tree: &Json) -> Option<&Json>
    ensures { option_map (λ v. view v.now) result ≡ id_in (view tree.now) }
{
    if is_named(tree) { tree.get("id") } else { None }
}

/// Returns the lines that an object stands for: the text of a position, or the lines that name its places.
pub(crate) fn lines_of(alloc: Global, tree: &Json) -> Result<Option<Vec<Vec<u8>>>, AllocError>
    ensures { IfOk result (λ o. option_map (λ v. map (λ l. l.items) v.items) o ≡ lines_in (view tree.now)) }
{
    if is_named(tree) {
        lines_named(alloc, tree)
    } else {
        Ok(None)
    }
}

/// Appends an answer, with the id as its first member.
pub(crate) fn push_with_id(
    alloc: Global,
    out: &mut Vec<u8>,
    id: Option<&Json>,
    answer: &[u8],
) -> Result<(), AllocError>
    requires { IfSome id (λ v. is_id (view v.now) ≡ true) }
    ensures { OnOk result (out.new.items ≡ out.old.items ++ with_id (option_map (λ v. view v.now) id.entry) answer.now) }
{
    let Some(id) = id else {
        return push_bytes(out, answer);
    };
    let text = id.to_string(alloc)?;
    push_bytes(out, b"{\"id\":")?;
    push_bytes(out, text.as_bytes())?;
    push_bytes(out, b",")?;
    push_bytes(out, after_first(answer))
}

// Returns the bytes after the first one.
fn after_first(bytes: &[u8]) -> &[u8]
    ensures { result.now ≡ drop 1 bytes.now }
{
    match bytes.split_first() {
        Some((_, rest)) => rest,
        None => bytes,
    }
}
