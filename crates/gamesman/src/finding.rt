//! The line of `check` for a tier.
ghost use Rattle.std.specs.Prelude.{◌≡◌, ◌+◌, ◌≤◌, ◌++◌, IfOk};
ghost use Rattle.serde_json.specs.View.{view};
ghost use Rattle.gm_json.specs.Words.{line_of};
ghost use Rattle.arrayvec.specs.ArrayVec.{array_vec_len};
ghost use Rattle.gamesman.specs.Checking.{file_words, finding_words, finding_line, finding_tree, tier_line, status_with};

use crate::run::REFUSED;
use arrayvec::ArrayVec;
use gm_build::inspect::TierState;
use gm_game::limits::LINE;
use gm_game::shown::Line;
use gm_game::text::{push_decimal, push_text};
use gm_json::words::{push_line, put_text};
use gm_table::checker::CheckError;
use gm_tierdb::file_error::FileError;
use serde_json::{Map, Value as Json, put};
use std::alloc::{AllocError, Global};

// A bound on the bytes of a tier's line.
const ROOM: usize = 2 * LINE + 2;

/// Returns the line for a tier whose file has this state, of JSON or of words.
pub fn line_in(
    alloc: Global,
    tier: u64,
    state: TierState,
    json: bool,
) -> Result<Vec<u8>, AllocError>
    ensures { IfOk result (λ v. v.items ≡ tier_line json tier state) }
{
    if json {
        json_line(alloc, tier, state)
    } else {
        words_line(alloc, tier, state)
    }
}

// Returns the line of JSON.
fn json_line(alloc: Global, tier: u64, state: TierState) -> Result<Vec<u8>, AllocError>
    ensures { IfOk result (λ v. v.items ≡ line_of (finding_tree tier state)) }
{
    let tree = tree_of(alloc, tier, state)?;
    let mut line = Vec::new(alloc);
    push_line(alloc, &mut line, tree)?;
    Ok(line)
}

// Returns the line of words.
fn words_line(alloc: Global, tier: u64, state: TierState) -> Result<Vec<u8>, AllocError>
    ensures { IfOk result (λ v. v.items ≡ finding_line tier state) }
{
    let mut line = Vec::new(alloc);
    line.extend_from_slice(line_bytes(tier, state).as_slice())?;
    Ok(line)
}

// Returns the finding on a tier's file as a tree.
fn tree_of(alloc: Global, tier: u64, state: TierState) -> Result<Json, AllocError>
    ensures { IfOk result (λ v. view v ≡ finding_tree tier state) }
{
    let mut members = Map::new(alloc);
    put_text(alloc, &mut members, "finding", words_of(state).as_slice())?;
    put(&mut members, alloc, "tier", Json::from(tier))?;
    Ok(Json::Object(members))
}

fn line_bytes(tier: u64, state: TierState) -> ArrayVec<u8, ROOM>
    ensures { result.items ≡ finding_line tier state }
{
    let mut head = ArrayVec::new();
    push_text(&mut head, b"tier ");
    push_decimal(&mut head, tier);
    let words = words_of(state);
    let mut line = ArrayVec::new();
    let _fits = line.try_extend_from_slice(head.as_slice());
    line.push(b' ');
    let _fits = line.try_extend_from_slice(words.as_slice());
    line.push(b'\n');
    line
}

/// Returns the exit status after one more tier, whose file has this state.
pub fn status_after(state: TierState, before: u8) -> u8
    ensures { result ≡ status_with before state }
{
    match state {
        TierState::Right => before,
        TierState::Missing | TierState::NotChecked => REFUSED,
        TierState::NoFile(_) | TierState::NoTable(_) => REFUSED,
    }
}

fn words_of(state: TierState) -> Line
    ensures { result.items ≡ finding_words state }
{
    let mut line = ArrayVec::new();
    match state {
        TierState::Right => push_text(&mut line, b"ok"),
        TierState::Missing => push_text(&mut line, b"missing"),
        TierState::NotChecked => push_text(&mut line, b"not checked"),
        TierState::NoFile(why) => {
            push_text(&mut line, b"bad: ");
            push_why(&mut line, why);
        }
        TierState::NoTable(CheckError::WrongRecord { index }) => {
            push_text(&mut line, b"bad: wrong record ");
            push_decimal(&mut line, index);
        }
        TierState::NoTable(CheckError::WrongSize | CheckError::OutOfMemory) => {
            push_text(&mut line, b"bad: wrong size");
        }
    }
    line
}

// Appends the reason why bytes are not a file of a tier.
fn push_why(line: &mut Line, why: FileError)
    requires { array_vec_len line.old + 32 ≤ LINE }
    ensures { line.new.items ≡ line.old.items ++ file_words why }
{
    match why {
        FileError::OutOfMemory => push_text(line, b"out of memory"),
        FileError::Truncated => push_text(line, b"truncated"),
        FileError::BadMagic => push_text(line, b"bad magic"),
        FileError::WrongGame => push_text(line, b"wrong game"),
        FileError::WrongTier => push_text(line, b"wrong tier"),
        FileError::WrongSize => push_text(line, b"wrong size"),
        FileError::BadRecord { index } => {
            push_text(line, b"bad record ");
            push_decimal(line, index);
        }
        FileError::Trailing => push_text(line, b"trailing bytes"),
        FileError::BadDigest => push_text(line, b"bad digest"),
        FileError::OldVersion => push_text(line, b"old version"),
    }
}
