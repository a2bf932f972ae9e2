//! Lists of positions: the lines of an input, each of a game and with the text of a position.
ghost use Rattle.std.specs.Prelude.{◌≡◌, ◌<◌, ◌++◌, ◌∷◌, [], true, false, length, IfOk, OnOk, IfErr, IfSome, Option, Some, None, ℕ, List};
ghost use Rattle.std.specs.List.{slice_get};
ghost use Rattle.gm_json.specs.Asking.{lines_of};
ghost use Rattle.gm_command.specs.declared.names.GameName.{GameName};
ghost use Rattle.gm_command.specs.Names.{game_of_name};
ghost use Rattle.gamesman.specs.Lists.{first_tab, before_tab, after_tab, game_on, text_on, HasNoGame, IsNoName, IsGameAdded, IsListOf, IsNoLine, IsWholeInput};
ghost use Rattle.gamesman.specs.Listed.{IsNoSheet, IsNoSheetOfInput};

use crate::fault::Fault;
use gm_command::names::{GameName, game_named};
use gm_play::streams::without_return;
use gm_tierdb::store_error::StoreError;
use gm_tierdb::streams::{READ_LEN, read_text};
use std::alloc::{AllocError, Global};
use std::io::Read;

/// A line of a list.
#[derive(Drop)]
pub struct ListLine {
    /// The place of its game among the games of the list.
    pub game: usize,
    /// The text of its position.
    pub text: Vec<u8>,
}

/// A list of positions of one or more games.
#[derive(Drop)]
pub struct PositionList {
    /// The games, each once, in the order in which they occur.
    pub games: Vec<GameName>,
    pub lines: Vec<ListLine>,
}

/// Reads an input to its end, of less than `READ_LEN` bytes.
pub fn read_input<I: Read>(alloc: Global, input: &mut I) -> Result<Vec<u8>, Fault>
    ensures ok { IfOk result (λ v. IsWholeInput (I.remaining input.old) v.items) }
    ensures err { IfErr result (λ fault. (all : Option GameName) → IsNoSheetOfInput all (I.remaining input.old) fault) }
{
    match read_text(alloc, input) {
        Ok(text) if text.len() == READ_LEN => Err(Fault::TooMuchInput),
        Ok(text) => Ok(text),
        Err(StoreError::OutOfMemory) => Err(Fault::OutOfMemory(AllocError)),
        Err(StoreError::Failed) => Err(Fault::InputFailed),
    }
}

/// Returns the list of the lines of these bytes. If a game is given all lines are of it, and each has the text of its position in the
/// first column. Otherwise the first column has the name of a game, and the second the text. Further columns are skipped.
pub fn list_of(alloc: Global, bytes: &[u8], all: Option<GameName>) -> Result<PositionList, Fault>
    ensures ok { IfOk result (IsListOf all (lines_of bytes.now)) }
    ensures err { IfErr result (IsNoSheet all (lines_of bytes.now)) }
{
    let mut list = PositionList {
        games: Vec::new(alloc),
        lines: Vec::new(alloc),
    };
    match push_lines(alloc, bytes, all, &mut list) {
        Ok(()) => Ok(list),
        Err(fault) => {
            drop(list);
            Err(fault)
        }
    }
}

// Appends the lines of these bytes to an empty list.
fn push_lines(
    alloc: Global,
    bytes: &[u8],
    all: Option<GameName>,
    list: &mut PositionList,
) -> Result<(), Fault>
    requires { IsListOf all [] list.old }
    ensures ok { OnOk result (IsListOf all (lines_of bytes.now) list.new) }
    ensures err { IfErr result (IsNoSheet all (lines_of bytes.now)) }
{
    let mut line = Vec::new(alloc);
    for byte in bytes {
        if *byte == b'\n' {
            push_line(alloc, line.as_slice(), all, list)?;
            line.clear();
        } else {
            push_byte(&mut line, *byte)?;
        }
    }
    if line.is_empty() {
        return Ok(());
    }
    push_line(alloc, line.as_slice(), all, list)
}

// Appends a line. A carriage return at its end is no part of it.
fn push_line(
    alloc: Global,
    line: &[u8],
    all: Option<GameName>,
    list: &mut PositionList,
) -> Result<(), Fault>
    ensures ok { OnOk result ((lines : List (List ℕ)) → IsListOf all lines list.old → IsListOf all (lines ++ line.now ∷ []) list.new) }
    ensures err { IfErr result (IsNoLine all line.now (length list.old.lines.items)) }
{
    let Some((game, text)) = read_line(without_return(line), all) else {
        let line = (list.lines.len() as u64).saturating_add(1);
        return Err(Fault::NoSuchGameInLine { line });
    };
    let place = place_in(&mut list.games, game)?;
    push_text(alloc, &mut list.lines, place, text)?;
    Ok(())
}

// Appends a byte.
fn push_byte(line: &mut Vec<u8>, byte: u8) -> Result<(), AllocError>
    ensures { OnOk result (line.new.items ≡ line.old.items ++ byte ∷ []) }
{
    line.push(byte)?;
    Ok(())
}

// Appends the line with a game at this place and with this text of a position.
fn push_text(
    alloc: Global,
    lines: &mut Vec<ListLine>,
    game: usize,
    text: &[u8],
) -> Result<(), AllocError>
    ensures { OnOk result ((l : ListLine) × (lines.new.items ≡ lines.old.items ++ l ∷ []) × (l.game ≡ game) × (l.text.items ≡ text.now)) }
{
    let mut owned = Vec::new(alloc);
    owned.extend_from_slice(text)?;
    lines.push(ListLine { game, text: owned })?;
    Ok(())
}

// Returns the game of a line, and the text of its position.
fn read_line(line: &[u8], all: Option<GameName>) -> Option<(GameName, &[u8])>
    ensures some { IfSome result (λ x. (game_on all line.now ≡ Some x.0) × (x.1.now ≡ text_on all line.now)) }
    ensures none { result ≡ None → HasNoGame all line.now }
{
    let (first, rest) = columns(line);
    match all {
        Some(game) => Some((game, first)),
        None => match game_spelt(first) {
            Some(game) => Some((game, columns(rest).0)),
            None => None,
        },
    }
}

// Returns the game whose name these bytes are.
fn game_spelt(name: &[u8]) -> Option<GameName>
    ensures some { IfSome result (λ game. game_of_name name.now ≡ Some game) }
    ensures none { result ≡ None → IsNoName name.now }
{
    match str::from_utf8(name) {
        Ok(name) => game_named(name),
        Err(_) => None,
    }
}

// Returns a line up to its first tab, and what comes after that.
fn columns(line: &[u8]) -> (&[u8], &[u8])
    ensures first { result.0.now ≡ before_tab line.now }
    ensures rest { result.1.now ≡ after_tab line.now }
{
    match tab_in(line) {
        Some(k) => (&line[..k], &line[k + 1..]),
        None => (line, &[]),
    }
}

// Returns the place of the first tab.
fn tab_in(line: &[u8]) -> Option<usize>
    ensures value { result ≡ first_tab line.now }
    ensures within { IfSome result (λ k. k < length line.now) }
{
    line.iter().position(|byte| *byte == b'\t')
}

// Returns the place of a game among these, to which it is added if it isn't there.
fn place_in(games: &mut Vec<GameName>, game: GameName) -> Result<usize, AllocError>
    ensures here { IfOk result (λ k. slice_get games.new.items k ≡ Some game) }
    ensures added { OnOk result (IsGameAdded games.old.items game games.new.items) }
{
    if let Some(place) = place_among(games.as_slice(), game) {
        return Ok(place);
    }
    let place = games.len();
    games.push(game)?;
    Ok(place)
}

// Returns the place of a game among these, if it is there.
fn place_among(games: &[GameName], game: GameName) -> Option<usize>
    ensures here { IfSome result (λ k. slice_get games.now k ≡ Some game) }
    ensures new { result ≡ None → (j : ℕ) → slice_get games.now j ≡ Some game → ⊥ }
{
    for k in 0..games.len() {
        if is_at(games, k, game) {
            return Some(k);
        }
    }
    None
}

// Tests whether a game is at this place among these.
fn is_at(games: &[GameName], k: usize, game: GameName) -> bool
    requires { k < length games.now }
    ensures same { result ≡ true → slice_get games.now k ≡ Some game }
    ensures other { result ≡ false → slice_get games.now k ≡ Some game → ⊥ }
{
    game_at(games, k) == game
}

/// Returns the game at this place among these.
#[tactic(auto, using(crate::proofs::Sheeted::found_at))]
pub fn game_at(games: &[GameName], k: usize) -> GameName
    requires { k < length games.now }
    ensures { slice_get games.now k ≡ Some result }
{
    games[k]
}

/// Returns the line at this place among these.
#[tactic(auto, using(crate::proofs::Sheeted::found_at))]
pub fn line_at(lines: &[ListLine], j: usize) -> &ListLine
    requires { j < length lines.now }
    ensures { slice_get lines.now j ≡ Some result.now }
{
    &lines[j]
}
