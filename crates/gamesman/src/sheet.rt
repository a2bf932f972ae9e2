//! Sheets of the positions of a list.
ghost use Rattle.std.specs.Prelude.{◌≡◌, ◌<◌, ◌+◌, [], length, IfOk, OnOk, IfErr, Option, set, ℕ, List};
ghost use Rattle.gm_tiers.specs.Orders.{IsTierOrder};
ghost use Rattle.gm_build.specs.Work.{HoldsExactly};
ghost use Rattle.gm_command.specs.declared.names.GameName.{GameName};
ghost use Rattle.gamesman.specs.Games.{spec};
ghost use Rattle.gamesman.specs.Lists.{IsListOf};
ghost use Rattle.gamesman.specs.Listed.{AreFilled, IsPartOf, IsPuzzleOf, IsNoPuzzle, IsUnfilled, IsFilledBy, AreAllFilled, IsUnfilledOf, title_of, sheet_caption, IsSheetWith, IsListedSheet, IsNoSheet, IsSheetOfInput, IsNoSheetOfInput, IsSheetWritten, IsSheeted};

use crate::fault::Fault;
use crate::games::fill_for;
use crate::host::Host;
use crate::list::{ListLine, PositionList, game_at, line_at, list_of, read_input};
use crate::output::put_all;
use crate::tables::BuildOptions;
use gm_build::build::Built;
use gm_caption::caption::Caption;
use gm_command::names::{GameName, game_named};
use gm_command::requests::SheetRequest;
use gm_draw::pictured::Pictured;
use gm_game::game::laws;
use gm_page::puzzles::{Puzzle, SheetLook, listed_sheet, push_legend, put_in_order, puzzle_of};
use gm_play::closed::Closed;
use std::alloc::{AllocError, Global};
use std::io::{Read, Write};

/// The parts of a sheet.
#[derive(Drop)]
pub struct Parts {
    /// The puzzle of each line of the list, blank until it is made.
    pub puzzles: Vec<Puzzle>,
    /// The lines on who is who.
    pub legends: Vec<u8>,
}

/// Writes a sheet of the positions of the input, one in each line. It is written once it is whole.
pub fn write_sheet<R: Host, I: Read, O: Write, E: Write + Send>(
    rt: &R,
    request: SheetRequest<'_>,
    terminal: bool,
    input: &mut I,
    output: &mut O,
    errors: &mut E,
) -> Result<u8, Fault>
    ensures { IsSheeted request.entry (I.remaining input.old) (O.contents output.old) (O.contents output.new) result }
{
    match request.game {
        None => write_all(rt, None, request, terminal, input, output, errors),
        Some(name) => match game_named(name) {
            Some(game) => write_all(rt, Some(game), request, terminal, input, output, errors),
            None => Err(Fault::NoSuchGame),
        },
    }
}

// Writes a sheet of the positions of the input, all of a game if one is given.
fn write_all<R: Host, I: Read, O: Write, E: Write + Send>(
    rt: &R,
    all: Option<GameName>,
    request: SheetRequest<'_>,
    terminal: bool,
    input: &mut I,
    output: &mut O,
    errors: &mut E,
) -> Result<u8, Fault>
    ensures { IsSheetWritten all request.entry (I.remaining input.old) (O.contents output.old) (O.contents output.new) result }
{
    let sheet = match sheet_of_input(rt, all, request, terminal, input, errors) {
        Ok(sheet) => sheet,
        Err(fault) => return Err(fault),
    };
    put_all(output, sheet.as_slice())
}

// Returns the sheet of the positions of the input.
fn sheet_of_input<R: Host, I: Read, E: Write + Send>(
    rt: &R,
    all: Option<GameName>,
    request: SheetRequest<'_>,
    terminal: bool,
    input: &mut I,
    errors: &mut E,
) -> Result<Vec<u8>, Fault>
    ensures ok { IfOk result (λ v. IsSheetOfInput all request.entry (I.remaining input.old) v.items) }
    ensures err { IfErr result (IsNoSheetOfInput all (I.remaining input.old)) }
{
    let bytes = match read_input(rt.alloc(), input) {
        Ok(bytes) => bytes,
        Err(fault) => return Err(fault),
    };
    let list = match list_of(rt.alloc(), bytes.as_slice(), all) {
        Ok(list) => list,
        Err(fault) => return Err(fault),
    };
    let options = BuildOptions::of_sheet(request, terminal);
    let sheet = sheet_of(rt, &list, request, options, errors);
    drop(list);
    drop(bytes);
    sheet
}

// Returns the heading.
fn title_of<'a>(title: Option<&'a str>) -> &'a [u8]
    ensures { result.now ≡ title_of title.entry }
{
    match title {
        Some(title) => title.as_bytes(),
        None => b"Puzzles",
    }
}

// Returns what is shown of each value.
fn sheet_caption<'a>(request: SheetRequest<'a>) -> Caption<'a>
    ensures { result ≡ sheet_caption request.entry }
{
    Caption::of(request.template, request.valued, request.own_moves)
}

// Returns the sheet of the positions of a list.
fn sheet_of<R: Host, E: Write + Send>(
    rt: &R,
    list: &PositionList,
    request: SheetRequest<'_>,
    options: BuildOptions<'_>,
    errors: &mut E,
) -> Result<Vec<u8>, Fault>
    ensures ok { IfOk result (λ v. (all : Option GameName) (lines : List (List ℕ)) → IsListOf all lines list.now → IsListedSheet all request.entry lines v.items) }
    ensures err { IfErr result (λ fault. (all : Option GameName) (lines : List (List ℕ)) → IsListOf all lines list.now → IsNoSheet all lines fault) }
{
    let mut parts = match blank_parts(rt.alloc(), list.lines.len()) {
        Ok(parts) => parts,
        Err(error) => return Err(Fault::OutOfMemory(error)),
    };
    let sheet = filled_sheet(rt, list, request, options, &mut parts, errors);
    drop(parts);
    sheet
}

// Returns the sheet of the positions of a list, whose parts it makes.
fn filled_sheet<R: Host, E: Write + Send>(
    rt: &R,
    list: &PositionList,
    request: SheetRequest<'_>,
    options: BuildOptions<'_>,
    parts: &mut Parts,
    errors: &mut E,
) -> Result<Vec<u8>, Fault>
    requires many { length parts.old.puzzles.items ≡ length list.now.lines.items }
    requires empty { parts.old.legends.items ≡ [] }
    ensures ok { IfOk result (λ v. (all : Option GameName) (lines : List (List ℕ)) → IsListOf all lines list.now → IsListedSheet all request.entry lines v.items) }
    ensures err { IfErr result (λ fault. (all : Option GameName) (lines : List (List ℕ)) → IsListOf all lines list.now → IsNoSheet all lines fault) }
{
    let look = SheetLook {
        valued: sheet_caption(request).is_valued(),
        arrow: request.arrow,
    };
    match fill_all(rt, list, look, options, parts, errors) {
        Ok(()) => sheet_with(rt.alloc(), request, parts),
        Err(fault) => Err(fault),
    }
}

// Returns the sheet of these parts.
fn sheet_with(alloc: Global, request: SheetRequest<'_>, parts: &mut Parts) -> Result<Vec<u8>, Fault>
    ensures ok { IfOk result (λ v. IsSheetWith request.entry parts.old v.items) }
    ensures err { IfErr result (λ fault. (all : Option GameName) (lines : List (List ℕ)) → IsNoSheet all lines fault) }
{
    match ordered_sheet(alloc, request, parts) {
        Ok(sheet) => Ok(sheet),
        Err(error) => Err(Fault::OutOfMemory(error)),
    }
}

// Returns the sheet of these parts, whose puzzles it puts in order.
fn ordered_sheet(
    alloc: Global,
    request: SheetRequest<'_>,
    parts: &mut Parts,
) -> Result<Vec<u8>, AllocError>
    ensures { IfOk result (λ v. IsSheetWith request.entry parts.old v.items) }
{
    put_in_order(&mut parts.puzzles, request.rising)?;
    let title = title_of(request.title);
    let legends = parts.legends.as_slice();
    let puzzles = parts.puzzles.as_slice();
    listed_sheet(alloc, title, legends, sheet_caption(request), puzzles)
}

// Returns the parts of a sheet before any is made, with a blank puzzle for each of this many lines.
fn blank_parts(alloc: Global, count: usize) -> Result<Parts, AllocError>
    ensures { IfOk result (λ parts. (length parts.puzzles.items ≡ count) × (parts.legends.items ≡ [])) }
{
    let mut puzzles = Vec::new(alloc);
    for _ in 0..count {
        puzzles.push(Puzzle::blank(alloc))?;
    }
    Ok(Parts {
        puzzles,
        legends: Vec::new(alloc),
    })
}

// Makes all puzzles of a list, game by game.
fn fill_all<R: Host, E: Write + Send>(
    rt: &R,
    list: &PositionList,
    look: SheetLook,
    options: BuildOptions<'_>,
    parts: &mut Parts,
    errors: &mut E,
) -> Result<(), Fault>
    requires many { length parts.old.puzzles.items ≡ length list.now.lines.items }
    requires empty { parts.old.legends.items ≡ [] }
    ensures ok { OnOk result (AreAllFilled look list.now (length list.now.games.items) parts.new) }
    ensures err { IfErr result (IsUnfilledOf list.now) }
{
    for k in 0..list.games.len() {
        fill_at(rt, list, k, look, options, parts, errors)?;
    }
    Ok(())
}

// Makes the puzzles of the game at the place k, after those of the games before it.
fn fill_at<R: Host, E: Write + Send>(
    rt: &R,
    list: &PositionList,
    k: usize,
    look: SheetLook,
    options: BuildOptions<'_>,
    parts: &mut Parts,
    errors: &mut E,
) -> Result<(), Fault>
    requires within { k < length list.now.games.items }
    requires before { AreAllFilled look list.now k parts.old }
    ensures ok { OnOk result (AreAllFilled look list.now (k + 1) parts.new) }
    ensures err { IfErr result (IsUnfilledOf list.now) }
{
    let game = game_at(list.games.as_slice(), k);
    let lines = list.lines.as_slice();
    fill_for(rt, game, k, lines, look, options, parts, errors)
}

/// Makes the parts of a sheet for those lines of a list whose game, of this type, is at the place k.
pub fn fill<G: Pictured + Send + Sync, R: Host, E: Write + Send>(
    rt: &R,
    k: usize,
    lines: &[ListLine],
    look: SheetLook,
    options: BuildOptions<'_>,
    parts: &mut Parts,
    errors: &mut E,
) -> Result<(), Fault>
    requires { length parts.old.puzzles.items ≡ length lines.now }
    ensures { IsFilledBy (spec G.Pictured) look k lines.now parts.old parts.new result }
{
    laws::<G>();
    let built = match options.build::<G, R, E>(rt, G::initial().tier, errors) {
        Ok(built) => built,
        Err(fault) => return Err(fault),
    };
    let filled = fill_from(rt.alloc(), &built, k, lines, look, parts);
    drop(built);
    filled
}

// Makes the parts from the tables of the game.
fn fill_from<G: Pictured>(
    alloc: Global,
    built: &Built<G>,
    k: usize,
    lines: &[ListLine],
    look: SheetLook,
    parts: &mut Parts,
) -> Result<(), Fault>
    requires order { IsTierOrder G.Game.rules built.now.order }
    requires held { HoldsExactly built.now.tables built.now.order }
    requires many { length parts.old.puzzles.items ≡ length lines.now }
    ensures ok { OnOk result (IsPartOf (spec G.Pictured) look k lines.now parts.old parts.new) }
    ensures err { IfErr result (IsUnfilled (spec G.Pictured) k lines.now) }
{
    push_legend::<G>(&mut parts.legends)?;
    fill_lines(alloc, built, k, lines, look, &mut parts.puzzles)
}

// Makes the puzzles of those lines whose game is at the place k.
fn fill_lines<G: Pictured>(
    alloc: Global,
    built: &Built<G>,
    k: usize,
    lines: &[ListLine],
    look: SheetLook,
    puzzles: &mut Vec<Puzzle>,
) -> Result<(), Fault>
    requires order { IsTierOrder G.Game.rules built.now.order }
    requires held { HoldsExactly built.now.tables built.now.order }
    requires many { length puzzles.old.items ≡ length lines.now }
    ensures ok { OnOk result (AreFilled (spec G.Pictured) look k lines.now (length lines.now) puzzles.old.items puzzles.new.items) }
    ensures err { IfErr result (IsUnfilled (spec G.Pictured) k lines.now) }
{
    for j in 0..lines.len() {
        fill_line(alloc, built, k, lines, j, look, puzzles)?;
    }
    Ok(())
}

// Makes the puzzle of the line at the place j, if its game is at the place k.
fn fill_line<G: Pictured>(
    alloc: Global,
    built: &Built<G>,
    k: usize,
    lines: &[ListLine],
    j: usize,
    look: SheetLook,
    puzzles: &mut Vec<Puzzle>,
) -> Result<(), Fault>
    requires order { IsTierOrder G.Game.rules built.now.order }
    requires held { HoldsExactly built.now.tables built.now.order }
    requires within { j < length lines.now }
    requires many { length puzzles.old.items ≡ length lines.now }
    ensures many { length puzzles.new.items ≡ length puzzles.old.items }
    ensures ok { OnOk result ((start : List Puzzle)
        → AreFilled (spec G.Pictured) look k lines.now j start puzzles.old.items
        → AreFilled (spec G.Pictured) look k lines.now (j + 1) start puzzles.new.items) }
    ensures err { IfErr result (λ fault. (start : List Puzzle)
        → AreFilled (spec G.Pictured) look k lines.now j start puzzles.old.items
        → IsUnfilled (spec G.Pictured) k lines.now fault) }
{
    let line = line_at(lines, j);
    let place = line.game;
    if place != k {
        return Ok(());
    }
    let number = number_at(lines, j);
    match puzzle_in(alloc, built, line.text.as_slice(), number, look) {
        Ok(made) => {
            put(puzzles, j, made);
            Ok(())
        }
        Err(fault) => Err(fault),
    }
}

// Returns the number of the line at the place j, counted from 1.
fn number_at(lines: &[ListLine], j: usize) -> u64
    requires { j < length lines.now }
    ensures { result ≡ j + 1 }
{
    let within = j < lines.len();
    prove!(within);
    (j + 1) as u64
}

// Puts a puzzle in the place of another.
fn put(puzzles: &mut Vec<Puzzle>, j: usize, made: Puzzle)
    requires { j < length puzzles.old.items }
    ensures { puzzles.new.items ≡ set puzzles.old.items j made }
{
    puzzles[j] = made;
}

// Returns the puzzle of the position with this text, from the line with this number.
fn puzzle_in<G: Pictured>(
    alloc: Global,
    built: &Built<G>,
    text: &[u8],
    line: u64,
    look: SheetLook,
) -> Result<Puzzle, Fault>
    requires order { IsTierOrder G.Game.rules built.now.order }
    requires held { HoldsExactly built.now.tables built.now.order }
    ensures ok { IfOk result (IsPuzzleOf (spec G.Pictured) look text.now) }
    ensures err { IfErr result (IsNoPuzzle (spec G.Pictured) text.now line) }
{
    let Some(position) = G::read(text) else {
        return Err(Fault::NoSuchPositionInLine { line });
    };
    let tables = Closed {
        tables: &built.tables,
    };
    let Some(known) = tables.known(position) else {
        return Err(Fault::NoSuchPositionInLine { line });
    };
    match puzzle_of(alloc, &known, look) {
        Ok(puzzle) => Ok(puzzle),
        Err(error) => Err(Fault::OutOfMemory(error)),
    }
}
