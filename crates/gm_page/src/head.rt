//! The first line of a page, which describes the game.
ghost use Rattle.std.specs.Prelude.{◌≡◌, ◌==◌, ◌<◌, ◌++◌, [], length, map, IfOk, OnOk, IfSome};
ghost use Rattle.serde_json.specs.Data.{array, object};
ghost use Rattle.serde_json.specs.View.{items_of, view, members_view};
ghost use Rattle.gm_json.specs.Words.{text};
ghost use Rattle.std.specs.List.{position};
ghost use Rattle.gm_draw.specs.Pictures.{texts};
ghost use Rattle.gm_page.specs.Heads.{head_tree, head_members, men_of, first_side, second_side, sides_tree, swaps as swaps_spec, name_text};
ghost use Rattle.gm_page.specs.Scripts.{script_line};

use crate::words::push_script_line;
use gm_draw::pictured::{Pictured, Style};
use gm_game::limits::NAME;
use gm_json::words::{put_text, text_value, word_value};
use serde_json::{Map, Value as Json, push, put};
use std::alloc::{AllocError, Global};

/// Appends the first line of a page, which begins with the position of this text.
pub(crate) fn push_head<G: Pictured>(
    alloc: Global,
    page: &mut Vec<u8>,
    start: &[u8],
    whole: bool,
) -> Result<(), AllocError>
    ensures { OnOk result (page.new.items
        ≡ page.old.items ++ script_line (head_tree G.Game.rules.name G.picture start.now whole)) }
{
    let mut members = Map::new(alloc);
    put_head::<G>(alloc, &mut members, start, whole)?;
    push_script_line(alloc, page, Json::Object(members))
}

// Puts the members of the first line into an empty object.
fn put_head<G: Pictured>(
    alloc: Global,
    members: &mut Map<String, Json>,
    start: &[u8],
    whole: bool,
) -> Result<(), AllocError>
    requires { members.old.entries ≡ [] }
    ensures { OnOk result (members_view members.new.entries
        ≡ head_members G.Game.rules.name G.picture start.now whole) }
{
    let picture = G::picture();
    let style = picture.style;
    put_text(alloc, members, "board", picture.board)?;
    put(members, alloc, "game", name_value(alloc, &G::name())?)?;
    put(members, alloc, "men", word_value(alloc, men(style))?)?;
    put_text(alloc, members, "naming", picture.naming)?;
    put(
        members,
        alloc,
        "points",
        points_value(alloc, picture.points)?,
    )?;
    put(members, alloc, "sides", sides_value(alloc, style)?)?;
    put_text(alloc, members, "start", start)?;
    put(members, alloc, "swap", Json::Bool(swaps(style)))?;
    put_text(alloc, members, "title", picture.title)?;
    put(members, alloc, "whole", Json::Bool(whole))
}

// Returns the text of a padded name.
fn name_value(alloc: Global, name: &[u8; NAME]) -> Result<Json, AllocError>
    ensures { IfOk result (λ v. view v ≡ text (name_text name.now)) }
{
    let end = first_zero(name).unwrap_or(NAME);
    text_value(alloc, &name[..end])
}

// Returns the length of a padded name that is shorter than its array.
fn first_zero(name: &[u8]) -> Option<usize>
    ensures value { result ≡ position (λ b. b == 0) name.now }
    ensures within { IfSome result (λ end. end < length name.now) }
{
    name.iter().position(|byte| *byte == 0)
}

// Returns the names of points.
fn points_value(alloc: Global, points: &[&[u8]]) -> Result<Json, AllocError>
    ensures { IfOk result (λ v. view v ≡ array (items_of (map text (texts points.now)))) }
{
    let mut cells = Vec::new(alloc);
    for point in points {
        push(&mut cells, text_value(alloc, point)?)?;
    }
    Ok(Json::Array(cells))
}

// Returns the names of the two sides.
fn sides_value(alloc: Global, style: Style) -> Result<Json, AllocError>
    ensures { IfOk result (λ v. view v ≡ sides_tree style) }
{
    let mut cells = Vec::new(alloc);
    let (first, second) = sides(style);
    push(&mut cells, word_value(alloc, first)?)?;
    push(&mut cells, word_value(alloc, second)?)?;
    Ok(Json::Array(cells))
}

// Returns the bytes that stand for men.
fn men(style: Style) -> &'static str
    ensures { result.now ≡ men_of style }
{
    match style {
        Style::Row | Style::Digits => "",
        Style::Counters => "x",
        Style::Crosses | Style::Stones | Style::Discs => "xo",
        Style::Letters => "dh",
        Style::Chess | Style::Figures => "KQRBNPk",
        Style::Hounds => "fh",
    }
}

// Returns the name of the side that begins, and that of the other side.
fn sides(style: Style) -> (&'static str, &'static str)
    ensures first { result.0.now ≡ first_side style }
    ensures second { result.1.now ≡ second_side style }
{
    match style {
        Style::Row | Style::Counters | Style::Digits => ("First", "Second"),
        Style::Crosses => ("X", "O"),
        Style::Stones | Style::Discs => ("Black", "White"),
        Style::Letters => ("Hounds", "Hare"),
        Style::Chess | Style::Figures => ("White", "Black"),
        Style::Hounds => ("Fox", "Hounds"),
    }
}

// Tests whether the men change sides after each move.
fn swaps(style: Style) -> bool
    ensures { result ≡ swaps_spec style }
{
    match style {
        Style::Crosses | Style::Stones | Style::Discs => true,
        Style::Row
        | Style::Counters
        | Style::Letters
        | Style::Chess
        | Style::Figures
        | Style::Hounds
        | Style::Digits => false,
    }
}
