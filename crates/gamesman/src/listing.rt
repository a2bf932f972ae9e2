//! The lists of games with more than their names: with their titles, and in JSON.
ghost use Rattle.std.specs.Prelude.{◌≡◌, ◌++◌, [], IfOk, OnOk};
ghost use Rattle.std.specs.List.{flat_map};
ghost use Rattle.serde_json.specs.Data.{object};
ghost use Rattle.serde_json.specs.View.{members_view};
ghost use Rattle.gm_json.specs.Words.{line_of};
ghost use Rattle.gamesman.specs.Games.{spec, spec_of};
ghost use Rattle.gamesman.specs.Listing.{AreTheGames, AreTextsOf, data_of, entry_data, entry_tree, entry_line, listed_lines, title_line};

use crate::catalog::{LATER_ROWS, ROWS};
use gm_command::names::GameName;
use gm_command::with_games;
use gm_draw::pictured::Pictured;
use gm_game::game::laws;
use gm_game::position::Value;
use gm_game::shown::Line;
use gm_json::words::{push_line, put_text};
use gm_play::texts::word_of;
use serde_json::{Map, Value as Json, put};
use std::alloc::{AllocError, Global};

/// What the list of games in JSON has of a game besides its texts.
#[derive(Clone, Copy)]
pub struct Entry {
    pub name: &'static str,
    pub game: GameName,
    /// Its kind, in words.
    pub family: &'static str,
    /// The value of its start.
    pub value: Value,
    /// The remoteness of its start. A draw has none.
    pub remoteness: Option<u32>,
    /// The number of its legal positions.
    pub legal: u64,
}

/// A row of the table of games: the parts of an entry, in their order.
pub type Row = (
    &'static str,
    GameName,
    &'static str,
    Value,
    Option<u32>,
    u64,
);

// Returns the entry of a row.
fn entry_of(row: &Row) -> Entry
    ensures { data_of result ≡ entry_data row.now.0.now row.now.1 row.now.2.now row.now.3 row.now.4 row.now.5 }
{
    let (name, game, family, value, remoteness, legal) = *row;
    Entry {
        name,
        game,
        family,
        value,
        remoteness,
        legal,
    }
}

/// Returns a line for each game that `list` prints, each with its end: a line of JSON, or the name and the title. On request those that were added later
/// follow. The games are those of the two tables of names, in their order.
pub fn games_text(alloc: Global, all: bool, json: bool) -> Result<Vec<u8>, AllocError>
    ensures lines { IfOk result (λ v. v.items ≡ listed_lines json all) }
    ensures named { AreTheGames }
{
    let mut lines = lines_of(alloc, &ROWS, json)?;
    if !all {
        return Ok(lines);
    }
    let later = lines_of(alloc, &LATER_ROWS, json)?;
    lines.extend_from_slice(later.as_slice())?;
    Ok(lines)
}

// Returns the lines of these games.
fn lines_of(alloc: Global, rows: &[Row], json: bool) -> Result<Vec<u8>, AllocError>
    ensures { IfOk result (λ v. v.items ≡ flat_map (λ row. entry_line json (entry_data row.0.now row.1 row.2.now row.3 row.4 row.5)) rows.now) }
{
    let mut lines = Vec::new(alloc);
    for row in rows {
        push_line_of(alloc, &mut lines, &entry_of(row), json)?;
    }
    Ok(lines)
}

// The texts of a game that its entry has none of.
#[derive(Drop)]
struct Texts {
    // Its start.
    start: Line,
    // Its title.
    title: &'static [u8],
}

// Returns the texts of the game of this type.
fn texts_of<G: Pictured>() -> Texts
    ensures { AreTextsOf (spec G.Pictured) result }
{
    laws::<G>();
    Texts {
        start: G::show(G::initial()),
        title: G::picture().title,
    }
}

// Returns the texts of the game of this name.
fn texts_for(game: GameName) -> Texts
    ensures { AreTextsOf (spec_of game) result }
{
    macro_rules! texts {
        ([] $({ $($literal:literal => $game:ident: $type:ty,)* })*) => {
            match game {
                $($(GameName::$game => texts_of::<$type>(),)*)*
            }
        };
    }
    with_games!(texts)
}

// Appends the line of a game.
fn push_line_of(
    alloc: Global,
    lines: &mut Vec<u8>,
    entry: &Entry,
    json: bool,
) -> Result<(), AllocError>
    ensures { OnOk result (lines.new.items ≡ lines.old.items ++ entry_line json (data_of entry.now)) }
{
    let texts = texts_for(entry.game);
    if json {
        push_entry(alloc, lines, entry, &texts)
    } else {
        push_title(lines, entry, &texts)
    }
}

// Appends the name and the title of a game.
fn push_title(lines: &mut Vec<u8>, entry: &Entry, texts: &Texts) -> Result<(), AllocError>
    ensures { OnOk result (lines.new.items ≡ lines.old.items ++ title_line (data_of entry.now) texts.now.title.now) }
{
    lines.extend_from_slice(entry.name.as_bytes())?;
    lines.extend_from_slice(b"\t")?;
    lines.extend_from_slice(texts.title)?;
    lines.extend_from_slice(b"\n")
}

// Appends the line of JSON of a game.
fn push_entry(
    alloc: Global,
    lines: &mut Vec<u8>,
    entry: &Entry,
    texts: &Texts,
) -> Result<(), AllocError>
    ensures { OnOk result (lines.new.items
        ≡ lines.old.items ++ line_of (entry_tree (data_of entry.now) texts.now.start.items texts.now.title.now)) }
{
    let mut members = Map::new(alloc);
    put_entry(alloc, &mut members, entry, texts)?;
    push_line(alloc, lines, Json::Object(members))
}

// Puts the members of a game into an empty object.
fn put_entry(
    alloc: Global,
    members: &mut Map<String, Json>,
    entry: &Entry,
    texts: &Texts,
) -> Result<(), AllocError>
    requires { members.old.entries ≡ [] }
    ensures { OnOk result (object (members_view members.new.entries)
        ≡ entry_tree (data_of entry.now) texts.now.start.items texts.now.title.now) }
{
    let remoteness = match entry.remoteness {
        Some(remoteness) => Json::from(remoteness),
        None => Json::Null,
    };
    put_text(alloc, members, "family", entry.family.as_bytes())?;
    put(members, alloc, "legal", Json::from(entry.legal))?;
    put_text(alloc, members, "name", entry.name.as_bytes())?;
    put(members, alloc, "remoteness", remoteness)?;
    put_text(alloc, members, "start", texts.start.as_slice())?;
    put_text(alloc, members, "title", texts.title)?;
    put_text(alloc, members, "value", word_of(entry.value).as_bytes())
}
