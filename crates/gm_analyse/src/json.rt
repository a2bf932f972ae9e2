//! The text of an analysis in JSON.
ghost use Rattle.std.specs.Prelude.{◌≡◌, ◌==◌, ◌<◌, ◌++◌, ◌∷◌, [], ℕ, length, map, IfOk, OnOk, IfSome, string_bytes};
ghost use Rattle.serde_json.specs.Written.{compact_text};
ghost use Rattle.serde_json.specs.Data.{object};
ghost use Rattle.serde_json.specs.View.{view, members_view};
ghost use Rattle.std.specs.List.{position};
ghost use Rattle.gm_game.specs.Texts.{IsPaddedText};
ghost use Rattle.gm_analyse.specs.Tree.{name_text, count_tree, counts_tree, longest_tree, analysis_tree};

use crate::analysis::Analysis;
use crate::counts::Count;
use gm_game::game::{Game, laws};
use gm_game::limits::NAME;
use gm_play::texts::word_of;
use serde_json::{Map, Value as Json, json, push, put};
use std::alloc::{AllocError, Global};
use std::str;

/// Returns the analysis of a tier of the game as one line of compact JSON, with its members in alphabetical order. Each count is a list of a value's word, the
/// remoteness and the number; the longest win is a list of the remoteness and the index, or null if the tier has no win.
pub fn to_json<G: Game>(alloc: Global, analysis: &Analysis) -> Result<String, AllocError>
    ensures { IfOk result (λ s. string_bytes s ≡ compact_text (analysis_tree (name_text G.rules.name) analysis.now)) }
{
    laws::<G>();
    let name = G::name();
    let mut members = Map::new(alloc);
    put_members(alloc, &mut members, text_of(&name), analysis)?;
    let tree = Json::Object(members);
    let text = tree.to_string(alloc);
    drop(tree);
    text
}

// Returns the text of a padded name.
fn text_of(name: &[u8; NAME]) -> &str
    requires { IsPaddedText name.now }
    ensures { result.now ≡ name_text name.now }
{
    let end = first_zero(name).unwrap_or(NAME);
    str::from_utf8(&name[..end]).unwrap()
}

// Returns the end of a padded name, if it is shorter than its bytes.
fn first_zero(name: &[u8]) -> Option<usize>
    ensures value { result ≡ position (λ b. b == 0) name.now }
    ensures within { IfSome result (λ end. end < length name.now) }
{
    name.iter().position(|byte| *byte == 0)
}

// Puts the members of an analysis into an empty object.
fn put_members(
    alloc: Global,
    members: &mut Map<String, Json>,
    game: &str,
    analysis: &Analysis,
) -> Result<(), AllocError>
    requires { members.old.entries ≡ [] }
    ensures { OnOk result (object (members_view members.new.entries) ≡ analysis_tree game.now analysis.now) }
{
    put(members, alloc, "canonical", Json::from(analysis.canonical))?;
    let counts = counts_value(alloc, analysis.counts.list())?;
    put(members, alloc, "counts", counts)?;
    put(
        members,
        alloc,
        "game",
        Json::String(String::from_str(alloc, game)?),
    )?;
    put(members, alloc, "legal", Json::from(analysis.legal))?;
    put(
        members,
        alloc,
        "longest_win",
        longest_value(alloc, analysis.longest_win)?,
    )?;
    put(members, alloc, "size", Json::from(analysis.size))?;
    put(members, alloc, "tier", Json::from(analysis.tier))
}

fn counts_value(alloc: Global, counts: &[Count]) -> Result<Json, AllocError>
    ensures { IfOk result (λ v. view v ≡ counts_tree counts.now) }
{
    let mut list = Vec::new(alloc);
    for count in counts {
        push_count(alloc, &mut list, count)?;
    }
    Ok(Json::Array(list))
}

// Appends one count.
fn push_count(alloc: Global, list: &mut Vec<Json>, count: &Count) -> Result<(), AllocError>
    ensures { OnOk result (map view list.new.items ≡ map view list.old.items ++ count_tree count.now ∷ []) }
{
    let tree = json!(in alloc; [word_of(count.value), count.remoteness, count.number])?;
    push(list, tree)
}

fn longest_value(alloc: Global, longest: Option<(u32, u64)>) -> Result<Json, AllocError>
    ensures { IfOk result (λ v. view v ≡ longest_tree longest) }
{
    match longest {
        None => Ok(Json::Null),
        Some((remoteness, index)) => json!(in alloc; [remoteness, index]),
    }
}
