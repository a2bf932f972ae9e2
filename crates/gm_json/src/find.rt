//! Found positions, in JSON.
ghost use Rattle.std.specs.Prelude.{◌≡◌, [], true, IfOk, OnOk, is_some};
ghost use Rattle.std.specs.List.{All, flat_map};
ghost use Rattle.serde_json.specs.Data.{object};
ghost use Rattle.serde_json.specs.View.{view, members_view};
ghost use Rattle.gm_play.specs.BestMoves.{IsBestMove};
ghost use Rattle.gm_find.specs.Founds.{IsFound};
ghost use Rattle.gm_json.specs.Words.{move_or_null};
ghost use Rattle.gm_json.specs.Founds.{with_tries, found_tree, found_line, IsFoundJson};

use crate::words::{push_line, put_text, put_word, text_value};
use gm_find::choice::find_some;
use gm_find::found::Found;
use gm_find::reached::Reached;
use gm_find::sought::{Choice, Sought};
use gm_find::tries::Tries;
use gm_game::position::Position;
use gm_game::shown::Shown;
use gm_play::known_tiers::KnownTiers;
use gm_play::texts::word_of;
use serde_json::{Map, Value as Json, put};
use std::alloc::{AllocError, Global};

/// Returns the canonical positions that are sought as lines of compact JSON, each with its end: the best move (`null` at an end), the number of the moves, the
/// position, its remoteness and its value, and its tries, if they are counted. The members are in alphabetical order; the lines come tier by tier in the order given and by ascending index: the
/// first of them, or a random choice. If a set of reached positions is given, only positions in it count.
pub fn find_json<G: Shown>(
    alloc: Global,
    known: &KnownTiers<'_, G>,
    sought: Sought,
    reached: Option<&Reached<G>>,
    choice: Choice,
) -> Result<Vec<u8>, AllocError>
    ensures { IfOk result (λ v. IsFoundJson G.Game.rules G.shown G.move_shown sought (is_some reached.entry) choice known.now.tiers.now v.items) }
{
    let found = find_some(alloc, known, sought, reached, choice)?;
    found_lines::<G>(alloc, found.as_slice())
}

/// Returns the lines of found positions, as `find_json` has them.
pub fn found_lines<G: Shown>(alloc: Global, found: &[Found]) -> Result<Vec<u8>, AllocError>
    requires { All (IsFound G.Game.rules) found.now }
    ensures { IfOk result (λ v. v.items ≡ flat_map (found_line G.shown G.move_shown) found.now) }
{
    let mut lines = Vec::new(alloc);
    for x in found {
        let mut members = Map::new(alloc);
        put_found::<G>(alloc, &mut members, *x)?;
        push_line(alloc, &mut lines, Json::Object(members))?;
    }
    Ok(lines)
}

// Puts the members of a found position into an empty object.
fn put_found<G: Shown>(
    alloc: Global,
    members: &mut Map<String, Json>,
    x: Found,
) -> Result<(), AllocError>
    requires empty { members.old.entries ≡ [] }
    requires found { IsFound G.Game.rules x }
    ensures { OnOk result (object (members_view members.new.entries) ≡ found_tree G.shown G.move_shown x) }
{
    let best = best_value::<G>(alloc, x.position, x.best)?;
    put(members, alloc, "bestMove", best)?;
    put(members, alloc, "moves", Json::from(x.moves as u64))?;
    put_text(alloc, members, "position", G::show(x.position).as_slice())?;
    put(members, alloc, "remoteness", Json::from(x.value.remoteness))?;
    put_word(alloc, members, "value", word_of(x.value.value))?;
    put_tries(alloc, members, x.tries)
}

// Puts the tries of a position into an object, if they are counted.
fn put_tries(
    alloc: Global,
    members: &mut Map<String, Json>,
    tries: Option<Tries>,
) -> Result<(), AllocError>
    ensures { OnOk result (members_view members.new.entries ≡ with_tries tries (members_view members.old.entries)) }
{
    let Some(x) = tries else {
        return Ok(());
    };
    put(members, alloc, "least", Json::from(x.least as u64))?;
    put(members, alloc, "sum", Json::from(x.total))?;
    put(members, alloc, "tries", Json::from(x.own as u64))
}

// Returns a best move; null at an end.
fn best_value<G: Shown>(alloc: Global, p: Position, best: Option<u32>) -> Result<Json, AllocError>
    requires legal { G.Game.rules.is_legal p ≡ true }
    requires best { IsBestMove G.Game.rules p best }
    ensures { IfOk result (λ v. view v ≡ move_or_null G.move_shown p best) }
{
    match best {
        Some(m) => text_value(alloc, G::move_text(p, m).as_slice()),
        None => Ok(Json::Null),
    }
}
