//! How hard each move is to answer, in JSON.
ghost use Rattle.std.specs.Prelude.{◌≡◌, true, IfOk};
ghost use Rattle.serde_json.specs.View.{view};
ghost use Rattle.gm_play.specs.PlayTexts.{IsMoveOf};
ghost use Rattle.gm_json.specs.RepliesLines.{or_null, replies_tree, IsRepliesJson};

use crate::words::{push_line, put_text, put_word};
use gm_game::position::Position;
use gm_game::shown::Shown;
use gm_play::firsts::moves_of;
use gm_play::known::Known;
use gm_play::move_values::MoveValue;
use gm_play::replies::{Replies, replies_in};
use gm_play::texts::word_of;
use serde_json::{Map, Value as Json, put};
use std::alloc::{AllocError, Global};

/// Returns a line of compact JSON for each move of a position, the best first: the move with its worth and its result, how many replies there are, how many keep
/// the value of the result, and the least number of moves in which one loses. If `distinct` is set, only the first of several moves that lead to one canonical
/// position is kept.
pub fn replies_json<G: Shown>(
    alloc: Global,
    known: &Known<'_, G>,
    distinct: bool,
) -> Result<Vec<u8>, AllocError>
    ensures { IfOk result (λ v. IsRepliesJson G.Game.rules G.shown G.move_shown distinct (G.shown known.now.position) v.items) }
{
    let list = moves_of(known, distinct);
    let mut lines = Vec::new(alloc);
    for x in list.as_slice() {
        let replies = replies_in(&known.play(x.number));
        let tree = tree_of::<G>(alloc, known.position, *x, replies)?;
        push_line(alloc, &mut lines, tree)?;
    }
    Ok(lines)
}

// Returns a move with the replies to it as a tree.
fn tree_of<G: Shown>(
    alloc: Global,
    p: Position,
    x: MoveValue,
    replies: Replies,
) -> Result<Json, AllocError>
    requires legal { G.Game.rules.is_legal p ≡ true }
    requires listed { IsMoveOf G.Game.rules p x }
    ensures { IfOk result (λ v. view v ≡ replies_tree G.shown G.move_shown p x replies) }
{
    let mut members = Map::new(alloc);
    put(
        &mut members,
        alloc,
        "keeping",
        Json::from(replies.kept as u64),
    )?;
    put(&mut members, alloc, "losesIn", or_null(replies.soon))?;
    put_text(
        alloc,
        &mut members,
        "move",
        G::move_text(p, x.number).as_slice(),
    )?;
    put(
        &mut members,
        alloc,
        "moveRemoteness",
        Json::from(u64::from(x.worth.remoteness)),
    )?;
    put_word(alloc, &mut members, "moveValue", word_of(x.worth.value))?;
    put_text(
        alloc,
        &mut members,
        "position",
        G::show(x.position).as_slice(),
    )?;
    put(
        &mut members,
        alloc,
        "replies",
        Json::from(replies.all as u64),
    )?;
    Ok(Json::Object(members))
}

// Returns a number, or null.
fn or_null(number: Option<u32>) -> Json
    ensures { view result ≡ or_null number }
{
    match number {
        Some(number) => Json::from(u64::from(number)),
        None => Json::Null,
    }
}
