//! Whether one record follows from the records of its position's canonical children.
ghost use Rattle.std.specs.Prelude.{◌≡◌, ◌↔◌, ◌≤◌, IsTrue, None, option_copied};
ghost use Rattle.gm_game.specs.Rules.{IsCanonical, IsInner};
ghost use Rattle.gm_game.specs.Children.{AreResults};
ghost use Rattle.gm_game.specs.Records.{settle};
ghost use Rattle.gm_table.specs.Checks.{look_up, value_from, RecordFits};

use crate::cache::TableCache;
use crate::records::Records;
use crate::summary::Summary;
use arrayvec::ArrayVec;
use gm_game::evaluate::of_end;
use gm_game::game::Game;
use gm_game::limits::{MOVES, REMOTENESS};
use gm_game::position::{End, Position, Solved};

/// A list that serves many positions: of one its results.
#[derive(Drop)]
pub(crate) struct Lists {
    pub(crate) results: ArrayVec<Position, MOVES>,
}

impl Lists {
    /// Returns empty lists.
    pub(crate) fn new() -> Self {
        Lists {
            results: ArrayVec::new(),
        }
    }
}

/// Returns whether this record of a canonical legal position fits, at which the game has ended so, or else goes on to the results that the lists hold.
pub(crate) fn fits<'a, G: Game, C: Records>(
    records: &C,
    cache: &mut TableCache<'a, G>,
    lists: &mut Lists,
    p: Position,
    end: Option<End>,
    known: Option<Solved>,
) -> bool
    requires canonical { IsCanonical G.rules p }
    requires end { G.rules.primitive p ≡ end }
    requires results { end ≡ None → AreResults G.rules p lists.old.results.items }
    ensures value { IsTrue result ↔ RecordFits G.rules cache.old.tables cache.old.tier (C.listed records.now) p known }
    ensures same { cache.new ≡ cache.old }
{
    match (end, known) {
        (_, None) => false,
        (Some(end), Some(solved)) => solved == of_end(end),
        (None, Some(solved)) => {
            solved.remoteness <= REMOTENESS && follows::<G, C>(records, cache, lists, p, solved)
        }
    }
}

// Returns whether a value is the one that follows, by the rules, for a position in which the game goes on.
fn follows<'a, G: Game, C: Records>(
    records: &C,
    cache: &mut TableCache<'a, G>,
    lists: &mut Lists,
    p: Position,
    solved: Solved,
) -> bool
    requires near { solved.remoteness ≤ REMOTENESS }
    requires inner { IsInner G.rules p }
    requires results { AreResults G.rules p lists.old.results.items }
    ensures value { IsTrue result ↔ (solved ≡ value_from G.rules cache.old.tables cache.old.tier (C.listed records.now) p) }
    ensures same { cache.new ≡ cache.old }
{
    gather::<G, C>(records, cache, lists, p).value() == Some(solved)
}

// Returns the summary of the results in the lists. If one of them is in the tier, or has no table, each is looked up.
fn gather<'a, G: Game, C: Records>(
    records: &C,
    cache: &mut TableCache<'a, G>,
    lists: &mut Lists,
    p: Position,
) -> Summary
    requires inner { IsInner G.rules p }
    requires results { AreResults G.rules p lists.old.results.items }
    ensures value { settle result.lost result.won result.tied ≡ value_from G.rules cache.old.tables cache.old.tier (C.listed records.now) p }
    ensures same { cache.new ≡ cache.old }
{
    let results = lists.results.as_slice();
    if let Some((seen, _decided)) = cache.sum(results) {
        return seen;
    }
    let mut seen = Summary::of_none();
    for c in results {
        seen = seen.with(look_up::<G, C>(records, cache, *c));
    }
    seen
}

// Returns the record of a canonical position: a given one in the tier, and elsewhere that of a table.
fn look_up<'a, G: Game, C: Records>(
    records: &C,
    cache: &mut TableCache<'a, G>,
    c: Position,
) -> Option<Solved>
    requires canonical { IsCanonical G.rules c }
    ensures record { result ≡ look_up G.rules cache.old.tables cache.old.tier (C.listed records.now) c }
    ensures same { cache.new ≡ cache.old }
{
    if c.tier == cache.tier() {
        return records.record(c.index as usize);
    }
    cache.table(c.tier)?.at(c.index)
}
