//! Positions of a value.
ghost use Rattle.std.specs.Prelude.{◌≡◌, ◌↔◌, true, map, IsTrue, IfOk, OnOk, is_some, Some};
ghost use Rattle.gm_game.specs.declared.position.Position.{Position};
ghost use Rattle.gm_game.specs.Rules.{at};
ghost use Rattle.gm_game.specs.Values.{IsTrueValue};
ghost use Rattle.gm_play.specs.Reached.{AreAllHeld};
ghost use Rattle.gm_game.specs.declared.limits.TheConstants.{REMOTENESS};
ghost use Rattle.gm_game.specs.Records.{IsRecord};
ghost use Rattle.gm_table.specs.Tables.{IsHeld};
ghost use Rattle.gm_find.specs.Lists.{Adds, IsFirst};
ghost use Rattle.gm_find.specs.Finding.{IsMatch, positions_in, all_positions, place_for, level_of, IsValueOf, HasFittingMoves, HasFittingLine};

use crate::along::has_least_tries;
use crate::only::{Aim, has_moves, has_only, has_only_fastest};
use crate::only_line::is_only_line;
use crate::reached::{Reached, is_in};
use crate::sought::Sought;
use gm_game::game::Game;
use gm_game::position::{Phase, Position, Solved, Value};
use gm_play::known::Known;
use gm_play::known_tiers::KnownTiers;
use gm_table::tables::Tables;
use std::alloc::{AllocError, Global};

// What is searched for, in these tables.
#[derive(Drop)]
struct Search<'t, G: Game> {
    tables: &'t Tables<G>,
    sought: Sought,
    reached: Option<&'t Reached<G>>,
    limit: usize,
}

/// Returns the canonical positions that are sought, tier by tier in the order given and by ascending index: the first of them, at most `limit`. If a set of
/// reached positions is given, only positions in it count.
///
/// For a single remoteness, the positions are read from the run at its place; otherwise every record of the tiers is read, up to the limit.
pub fn find_positions<G: Game>(
    alloc: Global,
    known: &KnownTiers<'_, G>,
    sought: Sought,
    reached: Option<&Reached<G>>,
    limit: usize,
) -> Result<Vec<Position>, AllocError>
    ensures { IfOk result (λ v. IsFirst (IsMatch G.rules sought (is_some reached.entry)) limit (all_positions G.rules known.now.tiers.now) v.items) }
{
    let search = Search {
        tables: known.tables,
        sought,
        reached,
        limit,
    };
    let mut found = Vec::new(alloc);
    for tier in known.tiers {
        match place(sought) {
            Some((phase, level)) => {
                let run = known.tables.run(*tier, phase, level);
                add_run(&mut found, &search, *tier, run)?;
            }
            None => add_all(&mut found, &search, *tier)?,
        }
    }
    Ok(found)
}

// Returns the place of the sought positions, if they have one place.
fn place(sought: Sought) -> Option<(Phase, u32)>
    ensures { result ≡ place_for sought.value (level_of sought.remoteness) }
{
    let span = sought.remoteness?;
    if span.least != span.most {
        return None;
    }
    let level = span.least;
    match sought.value {
        Value::Draw => None,
        Value::Tie => Some((Phase::Ties, level)),
        Value::Lose | Value::Win => Some((Phase::WinLose, level)),
    }
}

// Adds those of some indexes of a tier, up to the limit.
fn add_run<G: Game>(
    found: &mut Vec<Position>,
    search: &Search<'_, G>,
    tier: u64,
    run: &[u32],
) -> Result<(), AllocError>
    requires { AreAllHeld G.rules search.now.tables.now tier }
    ensures { OnOk result (Adds (IsMatch G.rules search.now.sought (is_some search.now.reached)) search.now.limit (map (at tier) run.now)
        found.old.items found.new.items) }
{
    let table = search.tables.table(tier).unwrap();
    for i in run {
        if search.limit <= found.len() {
            return Ok(());
        }
        let index = u64::from(*i);
        let p = Position { tier, index };
        if is_sought(search, p, table.at(index)) {
            found.push(p)?;
        }
    }
    Ok(())
}

// Adds those of all indexes of a tier, up to the limit. Holes are passed over.
fn add_all<G: Game>(
    found: &mut Vec<Position>,
    search: &Search<'_, G>,
    tier: u64,
) -> Result<(), AllocError>
    requires { AreAllHeld G.rules search.now.tables.now tier }
    ensures { OnOk result (Adds (IsMatch G.rules search.now.sought (is_some search.now.reached)) search.now.limit (positions_in G.rules tier)
        found.old.items found.new.items) }
{
    let table = search.tables.table(tier).unwrap();
    let mut index = table.skip_holes(0);
    while index < table.size() {
        if search.limit <= found.len() {
            return Ok(());
        }
        let p = Position { tier, index };
        if is_sought(search, p, table.at(index)) {
            found.push(p)?;
        }
        index = table.skip_holes(index + 1);
    }
    Ok(())
}

// Returns whether a position is sought, by its record.
fn is_sought<G: Game>(search: &Search<'_, G>, p: Position, stored: Option<Solved>) -> bool
    requires held { AreAllHeld G.rules search.now.tables.now p.tier }
    requires stored { IsRecord G.rules REMOTENESS (IsTrueValue G.rules) p stored }
    ensures { IsTrue result ↔ IsMatch G.rules search.now.sought (is_some search.now.reached) p }
{
    let Some(solved) = stored else {
        return false;
    };
    let known = Known {
        tables: search.tables,
        position: p,
    };
    let sought = search.sought;
    if !is_value(sought, solved) {
        return false;
    }
    if !has_fitting_moves(&known, solved, sought) {
        return false;
    }
    if !is_in(search.reached, p) {
        return false;
    }
    has_fitting_line(&known, solved, sought)
}

// Tests whether the lines of a position are as they are sought.
fn has_fitting_line<G: Game>(known: &Known<'_, G>, solved: Solved, sought: Sought) -> bool
    requires { IsTrueValue G.rules known.now.position solved }
    ensures { IsTrue result ↔ HasFittingLine G.rules sought known.now.position }
{
    (!sought.whole_line || is_only_line(known, solved, sought.distinct, sought.only_fastest))
        && (sought.min_tries == 0 || has_least_tries(known, sought.min_tries))
}

// Returns whether a position has the moves that are sought.
fn has_fitting_moves<G: Game>(known: &Known<'_, G>, solved: Solved, sought: Sought) -> bool
    requires { IsTrueValue G.rules known.now.position solved }
    ensures { IsTrue result ↔ HasFittingMoves G.rules sought known.now.position }
{
    has_moves::<G>(known.position, sought.min_moves, sought.distinct)
        && (!sought.only_move || has_only(known, Aim::Keep(sought.value), sought.distinct))
        && (!sought.only_fastest || has_only_fastest(known, solved, sought.distinct))
}

/// Returns the true value of a canonical position of a tier that is held; `None` for any other.
pub fn record<G: Game>(tables: &Tables<G>, p: Position) -> Option<Solved>
    requires { IsHeld tables.now p.tier }
    ensures { IsRecord G.rules REMOTENESS (IsTrueValue G.rules) p result }
{
    tables.table(p.tier).unwrap().at(p.index)
}

// Returns whether a value and its remoteness are sought.
fn is_value(sought: Sought, solved: Solved) -> bool
    ensures { IsTrue result ↔ IsValueOf sought solved }
{
    sought.value == solved.value
        && match sought.remoteness {
            None => true,
            Some(span) => span.least <= solved.remoteness && solved.remoteness <= span.most,
        }
}
