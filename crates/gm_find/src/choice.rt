//! The positions that are sought, or some of them.
ghost use Rattle.std.specs.Prelude.{◌-◌, ◌^◌, List, IfOk, is_some};
ghost use Rattle.std.specs.List.{All};
ghost use Rattle.gm_find.specs.declared.found.Found.{Found};
ghost use Rattle.gm_game.specs.Rules.{IsCanonical};
ghost use Rattle.gm_find.specs.Founds.{IsFound, IsKnownAt, AreFound, AreTurned, AreChosen};
ghost use Rattle.gm_find.specs.Spreading.{IsInOrder, AreApartOf};

use crate::found::{Found, find, look_up};
use crate::positions::find_positions;
use crate::reached::Reached;
use crate::sample::sample_of;
use crate::sorted::put_in_order;
use crate::sought::{Choice, Order, Sought};
use crate::spread::spread;
use crate::turned::turned;
use gm_game::game::Game;
use gm_play::known_tiers::KnownTiers;
use gm_table::tables::Tables;
use std::alloc::{AllocError, Global};

/// Returns the canonical positions that are sought and that the choice takes, each with its value, its best move and the number of its moves, and on
/// request its tries: tier by tier in the order given and by ascending index, or sorted. If a set of reached positions is given, only positions in it count. For
/// a random choice all positions that are sought are found first, and only the chosen ones are looked up. To be sorted, all are kept in memory.
pub fn find_some<G: Game>(
    alloc: Global,
    known: &KnownTiers<'_, G>,
    sought: Sought,
    reached: Option<&Reached<G>>,
    choice: Choice,
) -> Result<Vec<Found>, AllocError>
    ensures chosen { IfOk result (λ v. AreChosen G.rules sought (is_some reached.entry) choice known.now.tiers.now v.items) }
    ensures each { IfOk result (λ v. All (IsFound G.rules) v.items) }
{
    match choice {
        Choice::First(limit) => find(alloc, known, sought, reached, limit),
        Choice::Random { number, seed } => {
            let all = find_positions(alloc, known, sought, reached, usize::MAX)?;
            let some = sample_of(alloc, all.as_slice(), number, seed)?;
            drop(all);
            look_up(alloc, known.tables, some.as_slice(), sought.tries)
        }
        Choice::Sorted { order, limit } => {
            let mut all = find(alloc, known, sought, reached, usize::MAX)?;
            put_in_order(&mut all, order)?;
            all.truncate(limit);
            Ok(all)
        }
        Choice::Apart {
            order,
            per_move,
            limit,
            seed,
            turn,
        } => {
            let all = find_in_order(alloc, known, sought, reached, order)?;
            let some = apart_of(alloc, known.tables, all.as_slice(), per_move, limit, seed)?;
            drop(all);
            turned_by(alloc, known.tables, some, turn, sought.tries)
        }
    }
}

// Returns the positions as they are, or with a seed a symmetric one in place of each.
fn turned_by<G: Game>(
    alloc: Global,
    tables: &Tables<G>,
    found: Vec<Found>,
    turn: Option<u64>,
    tries: bool,
) -> Result<Vec<Found>, AllocError>
    requires each { All (IsFound G.rules) found.items }
    requires canonical { All (λ x. IsCanonical G.rules x.position) found.items }
    requires known { All (λ x. IsKnownAt G.rules tables.now x.position) found.items }
    ensures turned { IfOk result (λ v. AreTurned G.rules tries turn found.items v.items) }
    ensures each { IfOk result (λ v. All (IsFound G.rules) v.items) }
{
    match turn {
        None => Ok(found),
        Some(seed) => {
            let images = turned(alloc, tables, found.as_slice(), seed, tries);
            drop(found);
            images
        }
    }
}

// Returns all positions that are sought, in this order or in that of their indexes.
fn find_in_order<G: Game>(
    alloc: Global,
    known: &KnownTiers<'_, G>,
    sought: Sought,
    reached: Option<&Reached<G>>,
    order: Option<Order>,
) -> Result<Vec<Found>, AllocError>
    ensures { IfOk result (λ v. (all : List Found) × AreFound G.rules sought (is_some reached.entry) (2 ^ 64 - 1) known.now.tiers.now all
        × IsInOrder order all v.items) }
{
    let mut all = find(alloc, known, sought, reached, usize::MAX)?;
    if let Some(order) = order {
        put_in_order(&mut all, order)?;
    }
    Ok(all)
}

// Returns the first of some positions that are apart, or with a seed a random choice from all of them.
fn apart_of<G: Game>(
    alloc: Global,
    tables: &Tables<G>,
    found: &[Found],
    per_move: usize,
    limit: usize,
    seed: Option<u64>,
) -> Result<Vec<Found>, AllocError>
    requires { All (λ x. IsKnownAt G.rules tables.now x.position) found.now }
    ensures { IfOk result (λ v. AreApartOf G.rules per_move limit seed found.now v.items) }
{
    match seed {
        None => spread(alloc, tables, found, per_move, limit),
        Some(seed) => {
            let all = spread(alloc, tables, found, per_move, usize::MAX)?;
            let some = sample_of(alloc, all.as_slice(), limit, seed);
            drop(all);
            some
        }
    }
}
