//! Solving games tier by tier: each tier by one thread, and for comparison by workers under nine plans; and a large tier by workers,
//! over the tables of the tiers below it.
ghost use Rattle.std.specs.Prelude.{◌≤◌};
ghost use Rattle.gm_table.specs.Tables.{AreHeld};

use crate::said::Done;
use crate::solving::say_digest;
use gm_build::build::{Built, build_from};
use gm_game::game::Game;
use gm_game::limits::TIER_SIZE;
use gm_morris::games::{Achi, ThreeMens, TicTacToe};
use gm_pong::pong::Pong;
use gm_solver::alone::solve_alone;
use gm_solver::gate::NoGate;
use gm_solver::observer::NoObserver;
use gm_solver::plan::Plan;
use gm_solver::source::Counter;
use gm_solver::tier::{Report, solve_tier};
use gm_table::table::Table;
use gm_table::tables::Tables;
use gm_tactix::tactix::TacTix;
use gm_testing::hosts::{Host, Shared};
use gm_tierdb::mem_store::MemStore;
use gm_tierdb::store::Store;
use gm_tiers::order::TierOrder;
use gm_toys::countdown::Countdown;
use gm_toys::wheel::Wheel;
use gm_ways::shisima::Shisima;
use std::time::Instant;

// Tests whether two tables have the same records.
fn are_same<G: Game>(one: &Table<G>, other: &Table<G>) -> bool {
    one.size() == other.size() && (0..one.size()).all(|index| one.at(index) == other.at(index))
}

// Tests whether workers under a plan solve a tier as one thread did, without deliveries by the coordinator.
fn solves_so<G: Shared, R: Host>(
    rt: &R,
    tier: u64,
    tables: &Tables<G>,
    plan: Plan,
    right: &(Table<G>, Report),
) -> bool
    requires held { AreHeld G.rules tables.now tier }
    requires small { G.rules.tier_size tier ≤ TIER_SIZE }
{
    let source = Counter::new();
    match solve_tier(rt, rt.alloc(), tier, tables, plan, &NoGate, &source) {
        Ok((table, report)) => report == right.1 && are_same(&table, &right.0),
        Err(_) => false,
    }
}

// Returns the table of a tier by one thread, with its deliveries, if workers under each of nine plans find the same.
fn agreed<G: Shared, R: Host>(rt: &R, tier: u64, tables: &Tables<G>) -> Option<(Table<G>, Report)> {
    if !tables.has_children(tier) || G::tier_size(tier) > TIER_SIZE {
        return None;
    }
    let (table, deliveries) = solve_alone(rt.alloc(), tier, tables).ok()?;
    let report = Report {
        deliveries,
        by_hand: 0,
    };
    let right = (table, report);
    for workers in [1, 2, 16] {
        for shards in [1, 2, 4] {
            let plan = Plan::new(workers, shards, 64)?;
            if !solves_so(rt, tier, tables, plan, &right) {
                return None;
            }
        }
    }
    Some(right)
}

// Solves these tiers, one after another, and prints for each its deliveries and the digest that ends its file. Returns `None` at the
// first tier that a plan solves differently.
fn solve_tiers<G: Shared, R: Host + Print>(rt: &R, tiers: &[u64], tables: &mut Tables<G>) -> Done {
    for tier in tiers {
        let solved = agreed(rt, *tier, tables);
        print!(rt; "tier {tier}: ").ok()?;
        say_digest(rt, &solved)?;
        tables.insert(solved?.0).ok()?;
    }
    Some(())
}

// Solves this many of the first tiers of a game.
fn solve_first<G: Shared, R: Host + Print>(rt: &R, count: usize) -> Done {
    let order = TierOrder::from_initial::<G>(rt.alloc()).ok()?;
    let tiers = order.tiers();
    let first = tiers.get(..count).unwrap_or(tiers);
    let mut tables: Tables<G> = Tables::new(rt.alloc());
    let said = solve_tiers(rt, first, &mut tables);
    drop((tables, order));
    said
}

/// Solves this many of the first tiers of a game, or all if it has fewer. Each tier is solved by one thread and then by 1, 2 and 16
/// workers with 1, 2 and 4 shards. Prints a line for each tier. Returns `None` if there is no such game, a tier isn't solved, or a
/// plan finds another table or another number of deliveries.
pub fn solve_by_plans<R: Host + Print>(rt: &R, game: &str, count: usize) -> Done {
    match game {
        "countdown" => solve_first::<Countdown<10>, R>(rt, count),
        "wheel" => solve_first::<Wheel, R>(rt, count),
        "tactix-1" => solve_first::<TacTix<1, false>, R>(rt, count),
        "tactix-2" => solve_first::<TacTix<2, false>, R>(rt, count),
        "tactix-3" => solve_first::<TacTix<3, false>, R>(rt, count),
        "tactix-4" => solve_first::<TacTix<4, false>, R>(rt, count),
        "tactix-5" => solve_first::<TacTix<5, false>, R>(rt, count),
        "tactix-1-misere" => solve_first::<TacTix<1, true>, R>(rt, count),
        "tactix-2-misere" => solve_first::<TacTix<2, true>, R>(rt, count),
        "tactix-3-misere" => solve_first::<TacTix<3, true>, R>(rt, count),
        "tactix-4-misere" => solve_first::<TacTix<4, true>, R>(rt, count),
        "tactix-5-misere" => solve_first::<TacTix<5, true>, R>(rt, count),
        "tictactoe" => solve_first::<TicTacToe, R>(rt, count),
        "threemens" => solve_first::<ThreeMens, R>(rt, count),
        "achi" => solve_first::<Achi, R>(rt, count),
        "ponghauki" => solve_first::<Pong, R>(rt, count),
        "shisima" => solve_first::<Shisima, R>(rt, count),
        _ => None,
    }
}

// Tac Tix on 5 by 5. The number of a tier is the number of counters on the board.
type Five = TacTix<5, false>;

// Returns the tables of the tiers below one, or `None` if there is no such tier or the build ended with an error.
fn tables_below<R: Host>(rt: &R, tier: u64) -> Option<Built<Five>> {
    let (alloc, source) = (rt.alloc(), Counter::new());
    let (first, plan) = (tier.checked_sub(1)?, Plan::fastest(4, 4, 64)?);
    let mut store = MemStore::new(alloc);
    if store.failures() == u64::MAX {
        return None;
    }
    let built = build_from(
        rt,
        alloc,
        first,
        &mut store,
        plan,
        &NoGate,
        &source,
        &NoObserver,
    );
    drop(store);
    built.ok()
}

// Solves a tier, and prints the time that it took and the digest that ends its file.
fn solve_and_time<R: Host + Print>(rt: &R, tier: u64, plan: Plan, below: &Built<Five>) -> Done {
    let (tables, source) = (&below.tables, Counter::new());
    if !tables.has_children(tier) || Five::tier_size(tier) > TIER_SIZE {
        return None;
    }
    let begun = Instant::now(rt).ok()?;
    let solved = solve_tier(rt, rt.alloc(), tier, tables, plan, &NoGate, &source).ok();
    let milliseconds = begun.elapsed(rt).ok()?.as_millis();
    println!(rt; "{milliseconds} ms").ok()?;
    say_digest(rt, &solved)
}

/// Solves a tier of Tac Tix on 5 by 5 by workers, over tables that are made in memory. Prints the milliseconds for solving only
/// this tier, the number of deliveries, and the digest that ends its file. Returns `None` if there is no such tier, or memory was
/// refused.
pub fn solve_large<R: Host + Print>(rt: &R, tier: u64, plan: Plan) -> Done {
    let below = tables_below(rt, tier)?;
    let said = solve_and_time(rt, tier, plan, &below);
    drop(below);
    said
}
