//! Solving tiers, and building a game.
use crate::marks::marked;
use crate::said::{Counted, Done, Said, number_of, say_all};
use gm_build::build::{Built, build as build_game};
use gm_game::game::Game;
use gm_game::limits::TIER_SIZE;
use gm_game::position::{Solved, Value};
use gm_solver::gate::NoGate;
use gm_solver::plan::Plan;
use gm_solver::source::Counter;
use gm_solver::tier::Report;
use gm_table::table::Table;
use gm_table::tables::Tables;
use gm_tactix::tactix::TacTix;
use gm_testing::crews::{Way, solve_by};
use gm_testing::hosts::{Host, Shared};
use gm_tierdb::encode::encode;
use gm_tierdb::mem_store::MemStore;
use gm_tierdb::store::Store;

// Solves the first tier of a game in a way. Returns `None` if memory was refused.
fn solved<G: Shared, R: Host>(
    rt: &R,
    way: Way,
    plan: Plan,
    tables: &Tables<G>,
) -> Option<(Table<G>, Report)> {
    if !tables.has_children(0) || G::tier_size(0) > TIER_SIZE {
        return None;
    }
    solve_by(rt, 0, tables, way, plan, &NoGate, &Counter::new()).ok()
}

// Returns the letter of a record's value, and its remoteness.
fn letters(record: Option<Solved>) -> (char, u32) {
    let Some(Solved { value, remoteness }) = record else {
        return ('-', 0);
    };
    let letter = match value {
        Value::Lose => 'L',
        Value::Win => 'W',
        Value::Tie => 'T',
        Value::Draw => 'D',
    };
    (letter, remoteness)
}

// Prints the number of deliveries and the records of a solved tier, as a line.
fn say_solved<G: Game, R: Host + Print>(
    rt: &R,
    what: &str,
    answer: &Option<(Table<G>, Report)>,
) -> Done {
    let Some((table, report)) = answer else {
        return say_all(rt, &[what], &[Said::OutOfMemory]);
    };
    let deliveries = report.deliveries;
    print!(rt; "{what}: {deliveries} deliveries:").ok()?;
    for index in 0..table.size() {
        let (letter, remoteness) = letters(table.at(index));
        print!(rt; " {letter}{remoteness}").ok()?;
    }
    println!(rt; "").ok()
}

/// Solves the first tier of a game in a way, twice.
pub fn solve<G: Shared, R: Host + Print>(rt: &R, way: Way, plan: Plan) -> Done {
    let tables: Tables<G> = Tables::new(rt.alloc());
    let first = marked!(rt.alloc(), solved(rt, way, plan, &tables));
    let again = solved(rt, way, plan, &tables);
    let said = match say_solved(rt, "answer", &first) {
        Some(()) => say_solved(rt, "again", &again),
        None => None,
    };
    drop((first, again, tables));
    said
}

/// Prints the number of deliveries that solved a tier, the number of those that the coordinator made, and the digest that ends its
/// file.
pub(crate) fn say_digest<G: Game, R: Host + Print>(
    rt: &R,
    answer: &Option<(Table<G>, Report)>,
) -> Done {
    let (table, report) = answer.as_ref()?;
    let file = encode(rt.alloc(), table).ok()?;
    let digest = file.last_chunk::<32>().unwrap_or(&[0; 32]);
    let digest = hex::encode(rt.alloc(), digest).ok()?;
    let (deliveries, by_hand) = (report.deliveries, report.by_hand);
    println!(rt; "{deliveries} deliveries, {by_hand} by hand, digest {digest}").ok()
}

/// Solves the first tier of a game in the way of this name, with four workers and four shards, and prints the digest that ends its
/// file.
pub fn solve_and_say<G: Shared, R: Host + Print>(rt: &R, way: &str) -> Done {
    let way = match way {
        "alone" => Way::Alone,
        "pieces" => Way::Pieces,
        "passes" => Way::Passes,
        _ => return None,
    };
    let plan = Plan::new(4, 4, 64)?;
    let tables: Tables<G> = Tables::new(rt.alloc());
    let answer = solved(rt, way, plan, &tables);
    let said = say_digest(rt, &answer);
    drop((answer, tables));
    said
}

// The tiers that were built.
impl<G: Game> Counted for Built<G> {
    fn count(&self) -> u64 {
        self.order.count()
    }
}

// Builds Tac Tix on 2 by 2 into a store. Returns the number of tiers.
fn built<R: Host>(rt: &R, plan: Plan, store: &mut MemStore) -> Said<'static> {
    if store.failures() == u64::MAX {
        return Said::OutOfMemory;
    }
    let (alloc, source) = (rt.alloc(), Counter::new());
    number_of::<Built<TacTix<2, false>>, _>(build_game(rt, alloc, store, plan, &NoGate, &source))
}

// Tests whether a store has the text of a tier, by a store that has the right ones. Returns `None` if it has another text.
fn has_text<R: Host>(
    rt: &R,
    tier: u64,
    store: &mut MemStore,
    right: &mut MemStore,
) -> Option<bool> {
    if store.failures() == u64::MAX || right.failures() == u64::MAX {
        return None;
    }
    let alloc = rt.alloc();
    let texts = (store.read(rt, alloc, tier), right.read(rt, alloc, tier));
    let has_text = match &texts {
        (Ok(None), Ok(Some(_))) => Some(false),
        (Ok(Some(text)), Ok(Some(right))) if text.as_slice() == right.as_slice() => Some(true),
        _ => None,
    };
    drop(texts);
    has_text
}

// The five tiers of a build, child tiers first, by the number of those with their text.
const TEXTS: [&str; 6] = ["-----", "=----", "==---", "===--", "====-", "====="];

// Returns a line with a sign for each of five tiers, child tiers first: the right text, or no text. The line is `x` if a text is
// wrong, or follows a tier without one.
fn texts<R: Host>(rt: &R, store: &mut MemStore, right: &mut MemStore) -> Said<'static> {
    let mut count: u64 = 0;
    for tier in 0..5 {
        match has_text(rt, tier, store, right) {
            Some(true) if count == tier => count = tier + 1,
            Some(false) => {}
            _ => return Said::Text("x"),
        }
    }
    Said::Text(TEXTS.get(count as usize).map_or("x", |text| *text))
}

/// Builds Tac Tix on 2 by 2 over an empty store in memory, and once more, and compares it with one that is built without refusals.
/// After a refusal the earlier tiers have their texts, and the second build finishes the game.
pub fn build<R: Host + Print>(rt: &R, plan: Plan) -> Done {
    let (mut store, mut right) = (MemStore::new(rt.alloc()), MemStore::new(rt.alloc()));
    let _tiers = built(rt, plan, &mut right);
    let first = marked!(rt.alloc(), built(rt, plan, &mut store));
    let after = texts(rt, &mut store, &mut right);
    let again = built(rt, plan, &mut store);
    let end = texts(rt, &mut store, &mut right);
    drop((store, right));
    let words = ["answer", "texts", "again", "end"];
    say_all(rt, &words, &[first, after, again, end])
}
