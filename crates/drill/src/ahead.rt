//! Looking ahead: compares each position of a solved game, as the files in a folder have it, with the value that the definitions
//! give within some moves.
ghost use Rattle.std.specs.Prelude.{◌≡◌, true};

use crate::files::table_of;
use crate::said::Done;
use gm_dao::dao::Dao;
use gm_game::ahead::within;
use gm_game::game::Game;
use gm_game::position::{Position, Solved, Value};
use gm_hare::hare::Hare;
use gm_morris::games::{Achi, ThreeMens, TicTacToe};
use gm_mutorere::mutorere::MuTorere;
use gm_table::table::Table;
use gm_table::tables::Tables;
use gm_tactix::tactix::TacTix;
use gm_testing::hosts::Host;
use gm_tierdb::folder_store::FolderStore;
use gm_tierdb::store::Store;
use gm_tiers::order::TierOrder;

// The counts of a tier: its canonical positions, those whose value looking ahead finds too, and those with which it disagrees.
#[derive(Clone, Copy)]
struct Found {
    positions: u64,
    known: u64,
    wrong: u64,
}

// Tests whether a value is possible if looking this many moves ahead finds none: the position is not a win or a loss within these
// moves.
fn is_later(solved: Solved, moves: u32) -> bool {
    match solved.value {
        Value::Lose | Value::Win => solved.remoteness > moves,
        Value::Tie | Value::Draw => true,
    }
}

// Adds a legal position to the counts, by the value that looking ahead finds and the one in the table.
fn with_position<G: Game>(before: Found, p: Position, record: Option<Solved>, moves: u32) -> Found
    requires { G.rules.is_legal p ≡ true }
{
    let ahead = within::<G>(p, moves);
    let fits = match (ahead, record) {
        (Some(_), _) => ahead == record,
        (None, Some(solved)) => is_later(solved, moves),
        (None, None) => false,
    };
    let known = u64::from(fits && ahead.is_some());
    Found {
        positions: before.positions.saturating_add(1),
        known: before.known.saturating_add(known),
        wrong: before.wrong.saturating_add(u64::from(!fits)),
    }
}

// Counts the canonical positions of a table.
fn compared<G: Game>(table: &Table<G>, moves: u32) -> Found {
    let tier = table.tier();
    let mut found = Found {
        positions: 0,
        known: 0,
        wrong: 0,
    };
    for index in 0..G::tier_size(tier) {
        let p = Position { tier, index };
        if G::is_legal(p) && G::canonical(p) == p {
            found = with_position::<G>(found, p, table.at(index), moves);
        }
    }
    found
}

// Returns the table of a tier's file in a folder, if the file is right.
fn right_table<G: Game, R: Host>(
    rt: &R,
    tier: u64,
    folder: &mut FolderStore,
    tables: &Tables<G>,
) -> Option<Table<G>> {
    if folder.failures() == u64::MAX {
        return None;
    }
    let text = folder.read(rt, rt.alloc(), tier).ok()??;
    let table = table_of(rt.alloc(), tables, tier, text.as_slice()).ok();
    drop(text);
    table
}

// Compares these tiers, one after another, up to the first whose file isn't right. Prints the counts of each, and holds its table.
fn compare_tiers<G: Game, R: Host + Print>(
    rt: &R,
    tiers: &[u64],
    moves: u32,
    folder: &mut FolderStore,
    tables: &mut Tables<G>,
) -> Done {
    for tier in tiers {
        let Some(table) = right_table(rt, *tier, folder, tables) else {
            return Some(());
        };
        let found = compared(&table, moves);
        if tables.insert(table).is_err() {
            return Some(());
        }
        let (positions, known, wrong) = (found.positions, found.known, found.wrong);
        println!(rt; "tier {tier}: {positions} positions, {known} known, {wrong} wrong").ok()?;
    }
    Some(())
}

// Compares the files of a game.
fn compare<G: Game, R: Host + Print>(rt: &R, moves: u32, folder: &mut FolderStore) -> Done {
    let order = TierOrder::from_initial::<G>(rt.alloc()).ok()?;
    let mut tables: Tables<G> = Tables::new(rt.alloc());
    let said = compare_tiers(rt, order.tiers(), moves, folder, &mut tables);
    drop((order, tables));
    said
}

/// Compares the files of a game in a folder with looking this many moves ahead. It goes tier by tier, as far as the files are
/// right, and prints a line for each tier. Returns `None` if there is no such game.
pub fn look_ahead<R: Host + Print>(rt: &R, game: &str, folder: &str, moves: u32) -> Done {
    let folder = String::from_str(rt.alloc(), folder).ok()?;
    let mut store = FolderStore::new(rt.alloc(), folder);
    let said = match game {
        "tictactoe" => compare::<TicTacToe, R>(rt, moves, &mut store),
        "threemens" => compare::<ThreeMens, R>(rt, moves, &mut store),
        "achi" => compare::<Achi, R>(rt, moves, &mut store),
        "mutorere" => compare::<MuTorere, R>(rt, moves, &mut store),
        "hare" => compare::<Hare, R>(rt, moves, &mut store),
        "dao" => compare::<Dao, R>(rt, moves, &mut store),
        "tactix-5" => compare::<TacTix<5, false>, R>(rt, moves, &mut store),
        "tactix-5-misere" => compare::<TacTix<5, true>, R>(rt, moves, &mut store),
        _ => None,
    };
    drop(store);
    said
}
