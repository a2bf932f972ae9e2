//! gamesman as a library: Tic-tac-toe built over a store in memory, with a source and a gate of one's own, then asked. docs/EMBEDDING.md goes through it.
#![tactic(auto)]

mod workers;

use crate::workers::{Backwards, Tachometer};
use gm_build::build::{Built, build};
use gm_game::game::Game;
use gm_game::shown::Shown;
use gm_game::text::value_text;
use gm_morris::games::TicTacToe;
use gm_play::answers::answer;
use gm_play::best_moves::best_move;
use gm_solver::plan::Plan;
use gm_table::tables::Tables;
use gm_tierdb::mem_store::MemStore;
use gm_tierdb::store::Store;
use std::alloc::Global;
use std::fs::Files;
use std::process::ExitCode;
use std::sync::Wait;
use std::thread::Threads;
use std::{io, str};

// Prints a position with its value and, if the game goes on, the best move from it.
fn say<G: Shown, R: Print>(rt: &R, tables: &Tables<G>, text: &str) -> io::Result<()> {
    let Some(p) = G::read(text.as_bytes()) else {
        return println!(rt; "{text}: no such position");
    };
    let (Ok(solved), Ok(best)) = (answer(tables, p), best_move(tables, p)) else {
        return println!(rt; "{text}: its tier is not held");
    };
    let value = value_text(solved);
    let value = str::from_utf8(value.as_slice()).unwrap_or("?");
    match best {
        Some(m) => {
            let best = G::move_text(p, m);
            let best = str::from_utf8(best.as_slice()).unwrap_or("?");
            println!(rt; "{text}: {value}, by {best}")
        }
        None => println!(rt; "{text}: {value}"),
    }
}

// The positions that are asked about.
const TEXTS: &[&str] = &[".........", "x...o....", "xo.......", "xxx......"];

// Prints what a build took and what its gate saw, and then the answers.
fn tell<G: Shown, R: Print>(rt: &R, game: &Built<G>, seen: u64) -> io::Result<ExitCode> {
    let (tiers, deliveries) = (game.work.solved, game.work.deliveries);
    // What the coordinator did itself went through no gate.
    let counted = seen >= deliveries.saturating_sub(game.work.by_hand);
    println!(rt;
        "{tiers} tiers, {deliveries} deliveries\nthe gate saw each delivery of a worker: {counted}"
    )?;
    for text in TEXTS {
        say(rt, &game.tables, text)?;
    }
    Ok(ExitCode::SUCCESS)
}

// Builds a game by three workers over three shards, in pieces of eight notes.
fn built<G: Game + Send + Sync, R: Threads + Wait + Files + Sync>(
    rt: &R,
    alloc: Global,
    store: &mut MemStore,
    gate: &Tachometer,
) -> Option<Built<G>> {
    let plan = Plan::new(3, 3, 8)?;
    if store.failures() == u64::MAX {
        return None;
    }
    build(rt, alloc, store, plan, gate, &Backwards::new()).ok()
}

fn main(rt: HostRuntime) -> io::Result<ExitCode> {
    let alloc = rt.alloc();
    let mut store = MemStore::new(alloc);
    let gate = Tachometer::new();
    match built::<TicTacToe, HostRuntime>(&rt, alloc, &mut store, &gate) {
        Some(game) => tell(&rt, &game, gate.deliveries()),
        None => Ok(ExitCode::FAILURE),
    }
}
