//! Drills. Each word makes one call that may need memory, and prints its result and the state after it. They are for tools/hostile,
//! which refuses its allocations one after another. For tools/lines, `ahead` compares a solved game with looking ahead, `plans`
//! solves a game's tiers by workers under nine plans, and `dao` solves Dao in a way and prints the digest that ends its file. For
//! tools/measure, `large` times a large tier that workers solve.
#![tactic(auto)]

mod ahead;
mod files;
mod levels;
mod marks;
mod plans;
mod said;
mod solving;
mod stores;
mod tables;

use crate::ahead::look_ahead;
use crate::files::damage;
use crate::levels::LevelCall;
use crate::plans::{solve_by_plans, solve_large};
use crate::said::Done;
use crate::stores::{Place, StoreCall};
use crate::tables::TableCall;
use gm_dao::dao::Dao;
use gm_solver::plan::Plan;
use gm_tactix::tactix::TacTix;
use gm_testing::crews::Way;
use gm_testing::hosts::Host;
use gm_toys::countdown::Countdown;
use gm_toys::wheel::Wheel;
use std::process::ExitCode;
use std::{env, io};

// A call that may need memory.
#[derive(Clone, Copy)]
enum Call {
    Order,
    Level(LevelCall),
    Finish,
    Insert,
    Table(TableCall),
    Json,
    JsonOfOne,
    Write(Place),
    Read(Place),
    Countdown(Way),
    Wheel(Way),
    Build,
}

// The words that make a call, in the order of the crates.
const CALLS: [(&str, Call); 29] = [
    ("order", Call::Order),
    ("begin", Call::Level(LevelCall::Begin)),
    ("fresh", Call::Level(LevelCall::Fresh)),
    ("gather", Call::Level(LevelCall::Gather)),
    ("tally", Call::Level(LevelCall::Tally)),
    ("finish", Call::Finish),
    ("check", Call::Table(TableCall::Check)),
    ("insert", Call::Insert),
    ("encode", Call::Table(TableCall::Encode)),
    ("decode", Call::Table(TableCall::Decode)),
    ("encode-old", Call::Table(TableCall::EncodeOld)),
    ("decode-old", Call::Table(TableCall::DecodeOld)),
    ("read-text", Call::Table(TableCall::ReadText)),
    ("analyse", Call::Table(TableCall::Analyse)),
    ("json", Call::Json),
    ("json-of-one", Call::JsonOfOne),
    ("write-to-memory", Call::Write(Place::Memory)),
    ("read-from-memory", Call::Read(Place::Memory)),
    ("write-through", Call::Write(Place::Through)),
    ("read-through", Call::Read(Place::Through)),
    ("write-to-folder", Call::Write(Place::Folder)),
    ("read-from-folder", Call::Read(Place::Folder)),
    ("alone-countdown", Call::Countdown(Way::Alone)),
    ("alone-wheel", Call::Wheel(Way::Alone)),
    ("pieces-countdown", Call::Countdown(Way::Pieces)),
    ("pieces-wheel", Call::Wheel(Way::Pieces)),
    ("passes-countdown", Call::Countdown(Way::Passes)),
    ("passes-wheel", Call::Wheel(Way::Passes)),
    ("build", Call::Build),
];

// Prints the words that make a call.
fn list<R: Print>(rt: &R) -> Done {
    for (word, _) in &CALLS {
        println!(rt; "{word}").ok()?;
    }
    Some(())
}

// Makes the call that a word names. Returns `None` if there is no such word.
fn drill<R: Host + Print>(rt: &R, word: &str) -> Done {
    let plan = Plan::new(2, 2, 1)?;
    let (_, call) = CALLS.iter().find(|(name, _)| *name == word)?;
    match *call {
        Call::Order => levels::order(rt),
        Call::Level(call) => levels::call_on_ten(rt, call),
        Call::Finish => levels::finish_zero(rt),
        Call::Insert => tables::insert_ten(rt),
        Call::Table(call) => tables::call_on_ten(rt, call),
        Call::Json => tables::json_from::<10, R>(rt),
        Call::JsonOfOne => tables::json_from::<0, R>(rt),
        Call::Write(place) => stores::call_on(rt, StoreCall::WriteNew, place),
        Call::Read(place) => stores::call_on(rt, StoreCall::Read, place),
        Call::Countdown(way) => solving::solve::<Countdown<10>, R>(rt, way, plan),
        Call::Wheel(way) => solving::solve::<Wheel, R>(rt, way, plan),
        Call::Build => solving::build(rt, plan),
    }
}

// Returns a word of a line as text, or an empty text if there is no such word.
fn word(words: &[String], number: usize) -> &str {
    words.get(number).map_or("", |word| word.as_str())
}

// Returns a word of a line as a number, if it is one.
fn number(words: &[String], at: usize) -> Option<usize> {
    word(words, at).parse::<usize>().ok()
}

// Runs a line of words. The first word is the program's name. After it come `ahead` with a game, a number of moves and a folder;
// `dao` with a way; `plans` with a game and the number of its tiers to solve; `large` with a tier and the three numbers of a plan;
// or a word alone.
fn run<R: Host + Print, I: io::Read + Drop>(rt: &R, words: &[String], input: I) -> Done {
    match word(words, 1) {
        "list" => list(rt),
        "ahead" => {
            let moves = word(words, 3).parse::<u32>().ok()?;
            look_ahead(rt, word(words, 2), word(words, 4), moves)
        }
        "dao" => solving::solve_and_say::<Dao, R>(rt, word(words, 2)),
        "plans" => solve_by_plans(rt, word(words, 2), number(words, 3)?),
        "large" => {
            let tier = word(words, 2).parse::<u64>().ok()?;
            let plan = Plan::new(number(words, 3)?, number(words, 4)?, number(words, 5)?)?;
            solve_large(rt, tier, plan)
        }
        "damage-countdown" => damage::<Countdown<10>, R, I>(rt, input),
        "damage-tactix-2" => damage::<TacTix<2, false>, R, I>(rt, input),
        call => drill(rt, call),
    }
}

fn main(rt: HostRuntime) -> io::Result<ExitCode> {
    let mut words = Vec::new(rt.alloc());
    for word in env::args(&rt)? {
        words.push(word)?;
    }
    let done = run(&rt, words.as_slice(), rt.reader());
    drop(words);
    Ok(match done {
        Some(()) => ExitCode::SUCCESS,
        None => ExitCode::FAILURE,
    })
}
