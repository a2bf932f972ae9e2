//! Tables, their checks, files and counts, on Countdown from 10.
ghost use Rattle.std.specs.Prelude.{◌<◌, ◌≤◌};
ghost use Rattle.gm_table.specs.Tables.{AreHeld};

use crate::marks::marked;
use crate::said::{Counted, Done, Said, WORDS, number_of, say_all, say_twice};
use gm_analyse::analysis::{Analysis, analyse};
use gm_analyse::json::to_json;
use gm_game::game::Game;
use gm_game::limits::TIER_SIZE;
use gm_solver::alone::solve_alone;
use gm_table::checker::check;
use gm_table::table::Table;
use gm_table::tables::Tables;
use gm_testing::hosts::Host;
use gm_tierdb::decode::{decode, decode_v1};
use gm_tierdb::encode::{encode, encode_v1, fits_v1};
use gm_tierdb::streams::read_text;
use gm_toys::countdown::Countdown;

/// A call on the true table of a tier, on its records or on one of its files.
#[derive(Clone, Copy)]
pub enum TableCall {
    Check,
    Encode,
    Decode,
    EncodeOld,
    DecodeOld,
    ReadText,
    Analyse,
}

// The indexes of a table.
impl<G: Game> Counted for Table<G> {
    fn count(&self) -> u64 {
        self.size()
    }
}

// The values and remotenesses that were counted.
impl Counted for Analysis {
    fn count(&self) -> u64 {
        self.counts.list().len() as u64
    }
}

// Makes a call on a true table, and on the files and records made from it. Prints the numbers that count its results: bytes of a
// file, records, or bytes read from a stream.
fn call_on_table<G: Game, R: Host + Print>(
    rt: &R,
    call: TableCall,
    tables: &Tables<G>,
    table: &Table<G>,
) -> Done
    requires held { AreHeld G.rules tables.now 0 }
    requires small { G.rules.tier_size 0 ≤ TIER_SIZE }
{
    if !fits_v1(table) {
        return None;
    }
    let alloc = rt.alloc();
    let (file, old_file) = (encode(alloc, table).ok()?, encode_v1(alloc, table).ok()?);
    let records = decode::<G>(alloc, 0, file.as_slice()).ok()?;
    let (new, old) = (file.as_slice(), old_file.as_slice());
    let said = say_twice!(
        rt,
        match call {
            TableCall::Check => number_of(check(alloc, 0, records.as_slice(), tables)),
            TableCall::Encode => number_of(encode(alloc, table)),
            TableCall::Decode => number_of(decode::<G>(alloc, 0, new)),
            TableCall::EncodeOld => number_of(encode_v1(alloc, table)),
            TableCall::DecodeOld => number_of(decode_v1::<G>(alloc, 0, old)),
            TableCall::ReadText => number_of(read_text(alloc, &mut file.as_slice())),
            TableCall::Analyse => number_of(analyse(alloc, table)),
        }
    );
    drop((file, old_file, records));
    said
}

// Calls `to_json` on the counts of a table.
fn json<G: Game, R: Host + Print>(rt: &R, table: &Table<G>) -> Done {
    let alloc = rt.alloc();
    let analysis = analyse(alloc, table).ok()?;
    let first = marked!(alloc, to_json::<G>(alloc, &analysis).ok());
    let again = to_json::<G>(alloc, &analysis).ok();
    let texts = [text_of(&first), text_of(&again)];
    let said = say_all(rt, &["answer", "again"], &texts);
    drop((first, again, analysis));
    said
}

// Returns a text as a result.
fn text_of(text: &Option<String>) -> Said<'_> {
    match text {
        Some(text) => Said::Text(text.as_str()),
        None => Said::OutOfMemory,
    }
}

/// Makes a call on the true table of Countdown from 10.
pub fn call_on_ten<R: Host + Print>(rt: &R, call: TableCall) -> Done {
    let tables: Tables<Countdown<10>> = Tables::new(rt.alloc());
    let solved = solve_alone(rt.alloc(), 0, &tables).ok();
    let said = match &solved {
        Some((table, _)) => call_on_table(rt, call, &tables, table),
        None => None,
    };
    drop((solved, tables));
    said
}

/// Calls `to_json` on the counts of Countdown from a number.
pub fn json_from<const N: u32, R: Host + Print>(rt: &R) -> Done
    requires { N < 16777216 }
{
    let tables: Tables<Countdown<N>> = Tables::new(rt.alloc());
    let solved = solve_alone(rt.alloc(), 0, &tables).ok();
    let said = match &solved {
        Some((table, _)) => json(rt, table),
        None => None,
    };
    drop((solved, tables));
    said
}

// Returns whether the first tier is held.
fn held<G: Game>(tables: &Tables<G>) -> Said<'static> {
    Said::Text(if tables.has(0) { "held" } else { "not held" })
}

// Inserts the remaining table. If memory is refused, the table remains.
fn inserted<G: Game>(tables: &mut Tables<G>, left: &mut Option<(Table<G>, u64)>) -> Said<'static> {
    if let Some((table, deliveries)) = left.take() {
        if let Err(failed) = tables.insert(table) {
            *left = Some((failed.value, deliveries));
            return Said::OutOfMemory;
        }
    }
    Said::Text("inserted")
}

// Calls `Tables::insert`, and calls it again if the table was returned. A refused call leaves the tables unchanged.
fn insert<G: Game, R: Host + Print>(
    rt: &R,
    tables: &mut Tables<G>,
    left: &mut Option<(Table<G>, u64)>,
) -> Done {
    let before = held(tables);
    let first = marked!(rt.alloc(), inserted(tables, left));
    let after = held(tables);
    let again = inserted(tables, left);
    say_all(rt, &WORDS, &[before, first, after, again, held(tables)])
}

/// Inserts the true table of Countdown from 10.
pub fn insert_ten<R: Host + Print>(rt: &R) -> Done {
    let mut tables: Tables<Countdown<10>> = Tables::new(rt.alloc());
    let mut solved = solve_alone(rt.alloc(), 0, &tables).ok();
    let said = insert(rt, &mut tables, &mut solved);
    drop((tables, solved));
    said
}
