//! Tables that are read from files, and judgements on files. A damaged file is a line `tier hex`: a tier, and the bytes that may be
//! its file. Its judgement is one sign.
use crate::said::Done;
use gm_game::game::Game;
use gm_game::limits::TIER_SIZE;
use gm_game::position::Solved;
use gm_table::checker::{CheckError, check};
use gm_table::table::Table;
use gm_table::tables::Tables;
use gm_testing::crews::hold_all;
use gm_testing::hosts::Host;
use gm_tierdb::decode::{decode, decode_v1};
use gm_tierdb::file_error::FileError;
use gm_tiers::order::TierOrder;
use std::alloc::Global;
use std::io::{self, Read};

// The judgement on a file. It has the true table of its tier, in the present version or in version 1; or it hasn't; or its tier
// can't be judged.
const ACCEPTED: char = '+';

const ACCEPTED_OLD: char = '1';

const REFUSED: char = '-';

const UNREAD: char = '?';

const OUT_OF_MEMORY: char = '!';

// Returns the true table of a tier, from the records of its file, or the judgement on the file.
fn table_from<G: Game>(
    alloc: Global,
    tables: &Tables<G>,
    tier: u64,
    decoded: Result<Vec<Option<Solved>>, FileError>,
) -> Result<Table<G>, char> {
    if !tables.has_children(tier) || G::tier_size(tier) > TIER_SIZE {
        return Err(UNREAD);
    }
    let table = match &decoded {
        Ok(records) => match check(alloc, tier, records.as_slice(), tables) {
            Ok(table) => Ok(table),
            Err(CheckError::OutOfMemory) => Err(OUT_OF_MEMORY),
            Err(_) => Err(REFUSED),
        },
        Err(FileError::OutOfMemory) => Err(OUT_OF_MEMORY),
        Err(_) => Err(REFUSED),
    };
    drop(decoded);
    table
}

/// Returns the true table of a tier, from its file of the present version, or the judgement on the file.
pub fn table_of<G: Game>(
    alloc: Global,
    tables: &Tables<G>,
    tier: u64,
    file: &[u8],
) -> Result<Table<G>, char> {
    table_from(alloc, tables, tier, decode::<G>(alloc, tier, file))
}

// Judges the file of a tier. Each version is tried, independently of the first bytes of the file.
fn judged<G: Game>(alloc: Global, tables: &Tables<G>, tier: u64, file: &[u8]) -> char {
    match table_of(alloc, tables, tier, file) {
        Ok(_) => ACCEPTED,
        Err(REFUSED) => {
            match table_from(alloc, tables, tier, decode_v1::<G>(alloc, tier, file)) {
                Ok(_) => ACCEPTED_OLD,
                Err(sign) => sign,
            }
        }
        Err(sign) => sign,
    }
}

// Returns the tables of all tiers of a game, each solved by one thread.
fn solve_all<G: Game>(alloc: Global) -> Option<Tables<G>> {
    let order = TierOrder::from_initial::<G>(alloc).ok()?;
    let mut tables: Tables<G> = Tables::new(alloc);
    let is_solved = hold_all(alloc, &mut tables, order.tiers());
    drop(order);
    is_solved.then_some(tables)
}

// Judges a line.
fn judged_line<G: Game>(alloc: Global, tables: &Tables<G>, line: &str) -> char {
    let Some((tier, digits)) = line.split_once(' ') else {
        return UNREAD;
    };
    match (tier.parse::<u64>(), hex::decode(alloc, digits)) {
        (Ok(tier), Ok(file)) => judged(alloc, tables, tier, file.as_slice()),
        _ => UNREAD,
    }
}

// Judges each line, and prints its sign.
fn judge_lines<G: Game, R: Host + Print>(rt: &R, tables: &Tables<G>, lines: &str) -> Done {
    for line in lines.lines() {
        let sign = judged_line(rt.alloc(), tables, line);
        println!(rt; "{sign}").ok()?;
    }
    Some(())
}

/// Judges each line of the input as the file of a tier of this game.
pub fn damage<G: Game, R: Host + Print, I: Read + Drop>(rt: &R, input: I) -> Done {
    let text = io::read_to_string(rt.alloc(), input).ok()?;
    let tables = solve_all::<G>(rt.alloc())?;
    let judged = judge_lines(rt, &tables, text.as_str());
    drop((text, tables));
    judged
}
