//! What is counted of a table.
ghost use Rattle.std.specs.Prelude.{◌≡◌, ℕ, length, IfOk};
ghost use Rattle.gm_analyse.specs.Numbers.{count_where, is_legal_at, has_record};
ghost use Rattle.gm_analyse.specs.Listing.{AreRecordCounts};
ghost use Rattle.gm_analyse.specs.LongestWins.{IsLongestWin};

use crate::counts::{Counts, counts_of};
use crate::longest::longest_win;
use gm_game::game::Game;
use gm_game::position::Position;
use gm_table::table::Table;
use std::alloc::{AllocError, Global};

/// What is counted of the table of a tier.
#[derive(Drop)]
pub struct Analysis {
    pub tier: u64,
    /// How many indexes the tier has.
    pub size: u64,
    /// How many of them are legal positions.
    pub legal: u64,
    /// How many of them are legal and canonical, and so have a record.
    pub canonical: u64,
    pub counts: Counts,
    /// The greatest remoteness of a win and the least index that has it; `None` if there is no win.
    pub longest_win: Option<(u32, u64)>,
}

/// Counts the positions of a table.
pub fn analyse<G: Game>(alloc: Global, table: &Table<G>) -> Result<Analysis, AllocError>
    ensures tier { IfOk result (λ a. a.tier ≡ table.now.tier) }
    ensures size { IfOk result (λ a. a.size ≡ length table.now.records) }
    ensures legal { IfOk result (λ a. a.legal ≡ count_where (is_legal_at G.rules table.now.tier) (length table.now.records)) }
    ensures canonical { IfOk result (λ a. a.canonical ≡ count_where (has_record table.now.records) (length table.now.records)) }
    ensures counts { IfOk result (λ a. AreRecordCounts table.now.records a.counts) }
    ensures longest_win { IfOk result (λ a. IsLongestWin table.now.records (length table.now.records) a.longest_win) }
{
    Ok(Analysis {
        tier: table.tier(),
        size: table.size(),
        legal: legal_in(table),
        canonical: canonical_in(table),
        counts: counts_of(alloc, table)?,
        longest_win: longest_win(table),
    })
}

// Returns how many indexes of the tier are legal positions.
fn legal_in<G: Game>(table: &Table<G>) -> u64
    ensures { result ≡ count_where (is_legal_at G.rules table.now.tier) (length table.now.records) }
{
    let tier = table.tier();
    let mut number = 0;
    for index in 0..table.size() {
        if G::is_legal(Position { tier, index }) {
            number += 1;
        }
    }
    number
}

// Returns how many indexes of the tier have a record.
fn canonical_in<G: Game>(table: &Table<G>) -> u64
    ensures { result ≡ count_where (has_record table.now.records) (length table.now.records) }
{
    let mut number = 0;
    for index in 0..table.size() {
        if table.at(index).is_some() {
            number += 1;
        }
    }
    number
}
