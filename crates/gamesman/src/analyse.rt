//! The counts of a game, tier by tier.
ghost use Rattle.std.specs.Prelude.{◌≡◌, ◌++◌, ℕ, List, IfOk, OnOk, string_bytes};
ghost use Rattle.gm_table.specs.Tables.{IsHeld};
ghost use Rattle.gm_build.specs.Work.{HoldsExactly};
ghost use Rattle.gamesman.specs.Analysing.{IsAnalysisLine, AreAnalysisLines};

use gm_analyse::analysis::analyse as count;
use gm_analyse::json::to_json;
use gm_build::build::Built;
use gm_game::shown::Shown;
use gm_table::table::Table;
use gm_table::tables::Tables;
use std::alloc::{AllocError, Global};
use std::string::String;

/// Returns a line with the counts of each tier, in the order of tiers.
pub fn analysis_lines<G: Shown>(alloc: Global, built: &Built<G>) -> Result<Vec<u8>, AllocError>
    requires { HoldsExactly built.now.tables built.now.order }
    ensures { IfOk result (λ v. AreAnalysisLines G.Game.rules built.now.order v.items) }
{
    let mut lines = Vec::new(alloc);
    for tier in built.order.tiers() {
        push_line(alloc, &built.tables, *tier, &mut lines)?;
    }
    Ok(lines)
}

// Appends the line of a tier whose table is held.
fn push_line<G: Shown>(
    alloc: Global,
    tables: &Tables<G>,
    tier: u64,
    lines: &mut Vec<u8>,
) -> Result<(), AllocError>
    requires { IsHeld tables.now tier }
    ensures { OnOk result ((line : List ℕ) × IsAnalysisLine G.Game.rules tier line × (lines.new.items ≡ lines.old.items ++ line)) }
{
    match tables.table(tier) {
        None => Ok(()),
        Some(table) => {
            let line = counts_line(alloc, table)?;
            lines.extend_from_slice(line.as_bytes())
        }
    }
}

// Returns the counts of a tier as a line of JSON.
fn counts_line<G: Shown>(alloc: Global, table: &Table<G>) -> Result<String, AllocError>
    ensures { IfOk result (λ s. IsAnalysisLine G.Game.rules table.now.tier (string_bytes s)) }
{
    let _tier = table.tier();
    let analysis = count(alloc, table)?;
    let mut line = to_json::<G>(alloc, &analysis)?;
    line.push('\n')?;
    Ok(line)
}
