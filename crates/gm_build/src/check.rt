//! The check of a tier's entry, over the tables of the right tiers before it.
ghost use Rattle.std.specs.Prelude.{◌≡◌, ◌+◌, ◌<◌, ◌≤◌, IsTrue, IfOk, OnOk, OnErr, IfErr};
ghost use Rattle.gm_table.specs.Tables.{AreTables};
ghost use Rattle.gm_tierdb.specs.StoreTexts.{AreSame, store_view};
ghost use Rattle.gm_build.specs.Inspections.{IsTableFor, IsTierState, HoldsWith};
ghost use Rattle.gm_build.specs.Outcomes.{failures_in, IsReadError};
ghost use Rattle.gm_build.specs.declared.build_error.BuildError.TheVariants.{OutOfMemory};

use crate::build_error::BuildError;
use crate::inspect::{TierState, inspect_tier};
use gm_game::game::Game;
use gm_game::limits::TIER_SIZE;
use gm_table::table::Table;
use gm_table::tables::Tables;
use gm_tierdb::store::Store;
use std::alloc::Global;
use std::fs::Files;
use std::thread::Threads;

/// Returns the state of a tier's entry, which is read once exactly if the tables of all child tiers are held. If it is right, the tier's table is held too.
pub fn check_tier<G: Game + Send + Sync, R: Threads + Files + Sync, S: Store>(
    rt: &R,
    alloc: Global,
    tier: u64,
    tables: &mut Tables<G>,
    store: &mut S,
) -> Result<TierState, BuildError>
    requires small { G.rules.tier_size tier ≤ TIER_SIZE }
    requires few { S.failed store.old < u64.MAX }
    ensures tables { AreTables G.rules tables.old }
    ensures found { IfOk result (IsTierState G.rules tables.old (store_view S.READS (S.texts store.old)) tier) }
    ensures held { IfOk result (λ state. HoldsWith tier state tables.old tables.new) }
    ensures kept { OnErr result (tables.new ≡ tables.old) }
    ensures same { IsTrue S.READS → AreSame (S.texts store.old) (S.texts store.new) }
    ensures error { IfErr result (IsReadError tier) }
    ensures count { S.failed store.new ≡ S.failed store.old + failures_in result }
{
    if !tables.has_children(tier) {
        return Ok(TierState::NotChecked);
    }
    let mut table = None;
    let state = inspect_tier(rt, alloc, tier, tables, store, &mut table)?;
    hold(tier, state, table, tables)?;
    Ok(state)
}

// Adds the table of a right tier to those that are held.
fn hold<G: Game>(
    tier: u64,
    state: TierState,
    table: Option<Table<G>>,
    tables: &mut Tables<G>,
) -> Result<(), BuildError>
    requires { IsTableFor tier state table }
    ensures held { OnOk result (HoldsWith tier state tables.old tables.new) }
    ensures kept { OnErr result (tables.new ≡ tables.old) }
    ensures error { IfErr result (λ e. e ≡ OutOfMemory) }
{
    let Some(table) = table else {
        return Ok(());
    };
    match tables.insert(table) {
        Ok(()) => Ok(()),
        Err(_) => Err(BuildError::OutOfMemory),
    }
}
