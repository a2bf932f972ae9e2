//! The check of a folder, tier by tier.
ghost use Rattle.std.specs.Prelude.{◌≡◌, ◌≤◌, ◌<◌, ℕ, [], IsTrue, IfOk, OnOk, IfErr};
ghost use Rattle.gm_tierdb.specs.StoreTexts.{AreSame, store_view, unknown_texts};
ghost use Rattle.std.specs.List.{Contains};
ghost use Rattle.std.specs.Io.KnownBytes.{Appends};
ghost use Rattle.gm_table.specs.Tables.{AreTables};
ghost use Rattle.gm_build.specs.Inspections.{IsTierState, HoldsWith};
ghost use Rattle.gm_build.specs.Work.{HoldsExactly};
ghost use Rattle.gm_build.specs.Outcomes.{IsReadError};
ghost use Rattle.gm_tiers.specs.Orders.{IsTierOrder};
ghost use Rattle.gamesman.specs.Refusals.{IsUnbuilt};
ghost use Rattle.gamesman.specs.Checking.{tier_line, IsUnreadAt, IsTierCut, IsCheckOf, IsCheckedBy};

use crate::fault::Fault;
use crate::finding::{line_in, status_after};
use crate::host::Host;
use crate::output::put;
use crate::run::DONE;
use crate::teller::Teller;
use gm_build::build_error::BuildError;
use gm_build::check::check_tier;
use gm_build::inspect::TierState;
use gm_command::requests::Telling;
use gm_game::game::Game;
use gm_game::limits::TIER_SIZE;
use gm_immediate::observer::Observer;
use gm_table::tables::Tables;
use gm_tierdb::folder_store::FolderStore;
use gm_tierdb::store::Store;
use gm_tiers::order::TierOrder;
use std::alloc::{AllocError, Global};
use std::io::Write;

// Returns the fault for the reason why an entry is not read.
fn why_unread(tier: u64, error: BuildError) -> Fault
    requires { IsReadError tier error }
    ensures { IsUnreadAt tier result }
{
    match error {
        BuildError::OutOfMemory => Fault::OutOfMemory(AllocError),
        error => Fault::NotBuilt(error),
    }
}

// Checks a tier's file, prints its state, and holds the tier's table if it is right.
fn print_state<G: Game + Send + Sync, R: Host, S: Store, O: Write, E: Write + Send>(
    rt: &R,
    tier: u64,
    json: bool,
    store: &mut S,
    tables: &mut Tables<G>,
    output: &mut O,
    teller: &Teller<'_, R, E>,
) -> Result<TierState, Fault>
    requires small { G.rules.tier_size tier ≤ TIER_SIZE }
    requires few { S.failed store.old < u64.MAX }
    ensures tables { AreTables G.rules tables.old }
    ensures found { IfOk result (IsTierState G.rules tables.old (store_view S.READS (S.texts store.old)) tier) }
    ensures told { IfOk result (λ state. Appends (O.contents output.old) (O.contents output.new) (tier_line json tier state)) }
    ensures held { IfOk result (λ state. HoldsWith tier state tables.old tables.new) }
    ensures cut { IfErr result (IsTierCut G.rules tables.old (store_view S.READS (S.texts store.old)) json tier
        (O.contents output.old) (O.contents output.new)) }
    ensures same { IsTrue S.READS → AreSame (S.texts store.old) (S.texts store.new) }
    ensures count { OnOk result (S.failed store.new ≡ S.failed store.old) }
{
    let alloc = rt.alloc();
    let checked = check_tier(rt, alloc, tier, tables, store);
    teller.clear();
    let state = match checked {
        Ok(state) => state,
        Err(error) => return Err(why_unread(tier, error)),
    };
    let line = line_in(alloc, tier, state, json)?;
    put(output, line.as_slice())?;
    Ok(state)
}

// Prints the states of the files of these tiers, and returns the exit status.
fn check_tiers<G: Game + Send + Sync, R: Host, S: Store, O: Write, E: Write + Send>(
    rt: &R,
    tiers: &[u64],
    json: bool,
    store: &mut S,
    tables: &mut Tables<G>,
    output: &mut O,
    teller: &Teller<'_, R, E>,
) -> Result<u8, Fault>
    requires small { (tier : ℕ) → Contains tiers.now tier → G.rules.tier_size tier ≤ TIER_SIZE }
    requires none { HoldsExactly tables.old [] }
    requires few { S.failed store.old < u64.MAX }
    ensures { IsCheckOf G.rules (store_view S.READS (S.texts store.old)) json tiers.now (O.contents output.old) (O.contents output.new) result }
{
    let mut status = DONE;
    teller.begin(rt, tiers.len());
    for tier in tiers {
        teller.read(rt, *tier);
        let state = print_state(rt, *tier, json, store, tables, output, teller)?;
        status = status_after(state, status);
    }
    Ok(status)
}

// Returns the order of the game's tiers.
fn order_of<G: Game>(alloc: Global) -> Result<TierOrder, Fault>
    ensures order { IfOk result (IsTierOrder G.rules) }
    ensures unbuilt { IfErr result (IsUnbuilt G.rules G.rules.initial.tier) }
{
    match TierOrder::from_initial::<G>(alloc) {
        Ok(order) => Ok(order),
        Err(error) => Err(Fault::from(error)),
    }
}

/// Prints for each tier the state of its text in a store, in the order of tiers, as a line of JSON or of words. The status is 0 if all texts are right, and
/// otherwise 1.
pub fn check<G: Game + Send + Sync, R: Host, S: Store, O: Write, E: Write + Send>(
    rt: &R,
    json: bool,
    store: &mut S,
    output: &mut O,
    errors: &mut E,
    telling: Telling,
) -> Result<u8, Fault>
    requires few { S.failed store.old < u64.MAX }
    ensures { IsCheckedBy G.rules (store_view S.READS (S.texts store.old)) json (O.contents output.old) (O.contents output.new) result }
{
    let alloc = rt.alloc();
    let order = match order_of::<G>(alloc) {
        Ok(order) => order,
        Err(fault) => return Err(fault),
    };
    let mut tables: Tables<G> = Tables::new(alloc);
    let teller = Teller::new::<G>(alloc, rt, errors, telling, order.tiers())?;
    let checked = check_tiers(rt, order.tiers(), json, store, &mut tables, output, &teller);
    drop(teller);
    drop(tables);
    drop(order);
    checked
}

/// Prints for each tier the state of its file in a folder, as `check`. What the folder holds is not known before it is read.
pub fn check_folder<G: Game + Send + Sync, R: Host, O: Write, E: Write + Send>(
    rt: &R,
    folder: &str,
    json: bool,
    output: &mut O,
    errors: &mut E,
    telling: Telling,
) -> Result<u8, Fault>
    ensures { IsCheckedBy G.rules unknown_texts json (O.contents output.old) (O.contents output.new) result }
{
    let alloc = rt.alloc();
    let path = String::from_str(alloc, folder)?;
    let mut store = FolderStore::new(alloc, path);
    let checked = check::<G, R, FolderStore, O, E>(rt, json, &mut store, output, errors, telling);
    drop(store);
    checked
}
