//! The work of the exports, for any game.
ghost use Rattle.std.specs.Prelude.{◌≡◌, ◌≢◌, ◌≤◌, ◌<◌, ◌^◌, ◌⊎◌, ◌++◌, ◌∷◌, [], ℕ, List, None, true, false, IfSome, OnOk, IfOk, IfErr, IsErrOf, length, map, take};
ghost use Rattle.std.specs.List.{Contains, sum};
ghost use Rattle.gm_table.specs.Tables.{IsHeld, AreHeld, IsTable};
ghost use Rattle.gm_table.specs.Solving.{AreDeliveries};
ghost use Rattle.gm_tiers.specs.Orders.{IsTierOrder, ComeChildrenFirst};
ghost use Rattle.gm_game.specs.declared.position.Position.{Position as PositionSpec};
ghost use Rattle.gm_play.specs.Reached.{AreClosed};
ghost use Rattle.gm_play.specs.Places.{IsAt};
ghost use Rattle.gm_json.specs.Asking.{AreAnswers, lines_of};
ghost use Rattle.gm_engine.specs.Records.{IsTrueTier, AreTrueTiers, room};
ghost use Rattle.gm_engine.specs.Saying.{Says, asked_of};
ghost use Rattle.gm_engine.specs.Refusing.{IsNotNext, HaveTables, AreDisordered, IsUnordered, IsUnlisted, IsUnchecked, IsTierUnchecked, IsUnheld, IsNotHeldRefusal, IsTierUnsolved, IsUnsolved, AreUnsolved, IsUnsolvedGame, AreLinesRefused, IsRoomRefusal, IsUnshown};

use crate::bytes::{add, list, pack};
use crate::refusal::Refusal;
use crate::width::Width;
use gm_backward::alone::solve_alone;
use gm_backward::error::SolveError;
use gm_game::game::Game;
use gm_game::limits::TIER_SIZE;
use gm_game::shown::Shown;
use gm_json::ask::ask;
use gm_json::ask_error::AskError;
use gm_json::asked::{Asked, With};
use gm_play::closed::Closed;
use gm_play::places::at;
use gm_table::checker::{CheckError, check};
use gm_table::table::Table;
use gm_table::tables::Tables;
use gm_tiers::order::TierOrder;
use gm_tiers::tier_error::TierError;
use std::alloc::Global;

/// The exclusive upper bound of the numbers that the host receives, apart from refusals.
const MOST: u64 = 0x8000_0000_0000_0000;

/// Writes the tiers of a game, child tiers first.
pub fn put_order<G: Game>(alloc: Global, out: &mut [u64]) -> Result<usize, Refusal>
    ensures few { IfOk result (λ n. n < 2 ^ 63) }
    ensures order { IfOk result (λ n. IsTierOrder G.rules (take n out.new)) }
    ensures refused { IfErr result (IsUnlisted G.rules (length out.old)) }
{
    let order = order_of::<G>(alloc)?;
    put_tiers(order.tiers(), out)
}

// Returns the tiers of a game, child tiers first.
fn order_of<G: Game>(alloc: Global) -> Result<TierOrder, Refusal>
    ensures order { IfOk result (IsTierOrder G.rules) }
    ensures children_first { IfOk result (ComeChildrenFirst G.rules) }
    ensures refused { IfErr result (IsUnordered G.rules) }
{
    match TierOrder::from_initial::<G>(alloc) {
        Ok(order) => Ok(order),
        Err(TierError::OutOfMemory) => Err(Refusal::Memory),
        Err(TierError::TooManyTiers) => Err(Refusal::Order),
        Err(TierError::TierTooLarge { .. }) => Err(Refusal::Order),
    }
}

// Writes these tiers at the beginning, and returns their number.
fn put_tiers(tiers: &[u64], out: &mut [u64]) -> Result<usize, Refusal>
    ensures few { IfOk result (λ n. n < 2 ^ 63) }
    ensures same { IfOk result (λ n. take n out.new ≡ tiers.now) }
    ensures refused { IfErr result (IsRoomRefusal (length tiers.now) (length out.old)) }
{
    let number = tiers.len();
    if number > out.len() {
        return Err(Refusal::Room);
    }
    out[..number].copy_from_slice(tiers);
    Ok(number)
}

// Adds a table. The tables of its child tiers must be held.
fn hold<G: Game>(tables: &mut Tables<G>, table: Table<G>) -> Result<(), Refusal>
    requires closed { AreClosed G.rules tables.old }
    requires children { AreHeld G.rules tables.old table.tier }
    ensures closed { OnOk result (AreClosed G.rules tables.new) }
    ensures held { OnOk result ((t : ℕ) → IsHeld tables.old t ⊎ (table.tier ≡ t) → IsHeld tables.new t) }
    ensures refused { IfErr result (λ e. e ≡ Refusal.Memory) }
{
    match tables.insert(table) {
        Ok(()) => Ok(()),
        Err(_refused) => Err(Refusal::Memory),
    }
}

// Tests whether a tier can be solved or checked: it is small enough, and its child tiers are held.
fn is_next<G: Game>(tables: &Tables<G>, tier: u64) -> bool
    ensures small { result ≡ true → G.rules.tier_size tier ≤ TIER_SIZE }
    ensures held { result ≡ true → AreHeld G.rules tables.now tier }
    ensures none { result ≡ false → IsNotNext G.rules tables.now tier }
{
    G::tier_size(tier) <= TIER_SIZE && tables.has_children(tier)
}

// Returns the number of bytes of the records of a tier, if it is at most this.
fn room_of<G: Game>(width: Width, tier: u64, most: usize) -> Option<usize>
    ensures some { IfSome result (λ n. (n ≡ room G.rules width tier) × (n ≤ most)) }
    ensures none { result ≡ None → most < room G.rules width tier }
{
    let size = G::tier_size(tier);
    match width {
        Width::Byte if size <= most as u64 => Some(size as usize),
        Width::Word if size <= most as u64 / 4 => Some(4 * size as usize),
        _ => None,
    }
}

// Checks the records of a tier, and holds its table.
fn check_tier<G: Game>(
    alloc: Global,
    width: Width,
    tables: &mut Tables<G>,
    tier: u64,
    bytes: &[u8],
) -> Result<(), Refusal>
    requires closed { AreClosed G.rules tables.old }
    requires long { length bytes.now ≡ room G.rules width tier }
    ensures closed { OnOk result (AreClosed G.rules tables.new) }
    ensures held { OnOk result ((t : ℕ) → IsHeld tables.old t ⊎ (tier ≡ t) → IsHeld tables.new t) }
    ensures known { OnOk result (IsTrueTier G.rules width tier bytes.now) }
    ensures refused { IfErr result (IsTierUnchecked G.rules width tables.old tier bytes.now) }
{
    if !is_next(tables, tier) {
        return Err(Refusal::Order);
    }
    let records = list(alloc, width, bytes)?;
    let checked = check(alloc, tier, records.as_slice(), tables);
    drop(records);
    match checked {
        Ok(table) => hold(tables, table),
        Err(CheckError::OutOfMemory) => Err(Refusal::Memory),
        Err(CheckError::WrongSize) => Err(Refusal::Records),
        Err(CheckError::WrongRecord { .. }) => Err(Refusal::Records),
    }
}

/// Checks the records of these tiers, one tier after another.
pub fn check_tiers<G: Game>(
    alloc: Global,
    width: Width,
    tiers: &[u64],
    records: &[u8],
) -> Result<(), Refusal>
    ensures known { OnOk result (AreTrueTiers G.rules width tiers.now records.now) }
    ensures refused { IfErr result (IsUnchecked G.rules width tiers.now records.now) }
{
    let mut tables: Tables<G> = Tables::new(alloc);
    let mut rest = records;
    for tier in tiers {
        let Some(count) = room_of::<G>(width, *tier, rest.len()) else {
            return Err(Refusal::Records);
        };
        let (bytes, later) = rest.split_at(count);
        check_tier(alloc, width, &mut tables, *tier, bytes)?;
        rest = later;
    }
    if rest.is_empty() {
        Ok(())
    } else {
        Err(Refusal::Records)
    }
}

// Holds the table of a tier that has these records.
fn hold_true<G: Game>(
    alloc: Global,
    width: Width,
    tables: &mut Tables<G>,
    tier: u64,
    bytes: &[u8],
) -> Result<(), Refusal>
    requires closed { AreClosed G.rules tables.old }
    requires known { IsTrueTier G.rules width tier bytes.now }
    ensures closed { OnOk result (AreClosed G.rules tables.new) }
    ensures held { OnOk result ((t : ℕ) → IsHeld tables.old t ⊎ (tier ≡ t) → IsHeld tables.new t) }
    ensures refused { IfErr result (IsUnheld (IsNotNext G.rules tables.old tier)) }
{
    if !is_next(tables, tier) {
        return Err(Refusal::Order);
    }
    let records = pack(alloc, width, bytes)?;
    hold(tables, Table::from_packed(tier, records))
}

// Holds the tables of these tiers, from these records, one tier after another.
fn hold_all<G: Game>(
    alloc: Global,
    width: Width,
    tables: &mut Tables<G>,
    tiers: &[u64],
    records: &[u8],
) -> Result<(), Refusal>
    requires closed { AreClosed G.rules tables.old }
    requires known { AreTrueTiers G.rules width tiers.now records.now }
    ensures closed { OnOk result (AreClosed G.rules tables.new) }
    ensures held { OnOk result (HaveTables tables.new tiers.now) }
    ensures refused { IfErr result (IsUnheld (AreDisordered G.rules tiers.now)) }
{
    let mut rest = records;
    for tier in tiers {
        let Some(count) = room_of::<G>(width, *tier, rest.len()) else {
            return Err(Refusal::Records);
        };
        let (bytes, later) = rest.split_at(count);
        hold_true(alloc, width, tables, *tier, bytes)?;
        rest = later;
    }
    Ok(())
}

// Solves a tier. Returns its table and the number of deliveries.
fn solve<G: Game>(
    alloc: Global,
    width: Width,
    tables: &Tables<G>,
    tier: u64,
) -> Result<(Table<G>, u64), Refusal>
    ensures table { IfOk result (λ answer. IsTable G.rules answer.0) }
    ensures tier { IfOk result (λ answer. answer.0.tier ≡ tier) }
    ensures children { IfOk result (λ answer. AreHeld G.rules tables.now answer.0.tier) }
    ensures deliveries { IfOk result (λ answer. AreDeliveries G.rules tier answer.1) }
    ensures refused { IfErr result (IsTierUnsolved G.rules width tables.now tier) }
{
    if !is_next(tables, tier) {
        return Err(Refusal::Order);
    }
    match solve_alone(alloc, tier, tables) {
        Ok(solved) => Ok(solved),
        Err(SolveError::OutOfMemory) => Err(Refusal::Memory),
        Err(SolveError::TooFar { .. }) => Err(Refusal::TooFar),
    }
}

/// Solves a tier from the records of these tiers. Writes its records, and returns the number of deliveries.
pub fn solve_next<G: Game>(
    alloc: Global,
    width: Width,
    solved: &[u64],
    records: &[u8],
    tier: u64,
    out: &mut [u8],
) -> Result<u64, Refusal>
    requires known { AreTrueTiers G.rules width solved.now records.now }
    ensures few { IfOk result (λ n. n < 2 ^ 63) }
    ensures known { OnOk result (IsTrueTier G.rules width tier out.new) }
    ensures deliveries { IfOk result (AreDeliveries G.rules tier) }
    ensures refused { IfErr result (IsUnsolved G.rules width solved.now tier (length out.old)) }
{
    let mut tables: Tables<G> = Tables::new(alloc);
    hold_all(alloc, width, &mut tables, solved, records)?;
    let (table, deliveries) = solve(alloc, width, &tables, tier)?;
    if deliveries >= MOST {
        return Err(Refusal::Room);
    }
    let mut bytes = Vec::new(alloc);
    add(width, &mut bytes, &table)?;
    put_bytes(&bytes, out)?;
    Ok(deliveries)
}

// Writes bytes into room of exactly their size, and refuses room of any other size.
fn put_bytes(bytes: &Vec<u8>, out: &mut [u8]) -> Result<(), Refusal>
    ensures same { OnOk result (out.new ≡ bytes.now.items) }
    ensures refused { IfErr result (λ e. (e ≡ Refusal.Room) × (length bytes.now.items ≢ length out.old)) }
{
    if bytes.len() != out.len() {
        return Err(Refusal::Room);
    }
    out.copy_from_slice(bytes.as_slice());
    Ok(())
}

// Solves a tier, holds its table, and adds its records.
fn solve_and_hold<G: Game>(
    alloc: Global,
    width: Width,
    tables: &mut Tables<G>,
    tier: u64,
    bytes: &mut Vec<u8>,
) -> Result<(), Refusal>
    requires closed { AreClosed G.rules tables.old }
    ensures closed { OnOk result (AreClosed G.rules tables.new) }
    ensures held { OnOk result ((t : ℕ) → IsHeld tables.old t ⊎ (tier ≡ t) → IsHeld tables.new t) }
    ensures known { (tiers : List ℕ) → AreTrueTiers G.rules width tiers bytes.old.items → OnOk result
        (AreTrueTiers G.rules width (tiers ++ tier ∷ []) bytes.new.items) }
    ensures refused { IfErr result (IsTierUnsolved G.rules width tables.old tier) }
{
    let (table, _deliveries) = solve(alloc, width, tables, tier)?;
    add(width, bytes, &table)?;
    hold(tables, table)
}

/// Solves all tiers of a game. Writes the tiers, child tiers first, and their records, one tier after another.
pub fn solve_game<G: Game>(
    alloc: Global,
    width: Width,
    order: &mut [u64],
    out: &mut [u8],
) -> Result<usize, Refusal>
    ensures few { IfOk result (λ n. n < 2 ^ 63) }
    ensures order { IfOk result (λ n. IsTierOrder G.rules (take n order.new)) }
    ensures known { IfOk result (λ n. AreTrueTiers G.rules width (take n order.new) out.new) }
    ensures refused { IfErr result (IsUnsolvedGame G.rules width (length order.old) (length out.old)) }
{
    let tiers = order_of::<G>(alloc)?;
    let bytes = solve_tiers::<G>(alloc, width, tiers.tiers())?;
    put_bytes(&bytes, out)?;
    put_tiers(tiers.tiers(), order)
}

// Solves tiers, each after its child tiers, and returns their records, one tier after another.
fn solve_tiers<G: Game>(alloc: Global, width: Width, tiers: &[u64]) -> Result<Vec<u8>, Refusal>
    requires small { (t : ℕ) → Contains tiers.now t → G.rules.tier_size t ≤ TIER_SIZE }
    requires children_first { ComeChildrenFirst G.rules tiers.now }
    ensures known { IfOk result (λ bytes. AreTrueTiers G.rules width tiers.now bytes.items) }
    ensures refused { IfErr result (AreUnsolved G.rules width tiers.now) }
{
    let mut tables: Tables<G> = Tables::new(alloc);
    let mut bytes = Vec::new(alloc);
    for tier in tiers {
        solve_and_hold(alloc, width, &mut tables, *tier, &mut bytes)?;
    }
    Ok(bytes)
}

/// Answers lines from the records of these tiers.
pub fn ask_lines<G: Shown>(
    alloc: Global,
    width: Width,
    solved: &[u64],
    records: &[u8],
    asked: u32,
    lines: &[u8],
    out: &mut [u8],
) -> Result<usize, Refusal>
    requires known { AreTrueTiers G.Game.rules width solved.now records.now }
    ensures few { IfOk result (λ n. n < 2 ^ 63) }
    ensures answers { IfOk result (λ n. AreAnswers (Says G.Game.rules G.shown G.move_shown asked solved.now) 1 (lines_of lines.now) (take n out.new)) }
    ensures refused { IfErr result (AreLinesRefused G.Game.rules G.shown G.move_shown asked solved.now lines.now (length out.old)) }
{
    let mut tables: Tables<G> = Tables::new(alloc);
    hold_all(alloc, width, &mut tables, solved, records)?;
    let closed = Closed { tables: &tables };
    let answers = answers(alloc, &closed, solved, asked, lines)?;
    let number = answers.len();
    if number > out.len() {
        return Err(Refusal::Room);
    }
    out[..number].copy_from_slice(answers.as_slice());
    Ok(number)
}

// Returns the options that these bits stand for.
fn asked_of(bits: u32) -> Asked
    ensures { result ≡ asked_of bits }
{
    Asked {
        values: bits % 2 == 1,
        distinct: bits / 2 % 2 == 1,
        with: With {
            canonical: bits / 4 % 2 == 1,
            parents: bits / 8 % 2 == 1,
            symmetric: bits / 16 % 2 == 1,
            best: bits / 32 % 2 == 1,
        },
    }
}

// Returns the answers to lines.
fn answers<G: Shown>(
    alloc: Global,
    closed: &Closed<'_, G>,
    tiers: &[u64],
    asked: u32,
    lines: &[u8],
) -> Result<Vec<u8>, Refusal>
    ensures answers { IfOk result (λ v. AreAnswers (Says G.Game.rules G.shown G.move_shown asked tiers.now) 1 (lines_of lines.now) v.items) }
    ensures refused { IfErr result (IsNotHeldRefusal G.Game.rules closed.now.tables.now) }
{
    let mut source = lines;
    let mut out: Vec<u8> = Vec::new(alloc);
    match ask(alloc, closed, tiers, asked_of(asked), &mut source, &mut out) {
        Ok(()) => Ok(out),
        Err(AskError::NotHeld) => Err(Refusal::NotSolved),
        Err(AskError::OutOfMemory) => Err(Refusal::Memory),
        Err(AskError::ReadFailed) => Err(Refusal::Memory),
        Err(AskError::WriteFailed) => Err(Refusal::Memory),
        Err(AskError::OutputClosed) => Err(Refusal::Memory),
    }
}

/// Writes the text of the canonical position with this index of a tier.
pub fn put_text<G: Shown>(tier: u64, index: u64, out: &mut [u8]) -> Result<usize, Refusal>
    ensures few { IfOk result (λ n. n < 2 ^ 63) }
    ensures text { IfOk result (λ n. (p : PositionSpec) × IsAt G.Game.rules tier index p × (take n out.new ≡ G.shown p)) }
    ensures refused { IfErr result (IsUnshown G.Game.rules G.shown tier index (length out.old)) }
{
    let Ok(p) = at::<G>(tier, index) else {
        return Err(Refusal::Position);
    };
    let text = G::show(p);
    let number = text.len();
    if number > out.len() {
        return Err(Refusal::Room);
    }
    out[..number].copy_from_slice(text.as_slice());
    Ok(number)
}
