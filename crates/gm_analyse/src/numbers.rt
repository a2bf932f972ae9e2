//! How many positions of each value there are, by remoteness.
ghost use Rattle.std.specs.Prelude.{◌≡◌, ◌<◌, ◌≤◌, ◌+◌, ◌++◌, ◌∷◌, [], ◌↔◌, ℕ, List, true, max, length, vec_len, slice_index_or, IfOk, OnOk, IfSome, IsTrue, is_some};
ghost use Rattle.gm_game.specs.declared.limits.TheConstants.{REMOTENESS};
ghost use Rattle.gm_game.specs.declared.position.Position.{Position};
ghost use Rattle.gm_game.specs.declared.position.Value.{Value};
ghost use Rattle.gm_find.specs.Finding.{all_positions, positions_in};
ghost use Rattle.gm_find.specs.Reaching.{IsReachedByPlay};
ghost use Rattle.gm_table.specs.Tables.{IsHeld};
ghost use Rattle.gm_analyse.specs.Totals.{AreAllNumbers, AreShort, IsCountedAs, IsRecordAmong, numbers_for};

use crate::among::Among;
use gm_find::positions::record;
use gm_find::reached::{Reached, is_in};
use gm_game::game::Game;
use gm_game::limits::REMOTENESS;
use gm_game::position::{Position, Solved, Value};
use gm_play::known_tiers::KnownTiers;
use gm_table::tables::Tables;
use std::alloc::{AllocError, Global};

/// For each value and each remoteness up to its greatest, how many positions have them.
#[derive(Drop)]
pub(crate) struct Numbers {
    lose: Vec<u64>,
    draw: Vec<u64>,
    tie: Vec<u64>,
    win: Vec<u64>,
}

impl Numbers {
    // Returns the numbers of no positions.
    fn none(alloc: Global) -> Numbers
        ensures none { (v : Value) → numbers_for v result ≡ [] }
        ensures short { AreShort result }
    {
        Numbers {
            lose: Vec::new(alloc),
            draw: Vec::new(alloc),
            tie: Vec::new(alloc),
            win: Vec::new(alloc),
        }
    }

    /// Returns how many positions have this value, for each remoteness.
    pub(crate) fn of(&self, value: Value) -> &[u64]
        ensures numbers { result.now ≡ numbers_for value self.now }
        ensures short { AreShort self.now → length result.now ≤ REMOTENESS + 1 }
    {
        match value {
            Value::Lose => self.lose.as_slice(),
            Value::Draw => self.draw.as_slice(),
            Value::Tie => self.tie.as_slice(),
            Value::Win => self.win.as_slice(),
        }
    }

    // Counts one position more, of this value and remoteness.
    fn add(&mut self, solved: Solved) -> Result<(), AllocError>
        requires near { solved.remoteness ≤ REMOTENESS }
        requires short { AreShort self.old }
        ensures short { OnOk result (AreShort self.new) }
        ensures here { OnOk result (slice_index_or (numbers_for solved.value self.new) solved.remoteness 0
            ≡ slice_index_or (numbers_for solved.value self.old) solved.remoteness 0 + 1) }
        ensures elsewhere { OnOk result ((n : ℕ) → (n ≡ solved.remoteness → ⊥)
            → slice_index_or (numbers_for solved.value self.new) n 0 ≡ slice_index_or (numbers_for solved.value self.old) n 0) }
        ensures others { OnOk result ((v : Value) → (v ≡ solved.value → ⊥) → numbers_for v self.new ≡ numbers_for v self.old) }
    {
        let level = solved.remoteness as usize;
        match solved.value {
            Value::Lose => count(&mut self.lose, level),
            Value::Draw => count(&mut self.draw, level),
            Value::Tie => count(&mut self.tie, level),
            Value::Win => count(&mut self.win, level),
        }
    }
}

/// Returns how many positions of some tiers have each value, for each remoteness up to its greatest.
pub(crate) fn numbers_of<G: Game>(
    alloc: Global,
    known: &KnownTiers<'_, G>,
    among: Among,
    reached: Option<&Reached<G>>,
) -> Result<Numbers, AllocError>
    ensures short { IfOk result AreShort }
    ensures numbers { IfOk result (AreAllNumbers G.rules among (is_some reached.entry) (all_positions G.rules known.now.tiers.now)) }
{
    let mut numbers = Numbers::none(alloc);
    for tier in known.tiers {
        add_tier(&mut numbers, known.tables, *tier, among, reached)?;
    }
    Ok(numbers)
}

// Counts the positions of one tier more.
fn add_tier<G: Game>(
    numbers: &mut Numbers,
    tables: &Tables<G>,
    tier: u64,
    among: Among,
    reached: Option<&Reached<G>>,
) -> Result<(), AllocError>
    requires held { IsHeld tables.now tier }
    requires short { AreShort numbers.old }
    ensures short { OnOk result (AreShort numbers.new) }
    ensures numbers { OnOk result ((seen : List Position) → AreAllNumbers G.rules among (is_some reached.entry) seen numbers.old
        → AreAllNumbers G.rules among (is_some reached.entry) (seen ++ positions_in G.rules tier) numbers.new) }
{
    let size = G::tier_size(tier);
    for index in 0..size {
        let p = Position { tier, index };
        add_position(numbers, tables, p, among, reached)?;
    }
    Ok(())
}

// Counts one position more, if it is counted.
fn add_position<G: Game>(
    numbers: &mut Numbers,
    tables: &Tables<G>,
    p: Position,
    among: Among,
    reached: Option<&Reached<G>>,
) -> Result<(), AllocError>
    requires held { IsHeld tables.now p.tier }
    requires short { AreShort numbers.old }
    ensures short { OnOk result (AreShort numbers.new) }
    ensures numbers { OnOk result ((seen : List Position) → AreAllNumbers G.rules among (is_some reached.entry) seen numbers.old
        → AreAllNumbers G.rules among (is_some reached.entry) (seen ++ p ∷ []) numbers.new) }
{
    match counted(tables, p, among, reached) {
        Some(solved) => numbers.add(solved),
        None => Ok(()),
    }
}

/// Counts one more at a level. Numbers of positions stay far below 2^64; one that doesn't fit would be answered as refused memory.
pub(crate) fn count(numbers: &mut Vec<u64>, level: usize) -> Result<(), AllocError>
    ensures few { OnOk result (vec_len numbers.new ≤ max (vec_len numbers.old) (level + 1)) }
    ensures here { OnOk result (slice_index_or numbers.new.items level 0 ≡ slice_index_or numbers.old.items level 0 + 1) }
    ensures elsewhere { OnOk result ((n : ℕ) → (n ≡ level → ⊥) → slice_index_or numbers.new.items n 0 ≡ slice_index_or numbers.old.items n 0) }
{
    while numbers.len() <= level {
        numbers.push(0)?;
    }
    match numbers[level].checked_add(1) {
        Some(number) => {
            numbers[level] = number;
            Ok(())
        }
        None => Err(AllocError),
    }
}

// Returns the value and remoteness with which a position is counted, if it is.
fn counted<G: Game>(
    tables: &Tables<G>,
    p: Position,
    among: Among,
    reached: Option<&Reached<G>>,
) -> Option<Solved>
    requires { IsHeld tables.now p.tier }
    ensures { IsCountedAs G.rules among (is_some reached.entry) p result }
{
    let solved = record_among(tables, p, among)?;
    if reached.is_some() && !is_in(reached, G::canonical(p)) {
        return None;
    }
    Some(solved)
}

// Returns the true value of a position that is one of those; `None` for any other.
fn record_among<G: Game>(tables: &Tables<G>, p: Position, among: Among) -> Option<Solved>
    requires { IsHeld tables.now p.tier }
    ensures among { IsRecordAmong G.rules among p result }
    ensures legal { IfSome result (λ _. G.rules.is_legal p ≡ true) }
{
    match among {
        Among::Canonical => record(tables, p),
        Among::Legal => tables.get(p),
    }
}
