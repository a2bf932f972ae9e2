//! All notes of one place in a tier and its child tiers.
ghost use Rattle.std.specs.Prelude.{ℕ, ◌≡◌, ◌<◌, ◌≤◌, length, slice_get, Some, IfOk, IsSome, ◌↔◌, [], IfSome};
ghost use Rattle.std.specs.Int.{div_ceil};

use crate::last::{Last, are_below};
use crate::note::Note;
use crate::pairs::Pairs;
use crate::part::{Part, note_count, note_in, push_children, push_runs};
use crate::run::Run;
use crate::tally::{Tally, tile_counts};
use gm_game::game::Game;
use gm_game::limits::TIER_SIZE;
use gm_game::position::Place;
use gm_table::tables::Tables;
use std::alloc::{AllocError, Global};
use std::marker::Model;

/// All notes of one phase and remoteness in a tier and its child tiers: the tier's own first, then by child tier, ascending, and within a tier by index. It
/// borrows them from runs and tables.
#[derive(Drop)]
pub struct Level<'a, G: Game> {
    place: Place,
    parts: Vec<Part<'a, G>>,
    len: usize,
}

impl<'a, G: Game> Model for Level<'a, G> {
    ghost use Rattle.gm_frontier.specs.Notes.{joined};
    ghost use Rattle.gm_frontier.specs.Levels.{LevelData, IsWholeLevel};

    ghost Value = { LevelData };

    ghost view = { λ l. record { place = l.place; notes = joined l.parts.items } };

    ghost invariant = { λ l. IsWholeLevel G.rules (record { place = l.place; notes = joined l.parts.items }) l.len };
}

impl<'a, G: Game> Level<'a, G> {
    ghost use Rattle.gm_game.specs.Numbers.{ListsExactly};
    ghost use Rattle.gm_table.specs.Tables.{AreHeld};
    ghost use Rattle.gm_game.specs.Places.{IsLastLevel};
    ghost use Rattle.gm_frontier.specs.Levels.{IsLevel, AreTiles, AreBelow};
    ghost use Rattle.gm_frontier.specs.Pairs.{pairs_of, piece_of, IsPairAt};
    ghost use Rattle.gm_frontier.specs.inner.Tallies.{number_into, tiled_pairs, IsTallyOf, IsTallyTile, AreTallies, AreAllTallies};

    /// Gathers the notes of a place: those of the tier from runs that tile it, in order, and those of its child tiers from their tables.
    pub fn gather(
        alloc: Global,
        place: Place,
        runs: &'a [Run<G>],
        tables: &'a Tables<G>,
    ) -> Result<Level<'a, G>, AllocError>
        requires tiles { AreTiles place 0 (G.rules.tier_size place.tier) runs.now }
        requires held { AreHeld G.rules tables.now place.tier }
        requires small { G.rules.tier_size place.tier ≤ TIER_SIZE }
        ensures { IfOk result (λ l. (l.place ≡ place) × IsLevel G.rules place l.notes) }
    {
        let mut parts = Vec::new(alloc);
        push_runs(&mut parts, runs)?;
        push_children(
            &mut parts,
            G::child_tiers(place.tier).as_slice(),
            place,
            tables,
        )?;
        let len = note_count(parts.as_slice());
        Ok(Level { place, parts, len })
    }

    /// Returns the end of the phase, as a `Last`: there is one exactly if this level is empty, and no child tier has a value of the phase with its remoteness
    /// or more.
    pub fn last(&self, tables: &Tables<G>) -> Option<Last<G>>
        requires { AreHeld G.rules tables.now self.now.place.tier }
        ensures found { IsSome result ↔ ((self.now.notes ≡ []) × AreBelow G.rules self.now.place) }
        ensures exact { IsSome result ↔ IsLastLevel G.rules self.now.place.tier self.now.place.phase self.now.place.level }
        ensures place { IfSome result (λ last. last ≡ self.now.place) }
    {
        let place = self.place();
        if self.len() > 0 {
            return None;
        }
        if !are_below(tables, place) {
            return None;
        }
        Some(Last::of(place))
    }

    /// Returns the tier.
    pub fn tier(&self) -> u64
        ensures value { result ≡ self.now.place.tier }
        ensures small { G.rules.tier_size self.now.place.tier ≤ TIER_SIZE }
    {
        self.place.tier
    }

    /// Returns the place.
    pub fn place(&self) -> Place
        ensures value { result ≡ self.now.place }
        ensures level { IsLevel G.rules self.now.place self.now.notes }
        ensures small { G.rules.tier_size self.now.place.tier ≤ TIER_SIZE }
    {
        self.place
    }

    /// Returns how many notes there are.
    pub fn len(&self) -> usize
        ensures { result ≡ length self.now.notes }
    {
        self.len
    }

    /// Returns the note with this number, from 0.
    pub fn note(&self, k: usize) -> Note<G>
        requires { k < length self.now.notes }
        ensures { slice_get self.now.notes k ≡ Some result }
    {
        note_in(self.parts.as_slice(), k)
    }

    /// Returns how many pieces of `n` notes there are; the last one may have fewer. Over all pieces and all tiles of the tier, of any width, each pair whose
    /// child is at the place comes exactly once.
    pub fn pieces(&self, n: usize) -> usize
        requires { 0 < n }
        ensures count { result ≡ div_ceil (length self.now.notes) n }
        ensures once { (width : ℕ) → 0 < width
            → ListsExactly (IsPairAt G.rules self.now.place) (tiled_pairs G.rules self.now.place.tier self.now.notes n width) }
    {
        let _place = self.place();
        self.len().div_ceil(n)
    }

    /// Returns, for each note of a piece, in order, each of its parents in the tier from `lo` up to `hi`, ascending. A piece past the last has none. If the
    /// first piece has all notes, its pairs don't depend on `n`.
    pub fn pairs<'b>(&'b self, piece: usize, n: usize, lo: u64, hi: u64) -> Pairs<'b, G>
        requires { 0 < n }
        ensures value { result ≡ pairs_of G.rules self.now.place.tier lo hi (piece_of piece n self.now.notes) }
        ensures whole { piece ≡ 0 → length self.now.notes ≤ n → result ≡ pairs_of G.rules self.now.place.tier lo hi self.now.notes }
    {
        let len = self.len();
        let from = piece.saturating_mul(n).min(len);
        let to = from.saturating_add(n).min(len);
        Pairs::of(self, from, to, lo, hi)
    }

    /// Walks a piece and counts its pairs into each tile.
    pub fn tally(
        &self,
        alloc: Global,
        piece: usize,
        n: usize,
        width: u64,
    ) -> Result<Tally<G>, AllocError>
        requires piece_size { 0 < n }
        requires width { 0 < width }
        ensures { IfOk result (IsTallyOf G.rules self.now piece n width) }
    {
        let size = G::tier_size(self.place().tier);
        let pairs = self.pairs(piece, n, 0, size);
        let counts = tile_counts(alloc, pairs, width, size.div_ceil(width) as usize)?;
        Ok(Tally::of(self, piece, n, width, counts))
    }

    /// Returns the tallies of all pieces of `n` notes, in order, as `Expected::add_counted` wants them: it walks each piece once.
    pub fn tallies(&self, alloc: Global, n: usize, width: u64) -> Result<Vec<Tally<G>>, AllocError>
        requires piece_size { 0 < n }
        requires width { 0 < width }
        ensures all { IfOk result (λ tallies. AreAllTallies self.now n width tallies.items) }
        ensures tiles { IfOk result (λ tallies. (lo hi : ℕ) → IsTallyTile (G.rules.tier_size self.now.place.tier) width lo hi
            → AreTallies G.rules self.now lo hi tallies.items) }
    {
        let mut tallies = Vec::new(alloc);
        for piece in 0..self.pieces(n) {
            tallies.push(self.tally(alloc, piece, n, width)?)?;
        }
        Ok(tallies)
    }

    /// Returns how many pairs there are from `lo` up to `hi`: it walks them.
    pub(crate) fn number_into(&self, lo: u64, hi: u64) -> u64
        ensures { result ≡ number_into G.rules self.now.place.tier lo hi self.now.notes }
    {
        Pairs::of(self, 0, self.len, lo, hi).count() as u64
    }
}
