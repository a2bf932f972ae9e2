//! How many pairs a piece of a level has into each tile of its tier.
ghost use Rattle.std.specs.Prelude.{◌≡◌, ℕ, ◌+◌, ◌/◌, ◌<◌, ◌≤◌, ◌^◌, length, slice_index, IfOk, vec_len};
ghost use Rattle.std.specs.List.{Contains};
ghost use Rattle.gm_frontier.specs.Notes.{NoteData};
ghost use Rattle.gm_frontier.specs.Pairs.{pairs_of, piece_of};
ghost use Rattle.gm_frontier.specs.inner.Tallies.{AreCounts, AreTallies, tile_count, number_into};

use crate::level::Level;
use crate::pairs::Pairs;
use gm_game::game::Game;
use gm_game::position::Place;
use gm_table::tile::count_index;
use std::alloc::{AllocError, Global};
use std::marker::{Model, PhantomData};

/// The number of pairs of one piece of a level into each tile of its tier. Tile k has the indexes from k times the width up to k + 1 times the width, both cut
/// at the tier's size.
#[derive(Drop)]
pub struct Tally<G: Game> {
    place: Place,
    piece: usize,
    n: usize,
    width: u64,
    counts: Vec<u64>,
    game: PhantomData<G>,
}

impl<G: Game> Model for Tally<G> {
    ghost use Rattle.gm_frontier.specs.inner.Tallies.{TallyData, IsTally};

    ghost Value = { TallyData };

    ghost view = { λ t. record { place = t.place; piece = t.piece; n = t.n; width = t.width; counts = t.counts.items } };

    ghost invariant = { λ t. IsTally G.rules (record { place = t.place; piece = t.piece; n = t.n; width = t.width; counts = t.counts.items }) };
}

/// Counts the parents of some pairs by tile.
pub(crate) fn tile_counts<G: Game>(
    alloc: Global,
    pairs: Pairs<G>,
    width: u64,
    tiles: usize,
) -> Result<Vec<u64>, AllocError>
    requires width { 0 < width }
    requires tiles { (pair : NoteData × ℕ) → Contains pairs pair → pair.1 / width < tiles }
    requires few { length pairs < 2 ^ 64 }
    ensures length { IfOk result (λ counts. vec_len counts ≡ tiles) }
    ensures counts { IfOk result (λ counts. (k : ℕ) → k < tiles → slice_index counts.items k ≡ tile_count width k pairs.entry) }
{
    let mut counts = vec![in alloc; 0u64; tiles]?;
    for (_, parent) in pairs {
        count_index(&mut counts, width, parent);
    }
    Ok(counts)
}

/// Returns the number of a level's pairs into a range, by the tallies of its pieces.
pub(crate) fn tallied<G: Game>(level: &Level<G>, tallies: &[Tally<G>], lo: u64, hi: u64) -> u64
    requires { AreTallies G.rules level.now lo hi tallies.now }
    ensures { result ≡ number_into G.rules level.now.place.tier lo hi level.now.notes }
{
    if hi <= lo {
        return 0;
    }
    let _place = level.place();
    let Some(first) = tallies.first() else {
        return 0;
    };
    let tile = first.tile_of(lo);
    let mut number = 0;
    for tally in tallies {
        number += tally.count(tile);
    }
    number
}

impl<G: Game> Tally<G> {
    ghost use Rattle.gm_frontier.specs.inner.Tallies.{IsTally};

    /// Makes a tally of counts that are right: one for each tile.
    pub fn of(level: &Level<G>, piece: usize, n: usize, width: u64, counts: Vec<u64>) -> Self
        requires piece_size { 0 < n }
        requires width { 0 < width }
        requires exact { AreCounts G.rules level.now.place.tier width (piece_of piece n level.now.notes) counts.items }
        ensures { result ≡ record { place = level.now.place; piece = piece; n = n; width = width; counts = counts.items } }
    {
        Tally {
            place: level.place(),
            piece,
            n,
            width,
            counts,
            game: PhantomData,
        }
    }

    /// Returns how many pairs there are into a tile: 0 past the last.
    pub fn count(&self, tile: usize) -> u64
        ensures value { result ≡ slice_index self.now.counts tile }
        ensures tally { IsTally G.rules self.now }
    {
        self.counts.get(tile).copied().unwrap_or(0)
    }

    /// Returns the tier.
    pub fn tier(&self) -> u64
        ensures { result ≡ self.now.place.tier }
    {
        self.place.tier
    }

    /// Returns the place of the level.
    pub fn place(&self) -> Place
        ensures { result ≡ self.now.place }
    {
        self.place
    }

    /// Returns the number of the piece.
    pub fn piece(&self) -> usize
        ensures { result ≡ self.now.piece }
    {
        self.piece
    }

    /// Returns how many notes a piece has.
    pub fn n(&self) -> usize
        ensures value { result ≡ self.now.n }
        ensures some { 0 < self.now.n }
    {
        self.n
    }

    /// Returns how many indexes a tile has.
    pub fn width(&self) -> u64
        ensures value { result ≡ self.now.width }
        ensures some { 0 < self.now.width }
    {
        self.width
    }

    // Returns the tile that has this index.
    fn tile_of(&self, index: u64) -> usize
        ensures value { result ≡ index / self.now.width }
        ensures some { 0 < self.now.width }
    {
        (index / self.width) as usize
    }
}
