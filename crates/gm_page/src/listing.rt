//! The positions of a page.
ghost use Rattle.std.specs.Prelude.{◌≡◌, ◌≤◌, ◌-◌, ◌↔◌, ◌++◌, ◌∷◌, ℕ, [], List, true, length, map, IsTrue, IfOk, OnOk, slice_get, Some, None};
ghost use Rattle.std.specs.HashMap.{get};
ghost use Rattle.std.specs.List.{All, Contains};
ghost use Rattle.gm_game.specs.declared.position.Position.{Position};
ghost use Rattle.gm_play.specs.declared.move_values.MoveValue.{MoveValue};
ghost use Rattle.gm_play.specs.BestLines.{AreFresh};
ghost use Rattle.gm_page.specs.Listings.{place_of, with_new, with_all, result_of, Tells, IsListing, IsReachedFrom, ComesFromEarlier, IsClosed, is_key};

use gm_game::game::{Game, laws};
use gm_game::position::Position;
use gm_play::best_line::best_line;
use gm_play::known::Known;
use gm_play::move_values::{MoveValue, move_values};
use std::alloc::{AllocError, Global};
use std::collections::HashMap;
use std::marker::Model;

/// The positions of a page, each with its place. A position takes 16 bytes and a place in a hash table.
pub struct Listing {
    positions: Vec<Position>,
    places: HashMap<(u64, u64), usize>,
}

// Dropped in one call, so that the prover tracks one value instead of every field.
impl Drop for Listing {
    fn drop(self) {
        let Listing {
            positions: _,
            places: _,
        } = self;
    }
}

impl Model for Listing {
    ghost use Rattle.std.specs.Prelude.{List};
    ghost use Rattle.gm_game.specs.declared.position.Position.{Position};
    ghost use Rattle.gm_page.specs.Listings.{Tells};

    ghost Value = { List Position };

    ghost view = { λ s. s.positions.items };

    ghost invariant = { λ s. Tells s.places s.positions.items };
}

impl Listing {
    /// Returns the positions, in their order.
    pub fn positions(&self) -> &[Position]
        ensures { result.now ≡ self.now }
    {
        self.positions.as_slice()
    }

    /// Returns the place of a position, from 0, if it is listed. Allocates no memory.
    pub fn place(&self, p: Position) -> Option<usize>
        ensures { result ≡ place_of self.now p }
    {
        self.places.get(&(p.tier, p.index)).copied()
    }

    /// Tests whether a position is listed. Allocates no memory.
    pub fn has(&self, p: Position) -> bool
        ensures { IsTrue result ↔ Contains self.now p }
    {
        self.place(p).is_some()
    }

    // Lists each of these positions that is not yet listed, up to the limit.
    fn list_all(&mut self, these: &[Position], limit: usize) -> Result<(), AllocError>
        ensures { OnOk result (self.new ≡ with_all limit self.old these.now) }
    {
        for p in these {
            self.list_new(*p, limit)?;
        }
        Ok(())
    }

    // Lists each result of these moves that is not yet listed, up to the limit.
    fn list_moves(&mut self, moves: &[MoveValue], limit: usize) -> Result<(), AllocError>
        ensures { OnOk result (self.new ≡ with_all limit self.old (map result_of moves.now)) }
    {
        for x in moves {
            self.list_new(x.position, limit)?;
        }
        Ok(())
    }

    // Lists a position unless it is already listed, up to the limit.
    fn list_new(&mut self, p: Position, limit: usize) -> Result<(), AllocError>
        ensures { OnOk result (self.new ≡ with_new limit self.old p) }
    {
        if self.place(p).is_some() || self.positions().len() >= limit {
            return Ok(());
        }
        self.add(p)
    }

    // Adds a position that is not yet listed.
    fn add(&mut self, p: Position) -> Result<(), AllocError>
        requires { place_of self.old p ≡ None }
        ensures { OnOk result (self.new ≡ self.old ++ p ∷ []) }
    {
        let place = self.positions.len();
        self.positions.push(p)?;
        match self.places.insert((p.tier, p.index), place) {
            Ok(_) => Ok(()),
            Err(_) => {
                self.positions.truncate(place);
                Err(AllocError)
            }
        }
    }
}

/// Returns the listing of a position, of at most `limit` positions. Positions are as played, and not canonical.
///
/// First come the positions of the line of best play, each once. The listing is then processed from its first position on: the
/// results of the moves of each, the best first, are added at the end unless they are already listed.
pub fn listing_of<G: Game>(
    alloc: Global,
    start: &Known<'_, G>,
    limit: usize,
) -> Result<Listing, AllocError>
    requires { 1 ≤ limit }
    ensures { IfOk result (IsListing G.rules start.now.position limit) }
{
    laws::<G>();
    let mut list = Listing {
        positions: Vec::new(alloc),
        places: HashMap::new(alloc),
    };
    let line = best_line(alloc, start, limit - 1)?;
    list.list_all(line.positions.as_slice(), limit)?;
    drop(line);
    let mut next = 0;
    while next < list.positions().len() {
        let known = start.at(list.positions()[next]);
        list.list_moves(move_values(&known).as_slice(), limit)?;
        next += 1;
    }
    Ok(list)
}

/// Tests whether each result of a move of a listed position is listed. Allocates no memory.
pub fn is_whole<G: Game>(list: &Listing) -> bool
    requires { All (λ p. G.rules.is_legal p ≡ true) list.now }
    ensures { IsTrue result ↔ IsClosed G.rules list.now }
{
    for p in list.positions() {
        if !has_results::<G>(list, *p) {
            return false;
        }
    }
    true
}

// Tests whether each result of a move of a position is listed.
fn has_results<G: Game>(list: &Listing, p: Position) -> bool
    requires { G.rules.is_legal p ≡ true }
    ensures { IsTrue result ↔ ((m : ℕ) → Contains (G.rules.moves p) m → Contains list.now (G.rules.play p m)) }
{
    let moves = G::moves(p);
    for m in moves.as_slice() {
        if !list.has(G::play(p, *m)) {
            return false;
        }
    }
    true
}

/// Has no effect; its contract states that a listing has no position twice, and at most as many positions as its limit.
pub fn each_once<G: Game>(start: Position, limit: usize, list: &[Position])
    requires { IsListing G.rules start limit list.now }
    ensures once { AreFresh list.now }
    ensures few { length list.now ≤ limit }
{}

/// Has no effect; its contract states that play from the start reaches each position of a listing. The first position is the start,
/// and each other one is the result of a move of an earlier one.
pub fn each_reached<G: Game>(start: Position, limit: usize, list: &[Position])
    requires some { 1 ≤ limit }
    requires listing { IsListing G.rules start limit list.now }
    ensures first { slice_get list.now 0 ≡ Some start }
    ensures reached { (p : Position) → Contains list.now p → IsReachedFrom G.rules start p }
    ensures earlier { ComesFromEarlier G.rules list.now }
{}

/// Has no effect; its contract states that a listing to which no result is missing has every position that play from the start
/// reaches, and that any other listing has as many positions as its limit.
pub fn all_or_full<G: Game>(start: Position, limit: usize, list: &[Position])
    requires some { 1 ≤ limit }
    requires listing { IsListing G.rules start limit list.now }
    ensures whole { IsClosed G.rules list.now → (p : Position) → IsReachedFrom G.rules start p → Contains list.now p }
    ensures full { (IsClosed G.rules list.now → ⊥) → length list.now ≡ limit }
{}
