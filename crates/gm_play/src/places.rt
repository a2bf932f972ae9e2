//! The tiers and indexes of positions.
ghost use Rattle.std.specs.Prelude.{◌≡◌, ◌↔◌, None, IfOk, IfErr, IfSome};
ghost use Rattle.gm_play.specs.Places.{IsAt, IsRefusedAt, IsLocated, IsUnlocated, ArePlaces, place_number_of};

use gm_game::game::{Game, laws};
use gm_game::position::Position;
use gm_game::shown::{Shown, texts};
use thiserror::Error;

/// Why a tier and an index have no canonical position.
#[derive(Clone, Copy, Debug, PartialEq, Eq, Error)]
pub enum PlaceError {
    /// The tier has no index.
    #[error("no such tier")]
    NoSuchTier,
    /// The tier has fewer indexes.
    #[error("no such index")]
    NoSuchIndex,
    /// The index is that of no legal position.
    #[error("not legal")]
    NotLegal,
    /// The position is legal, and another one stands for it.
    #[error("not canonical")]
    NotCanonical,
}

impl PlaceError {
    /// Returns the number of the error.
    pub fn number(&self) -> u8
        ensures { result ≡ place_number_of self.now }
    {
        match self {
            PlaceError::NoSuchTier => 1,
            PlaceError::NoSuchIndex => 2,
            PlaceError::NotLegal => 3,
            PlaceError::NotCanonical => 4,
        }
    }
}

/// A legal position, by its tier and index, and its canonical position.
#[derive(Clone, Copy, Debug, PartialEq, Eq)]
pub struct Located {
    pub position: Position,
    pub canonical: Position,
}

/// Returns the canonical position with this index of a tier. It takes no memory and asks no table.
///
/// The refusals are tested in the order of their numbers, and each comes exactly if its condition holds and no earlier one's does.
pub fn at<G: Game>(tier: u64, index: u64) -> Result<Position, PlaceError>
    ensures position { IfOk result (IsAt G.rules tier index) }
    ensures refused { IfErr result (IsRefusedAt G.rules tier index) }
{
    let size = G::tier_size(tier);
    if size == 0 {
        return Err(PlaceError::NoSuchTier);
    }
    if size <= index {
        return Err(PlaceError::NoSuchIndex);
    }
    let p = Position { tier, index };
    if !G::is_legal(p) {
        return Err(PlaceError::NotLegal);
    }
    if G::canonical(p) != p {
        return Err(PlaceError::NotCanonical);
    }
    Ok(p)
}

/// Returns the tier and index of the legal position with this text, if there is one. Any bytes may be given. It takes no memory and asks no table.
pub fn locate<G: Shown>(text: &[u8]) -> Option<Located>
    ensures located { IfSome result (IsLocated G.Game.rules G.shown text.now) }
    ensures none { result ≡ None ↔ IsUnlocated G.Game.rules G.shown text.now }
{
    let position = G::read(text)?;
    Some(Located {
        position,
        canonical: G::canonical(position),
    })
}

/// Has no effect; its contract states that `at` and `locate` undo each other.
pub fn places<G: Shown>()
    ensures { ArePlaces G.Game.rules G.shown }
{
    laws::<G>();
    texts::<G>();
}
