//! What a command needs before tables are built.
ghost use Rattle.std.specs.Prelude.{◌≡◌, ◌⊎◌, ℕ, List, [], Option, Err, IfOk, OnOk, IfErr};
ghost use Rattle.gm_tiers.specs.Reach.{IsReached};
ghost use Rattle.gamesman.specs.Games.{spec};
ghost use Rattle.gamesman.specs.Told.{IsNoPlace, IsUnknown};
ghost use Rattle.gamesman.specs.Searches.{first_of, IsUnnamed};
ghost use Rattle.gamesman.specs.inner.Needed.{IsAbout, IsAboutNone, IsAtPlace, IsNeeded, AreDigitsOf, IsEngineFaultOf};
ghost use Rattle.gamesman.specs.Answers.{IsAnsweredFromTables};

use crate::engine::read_engine;
use crate::fault::Fault;
use gm_command::requests::TableCommand;
use gm_draw::pictured::Pictured;
use gm_game::game::laws;
use gm_game::position::Position;
use gm_play::places::{PlaceError, at};
use gm_tiers::order::TierOrder;
use std::alloc::Global;
use std::fs::Files;

/// What a command needs before tables are built.
#[derive(Drop)]
pub struct Needs {
    /// The tier whose tables it needs, with those of all tiers that this one reaches.
    pub tier: u64,
    /// The position that it is about. For a command about no position it is the start of the game.
    pub position: Position,
    /// The digits of the engine. For a command without an engine there are none.
    pub engine: Vec<u8>,
}

impl Needs {
    // Returns the needs of a command about this position that needs the tables of this tier.
    fn new(alloc: Global, tier: u64, position: Position) -> Self
        ensures tier { result.tier ≡ tier }
        ensures position { result.position ≡ position }
        ensures engine { result.engine.items ≡ [] }
    {
        Needs {
            tier,
            position,
            engine: Vec::new(alloc),
        }
    }
}

/// Returns what a command needs. A position or a place that it names is read first, and then the engine.
pub fn needs_of<G: Pictured, R: Files + AllocGlobal>(
    rt: &R,
    command: TableCommand<'_>,
) -> Result<Needs, Fault>
    ensures needed { IfOk result (IsNeeded (spec G.Pictured) command.entry) }
    ensures refused { (input output : Option (List ℕ)) → IfErr result (λ fault. IsAnsweredFromTables
        (spec G.Pictured) command.entry input output output (Err fault)) }
{
    match command {
        TableCommand::Explore { position, .. } => needs_at::<G>(rt.alloc(), position),
        TableCommand::Play(request) => needs_at::<G>(rt.alloc(), request.position),
        TableCommand::Page(request) => {
            let mut needs = needs_at::<G>(rt.alloc(), request.position)?;
            needs.engine = engine_of(rt, request.engine)?;
            Ok(needs)
        }
        TableCommand::At { tier, index, .. } => needs_in::<G>(rt.alloc(), tier, index),
        TableCommand::Find(search) => needs_of_tier::<G>(rt.alloc(), search.tier),
        _ => needs_of_tier::<G>(rt.alloc(), None),
    }
}

// Returns what a command about a position needs: about the start if no text is given, and otherwise about the legal position with
// this text, if there is one.
fn needs_at<G: Pictured>(alloc: Global, position: Option<&str>) -> Result<Needs, Fault>
    ensures about { IfOk result (IsAbout (spec G.Pictured) position.entry) }
    ensures refused { IfErr result (IsAboutNone (spec G.Pictured) position.entry) }
{
    match position {
        None => {
            laws::<G>();
            let start = G::initial();
            Ok(Needs::new(alloc, start.tier, start))
        }
        Some(text) => match G::read(text.as_bytes()) {
            Some(p) => Ok(Needs::new(alloc, p.tier, p)),
            None => Err(Fault::NoSuchPosition),
        },
    }
}

// Returns the digits of the engine in this file; none without a file.
fn engine_of<R: Files + AllocGlobal>(rt: &R, path: Option<&str>) -> Result<Vec<u8>, Fault>
    ensures digits { IfOk result (λ v. AreDigitsOf path.entry v.items) }
    ensures fault { IfErr result (IsEngineFaultOf path.entry) }
{
    match path {
        Some(path) => read_engine(rt, path),
        None => Ok(Vec::new(rt.alloc())),
    }
}

// Returns what a command about a place needs: the canonical position with this index of a tier of the game.
fn needs_in<G: Pictured>(alloc: Global, tier: u64, index: u64) -> Result<Needs, Fault>
    ensures place { IfOk result (IsAtPlace G.Game.rules tier index) }
    ensures refused { IfErr result (λ fault. IsUnknown G.Game.rules tier fault ⊎ IsNoPlace G.Game.rules tier index fault) }
{
    known_tier::<G>(alloc, tier)?;
    match at::<G>(tier, index) {
        Ok(p) => Ok(Needs::new(alloc, tier, p)),
        Err(PlaceError::NoSuchTier) => Err(Fault::NoSuchTier { tier }),
        Err(PlaceError::NoSuchIndex) => Err(Fault::NoSuchIndex { tier, index }),
        Err(PlaceError::NotLegal) => Err(Fault::NotLegal { tier, index }),
        Err(PlaceError::NotCanonical) => Err(Fault::NotCanonical { tier, index }),
    }
}

// Returns what a command about whole tiers needs: the named tier, if it is one of the game, or the initial one if none is named.
fn needs_of_tier<G: Pictured>(alloc: Global, named: Option<u64>) -> Result<Needs, Fault>
    ensures tier { IfOk result (λ needs. needs.tier ≡ first_of G.Game.rules named) }
    ensures refused { IfErr result (IsUnnamed G.Game.rules named) }
{
    let start = G::initial();
    match named {
        None => Ok(Needs::new(alloc, start.tier, start)),
        Some(tier) => {
            known_tier::<G>(alloc, tier)?;
            Ok(Needs::new(alloc, tier, start))
        }
    }
}

// Refuses a tier that is not one of the game.
fn known_tier<G: Pictured>(alloc: Global, tier: u64) -> Result<(), Fault>
    ensures reached { OnOk result (IsReached G.Game.rules tier) }
    ensures refused { IfErr result (IsUnknown G.Game.rules tier) }
{
    let order = match TierOrder::from_initial::<G>(alloc) {
        Ok(order) => order,
        Err(error) => return Err(Fault::from(error)),
    };
    if order.tiers().contains(&tier) {
        Ok(())
    } else {
        Err(Fault::NoSuchTier { tier })
    }
}
