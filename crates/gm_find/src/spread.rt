//! Found positions of which none is met along best play from another.
ghost use Rattle.std.specs.Prelude.{◌≡◌, ◌↔◌, ◌⊎◌, ◌++◌, ◌∷◌, [], IsTrue, IfOk, OnOk};
ghost use Rattle.std.specs.List.{All, Contains};
ghost use Rattle.gm_game.specs.declared.position.Position.{Position};
ghost use Rattle.gm_find.specs.Founds.{IsKnownAt};
ghost use Rattle.gm_find.specs.Spreading.{IsMet, number_with, Spreads};
ghost use Rattle.gm_find.specs.inner.Takings.{AreTaken, HasRoom, HasSome, IsOneMore, Takes};

use crate::found::Found;
use crate::places::Places;
use gm_game::game::Game;
use gm_game::position::Position;
use gm_play::known::Known;
use gm_table::tables::Tables;
use std::alloc::{AllocError, Global};

// The positions that are taken, and those that are met along best play from them.
#[derive(Drop)]
struct Taken {
    found: Vec<Found>,
    own: Places,
    met: Places,
}

/// Takes found positions one after another, each that is not met along best play from one taken before, nor one of them along best play from it, and unless
/// `per_move` of them have its best move; at most `limit`. It keeps in memory what is met.
pub(crate) fn spread<G: Game>(
    alloc: Global,
    tables: &Tables<G>,
    found: &[Found],
    per_move: usize,
    limit: usize,
) -> Result<Vec<Found>, AllocError>
    requires { All (λ x. IsKnownAt G.rules tables.now x.position) found.now }
    ensures { IfOk result (λ v. Spreads G.rules per_move limit [] found.now v.items) }
{
    let mut taken = Taken {
        found: Vec::new(alloc),
        own: Places::new(alloc),
        met: Places::new(alloc),
    };
    for x in found {
        let known = Known {
            tables,
            position: x.position,
        };
        consider(alloc, &known, *x, per_move, limit, &mut taken)?;
    }
    let Taken {
        found,
        own: _,
        met: _,
    } = taken;
    Ok(found)
}

// Takes a found position if it may be taken beside those taken before.
fn consider<G: Game>(
    alloc: Global,
    known: &Known<'_, G>,
    x: Found,
    per_move: usize,
    limit: usize,
    taken: &mut Taken,
) -> Result<(), AllocError>
    requires here { known.now.position ≡ x.position }
    requires taken { AreTaken G.rules taken.old }
    ensures { OnOk result (AreTaken G.rules taken.new × Takes G.rules per_move limit x taken.old.found.items taken.new.found.items) }
{
    if !has_room(x, per_move, limit, taken) {
        return Ok(());
    }
    let along = met_along(alloc, known, x.value.remoteness)?;
    let done = if has_some(&taken.own, along.as_slice()) {
        Ok(())
    } else {
        take(x, along.as_slice(), taken)
    };
    drop(along);
    done
}

// Tests whether there is room for a position beside those taken, as far as its own best play does not matter.
fn has_room(x: Found, per_move: usize, limit: usize, taken: &Taken) -> bool
    ensures { IsTrue result ↔ HasRoom per_move limit x taken.now }
{
    taken.found.len() < limit
        && !taken.met.has(x.position)
        && count_with(x.best, taken.found.as_slice()) < per_move
}

// Counts the positions that have this best move.
fn count_with(best: Option<u32>, found: &[Found]) -> usize
    ensures { result ≡ number_with best found.now }
{
    found.iter().filter(|x| x.best == best).count()
}

// Lists the canonical positions that are met along best play from a position, within this many moves.
fn met_along<G: Game>(
    alloc: Global,
    known: &Known<'_, G>,
    moves: u32,
) -> Result<Vec<Position>, AllocError>
    ensures { IfOk result (λ v. (q : Position) → Contains v.items q ↔ IsMet G.rules known.now.position moves q) }
{
    let mut met = Vec::new(alloc);
    let mut here = *known;
    met.push(G::canonical(here.position))?;
    for _ in 0..moves {
        let Some(number) = here.best_move() else {
            break;
        };
        here = here.play(number);
        met.push(G::canonical(here.position))?;
    }
    Ok(met)
}

// Tests whether a set has one of these positions.
fn has_some(own: &Places, along: &[Position]) -> bool
    ensures { IsTrue result ↔ HasSome own.now along.now }
{
    along.iter().any(|q| own.has(*q))
}

// Takes a position, with those that are met along best play from it.
fn take(x: Found, along: &[Position], taken: &mut Taken) -> Result<(), AllocError>
    ensures { OnOk result (IsOneMore x along.now taken.old taken.new) }
{
    taken.found.push(x)?;
    taken.own.add(x.position)?;
    for q in along {
        taken.met.add(*q)?;
    }
    Ok(())
}
