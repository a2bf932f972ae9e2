//! The search for the positions that play from the start reaches.
ghost use Rattle.std.specs.Prelude.{◌≡◌, ◌∷◌, ◌++◌, [], List, true, IfOk, OnOk};
ghost use Rattle.gm_game.specs.declared.position.Position.{Position};
ghost use Rattle.gm_find.specs.Reaching.{AreReachedKeys, IsSearched};

use gm_game::children::canonical_children;
use gm_game::game::Game;
use gm_game::position::Position;
use std::alloc::{AllocError, Global};
use std::collections::HashSet;

/// Finds all canonical positions that play reaches: that of the start, and the canonical children of each.
pub(crate) fn search<G: Game>(alloc: Global) -> Result<HashSet<(u64, u64)>, AllocError>
    ensures { IfOk result (λ s. AreReachedKeys G.rules s.keys) }
{
    let mut found = HashSet::new(alloc);
    let mut waiting = Vec::new(alloc);
    fill::<G>(&mut found, &mut waiting)?;
    Ok(found)
}

// Finds them all, from an empty set.
fn fill<G: Game>(
    found: &mut HashSet<(u64, u64)>,
    waiting: &mut Vec<Position>,
) -> Result<(), AllocError>
    requires found { found.old.keys ≡ [] }
    requires waiting { waiting.old.items ≡ [] }
    ensures { OnOk result (AreReachedKeys G.rules found.new.keys) }
{
    find::<G>(found, waiting, G::canonical(G::initial()))?;
    for _ in 0..usize::MAX {
        match waiting.pop() {
            None => return Ok(()),
            Some(p) => find_children::<G>(found, waiting, p)?,
        }
    }
    Err(AllocError)
}

// Finds the canonical children of a position that has waited.
fn find_children<G: Game>(
    found: &mut HashSet<(u64, u64)>,
    waiting: &mut Vec<Position>,
    p: Position,
) -> Result<(), AllocError>
    requires { G.rules.is_legal p ≡ true }
    ensures { IsSearched G.rules found.old.keys (waiting.old.items ++ p ∷ []) [] → OnOk result (IsSearched G.rules found.new.keys waiting.new.items []) }
{
    let children = canonical_children::<G>(p);
    for child in children.as_slice() {
        find::<G>(found, waiting, *child)?;
    }
    Ok(())
}

// Finds a position, which waits if it is new.
fn find<G: Game>(
    found: &mut HashSet<(u64, u64)>,
    waiting: &mut Vec<Position>,
    c: Position,
) -> Result<(), AllocError>
    ensures { (left : List Position) → IsSearched G.rules found.old.keys waiting.old.items (c ∷ left)
        → OnOk result (IsSearched G.rules found.new.keys waiting.new.items left) }
{
    match found.insert((c.tier, c.index)) {
        Ok(true) => Ok(waiting.push(c)?),
        Ok(false) => Ok(()),
        Err(_) => Err(AllocError),
    }
}
