//! Found positions, each with its value, its best move and the number of its moves.
ghost use Rattle.std.specs.Prelude.{◌≡◌, ◌≤◌, map, IfOk, is_some};
ghost use Rattle.std.specs.List.{All};
ghost use Rattle.gm_game.specs.Values.{IsTrueValue};
ghost use Rattle.gm_game.specs.declared.limits.TheConstants.{REMOTENESS};
ghost use Rattle.gm_find.specs.Founds.{IsFound, AreFound, AreTries, AreTriesAsked, HasTriesAsked, IsKnownAt, found_position};

use crate::along::tries_of;
use crate::positions::find_positions;
use crate::reached::Reached;
use crate::sought::Sought;
use crate::tries::Tries;
use gm_game::game::Game;
use gm_game::position::{Position, Solved};
use gm_play::known::Known;
use gm_play::known_tiers::KnownTiers;
use gm_table::tables::Tables;
use std::alloc::{AllocError, Global};

/// A position that was found.
#[derive(Clone, Copy, Debug, PartialEq, Eq)]
pub struct Found {
    pub position: Position,
    pub value: Solved,
    /// The number of the best move; `None` at an end.
    pub best: Option<u32>,
    /// How many moves there are.
    pub moves: usize,
    /// How many tries there are, if they are counted; `None` for a draw.
    pub tries: Option<Tries>,
}

/// Returns the canonical positions that are sought, each with its value, its best move and the number of its moves, and on request its tries: tier by tier in
/// the order given and by ascending index, the first of them, at most `limit`. If a set of reached positions is given, only positions in it count.
pub fn find<G: Game>(
    alloc: Global,
    known: &KnownTiers<'_, G>,
    sought: Sought,
    reached: Option<&Reached<G>>,
    limit: usize,
) -> Result<Vec<Found>, AllocError>
    ensures { IfOk result (λ v. AreFound G.rules sought (is_some reached.entry) limit known.now.tiers.now v.items) }
{
    let positions = find_positions(alloc, known, sought, reached, limit)?;
    look_up(alloc, known.tables, positions.as_slice(), sought.tries)
}

/// Returns the answers for some positions, with their tries on request.
pub(crate) fn look_up<G: Game>(
    alloc: Global,
    tables: &Tables<G>,
    positions: &[Position],
    tries: bool,
) -> Result<Vec<Found>, AllocError>
    requires { All (IsKnownAt G.rules tables.now) positions.now }
    ensures positions { IfOk result (λ v. map found_position v.items ≡ positions.now) }
    ensures each { IfOk result (λ v. All (IsFound G.rules) v.items) }
    ensures counted { IfOk result (λ v. All (HasTriesAsked tries) v.items) }
{
    let mut found = Vec::new(alloc);
    for p in positions {
        let known = Known {
            tables,
            position: *p,
        };
        found.push(found_at(&known, tries))?;
    }
    Ok(found)
}

// Returns the answer for a position: its value, its best move and the number of its moves, and on request its tries.
fn found_at<G: Game>(known: &Known<'_, G>, tries: bool) -> Found
    ensures position { result.position ≡ known.now.position }
    ensures found { IsFound G.rules result }
    ensures counted { HasTriesAsked tries result }
{
    let value = known.value();
    Found {
        position: known.position,
        value,
        best: known.best_move(),
        moves: G::moves(known.position).len(),
        tries: tries_if(known, value, tries),
    }
}

// Returns the tries of a position of this true value, on request.
fn tries_if<G: Game>(known: &Known<'_, G>, solved: Solved, asked: bool) -> Option<Tries>
    requires value { IsTrueValue G.rules known.now.position solved }
    requires small { solved.remoteness ≤ REMOTENESS }
    ensures tries { AreTries G.rules known.now.position result }
    ensures counted { AreTriesAsked asked solved.value result }
{
    if asked { tries_of(known, solved) } else { None }
}
