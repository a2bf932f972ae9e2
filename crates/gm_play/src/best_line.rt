//! Lines of best play by both sides.
ghost use Rattle.std.specs.Prelude.{◌≡◌, [], MatchOption, IfOk, Some, slice_get};
ghost use Rattle.std.specs.List.{Contains};
ghost use Rattle.gm_play.specs.BestLines.{IsBestLine, IsWhole};

use crate::known::Known;
use gm_game::game::Game;
use gm_game::position::Position;
use std::alloc::{AllocError, Global};

/// The way a line of best play ends.
#[derive(Clone, Copy, Debug, PartialEq, Eq)]
pub enum LineEnd {
    /// The game has ended.
    Over,
    /// The last position has occurred before, at this place of the line, counted from 0.
    Again { first: usize },
    /// The line is cut at the limit on its moves.
    Cut,
}

/// A line of best play by both sides.
#[derive(Debug)]
pub struct BestLine {
    /// The numbers of the moves.
    pub moves: Vec<u32>,
    /// The position at the start of the line, and the result of each move.
    pub positions: Vec<Position>,
    pub end: LineEnd,
}

// Dropped in one call, so that the prover tracks one value instead of every field.
impl Drop for BestLine {
    fn drop(self) {
        let BestLine {
            moves: _,
            positions: _,
            end: _,
        } = self;
    }
}

/// Returns the line of play in which both sides make their best moves. It ends at the end of the game, at a position that has
/// occurred before, or after `limit` moves.
///
/// Each best move lowers the remoteness by one. From a win, a loss or a tie, a line that is not cut has as many moves as the
/// remoteness. Best play from a draw never ends the game. Each position is searched for among all those before it.
pub fn best_line<G: Game>(
    alloc: Global,
    start: &Known<'_, G>,
    limit: usize,
) -> Result<BestLine, AllocError>
    ensures line { IfOk result (IsBestLine G.rules start.now.position limit) }
    ensures whole { IfOk result (IsWhole G.rules start.now.position limit) }
{
    let mut moves = Vec::new(alloc);
    let mut positions = Vec::new(alloc);
    let end = follow(start, &mut moves, &mut positions, limit)?;
    Ok(BestLine {
        moves,
        positions,
        end,
    })
}

// Writes the moves and the positions of a line into empty lists, and returns how it ends.
fn follow<G: Game>(
    start: &Known<'_, G>,
    moves: &mut Vec<u32>,
    positions: &mut Vec<Position>,
    limit: usize,
) -> Result<LineEnd, AllocError>
    requires { (moves.old.items ≡ []) × (positions.old.items ≡ []) }
    ensures { IfOk result (λ end. IsBestLine G.rules start.now.position limit (record { moves = moves.new; positions = positions.new; end = end })) }
{
    let mut here = *start;
    positions.push(here.position)?;
    while moves.len() < limit {
        let Some(number) = here.best_move() else {
            return Ok(LineEnd::Over);
        };
        here = here.play(number);
        let before = place_of(positions.as_slice(), here.position);
        moves.push(number)?;
        positions.push(here.position)?;
        if let Some(first) = before {
            return Ok(LineEnd::Again { first });
        }
    }
    match G::primitive(here.position) {
        Some(_) => Ok(LineEnd::Over),
        None => Ok(LineEnd::Cut),
    }
}

// Finds the place of a position in a list, from 0.
fn place_of(positions: &[Position], p: Position) -> Option<usize>
    ensures { MatchOption result (Contains positions.now p → ⊥) (λ k. slice_get positions.now k ≡ Some p) }
{
    for (place, q) in positions.iter().enumerate() {
        if *q == p {
            return Some(place);
        }
    }
    None
}
