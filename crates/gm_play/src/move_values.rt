//! The worth of each move of a position.
ghost use Rattle.std.specs.Prelude.{◌≡◌, ◌<◌, ◌^◌, map, IsPermutation};
ghost use Rattle.std.specs.List.{All, Contains};
ghost use Rattle.std.specs.List.Sorted.{IsNonDecreasingBy};
ghost use Rattle.gm_play.specs.MoveValues.{move_rank as rank_spec, sort_key as place_spec, worth_of, IsMoveValue, AreMoveValues, BeginsBest};

use crate::known::Known;
use arrayvec::ArrayVec;
use gm_game::game::Game;
use gm_game::limits::MOVES;
use gm_game::position::{Position, Solved, Value};

/// A move of a position, its result and its worth.
#[derive(Clone, Copy, Debug, PartialEq, Eq)]
pub struct MoveValue {
    pub number: u32,
    /// The result of the move.
    pub position: Position,
    /// The value of the result, for the side that is to move there.
    pub result: Solved,
    /// The worth of the move to the side that makes it, with the remoteness counted from before the move.
    pub worth: Solved,
}

impl Default for MoveValue {
    fn default() -> MoveValue {
        let draw = Solved {
            value: Value::Draw,
            remoteness: 0,
        };
        MoveValue {
            number: 0,
            position: Position { tier: 0, index: 0 },
            result: draw,
            worth: draw,
        }
    }
}

/// Returns the moves of a position, each once, with the true value of its result. Allocates no memory.
///
/// The best moves come first: moves to a Lose, by least remoteness; then to a Tie, by least remoteness; then to a Draw; then to a
/// Win, by greatest remoteness. Equal moves are ordered by number. So the first is the best move, and its worth is the value of the
/// position.
pub fn move_values<G: Game>(known: &Known<'_, G>) -> ArrayVec<MoveValue, MOVES>
    ensures values { AreMoveValues G.rules known.now.position result.items }
    ensures best { BeginsBest G.rules known.now.position result.items }
{
    known.truth();
    let mut list = values_of(known);
    put_in_order(&mut list);
    list
}

// Returns the moves in the order of their numbers.
fn values_of<G: Game>(known: &Known<'_, G>) -> ArrayVec<MoveValue, MOVES>
    ensures listed { map (λ (x : MoveValue). x.number) result.items ≡ G.rules.moves known.now.position }
    ensures each { All (IsMoveValue G.rules known.now.position) result.items }
{
    let moves = G::moves(known.position);
    let mut list = ArrayVec::new();
    for number in moves.as_slice() {
        list.push(value_of(known, *number));
    }
    list
}

// Returns one move with its value.
fn value_of<G: Game>(known: &Known<'_, G>, number: u32) -> MoveValue
    requires { Contains (G.rules.moves known.now.position) number }
    ensures number { result.number ≡ number }
    ensures value { IsMoveValue G.rules known.now.position result }
{
    let after = known.play(number);
    let result = after.value();
    MoveValue {
        number,
        position: after.position,
        result,
        worth: worth(result),
    }
}

// Returns the worth of a move to the side that makes it, from the value of its result.
fn worth(result_value: Solved) -> Solved
    requires { result_value.remoteness < u32.MAX }
    ensures { result ≡ worth_of result_value }
{
    let k = result_value.remoteness;
    match result_value.value {
        Value::Lose => Solved {
            value: Value::Win,
            remoteness: k + 1,
        },
        Value::Draw => result_value,
        Value::Tie => Solved {
            value: Value::Tie,
            remoteness: k + 1,
        },
        Value::Win => Solved {
            value: Value::Lose,
            remoteness: k + 1,
        },
    }
}

// Sorts moves, the best first.
fn put_in_order(list: &mut ArrayVec<MoveValue, MOVES>)
    ensures same { IsPermutation list.old.items list.new.items }
    ensures ordered { IsNonDecreasingBy place_spec list.new.items }
{
    list.sort_unstable_by_key(|x| place(x));
}

// Returns the sort key of a move.
fn place(x: &MoveValue) -> u128
    ensures { result ≡ place_spec x.now }
{
    let x = *x;
    (u128::from(rank(x.result)) << 32) + u128::from(x.number)
}

fn rank(solved: Solved) -> u64
    ensures value { result ≡ rank_spec solved.value solved.remoteness }
    ensures small { result < 2 ^ 35 }
{
    let k = u64::from(solved.remoteness);
    let step = 1 << 32;
    match solved.value {
        Value::Lose => k,
        Value::Tie => step + k,
        Value::Draw => 2 * step,
        Value::Win => 4 * step - k,
    }
}
