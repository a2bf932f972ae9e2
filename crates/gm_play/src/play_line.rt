//! Lines of play: the computer's best moves against any replies.
ghost use Rattle.std.specs.Prelude.{◌≡◌, ◌+◌, ◌^◌, ◌<◌, ℕ, List, true, None, IfSome, MatchOption};
ghost use Rattle.std.specs.List.{Contains};
ghost use Rattle.gm_play.specs.Sides.{IsWonIn, IsEven, HasLost};
ghost use Rattle.gm_play.specs.Reached.{AreAllHeld, IsReached};
ghost use Rattle.gm_play.specs.Lines.{IsLine, LeadsTo, IsLinePlayed, WinsWithin, one_more, IsAfterComputersTurn, IsReplied};

use crate::known::Known;
use crate::sides::Side;
use gm_game::game::Game;
use gm_game::position::Position;
use gm_table::tables::Tables;

/// The current state of a line of play.
#[derive(Clone, Copy, Debug, PartialEq, Eq)]
pub struct PlayLine {
    pub position: Position,
    /// The side to move.
    pub side: Side,
    /// The number of moves that both sides together have made.
    pub moves: u64,
}

/// Plays a line from a legal position: the computer plays its best move, and the other side the next reply, until the game ends or
/// no reply remains. Returns `None` if a reply is not a move when its turn comes. Allocates no memory.
///
/// The following holds for any replies. From a win of the computer's side with remoteness n the line has at most n moves, and if it
/// ends the game, the computer's side has won. From a tie or a draw the computer's side never loses.
pub fn play_line<G: Game>(
    tables: &Tables<G>,
    start: Position,
    first: Side,
    replies: &[u32],
) -> Option<PlayLine>
    requires legal { G.rules.is_legal start ≡ true }
    requires held { AreAllHeld G.rules tables.now start.tier }
    ensures line { MatchOption result ((moves : List ℕ) → IsLine G.rules start first replies.now moves → ⊥)
        (IsLinePlayed G.rules start first replies.now) }
    ensures every { (moves : List ℕ) → IsLine G.rules start first replies.now moves → IfSome result (LeadsTo G.rules start first moves) }
    ensures won { (n : ℕ) → IsWonIn G.rules start first n → IfSome result (WinsWithin G.rules n) }
    ensures even { IsEven G.rules start → IfSome result (λ end. HasLost G.rules end.position end.side → ⊥) }
{
    let start = Known {
        tables,
        position: start,
    };
    walk(&start, first, replies)
}

// Plays the line move by move.
fn walk<G: Game>(start: &Known<'_, G>, first: Side, replies: &[u32]) -> Option<PlayLine>
    ensures { MatchOption result ((moves : List ℕ) → IsLine G.rules start.now.position first replies.now moves → ⊥)
        (IsLinePlayed G.rules start.now.position first replies.now) }
{
    let mut line = PlayLine {
        position: start.position,
        side: first,
        moves: 0,
    };
    for reply in replies {
        line = answered(start, line);
        if G::primitive(line.position).is_some() {
            return Some(line);
        }
        line = replied::<G>(line, *reply)?;
    }
    Some(answered(start, line))
}

// Returns the line with the computer's move if it is the computer's turn and the game goes on, and otherwise unchanged.
fn answered<G: Game>(start: &Known<'_, G>, line: PlayLine) -> PlayLine
    requires reached { IsReached G.rules start.now.position.tier line.position }
    requires few { line.moves + 1 < 2 ^ 64 }
    ensures { IsAfterComputersTurn G.rules line.side line result }
{
    match line.side {
        Side::You => line,
        Side::Computer => match start.at(line.position).best_move() {
            Some(number) => played::<G>(line, number),
            None => line,
        },
    }
}

// Returns the line with a reply, if it is a move.
fn replied<G: Game>(line: PlayLine, reply: u32) -> Option<PlayLine>
    requires legal { G.rules.is_legal line.position ≡ true }
    requires few { line.moves + 1 < 2 ^ 64 }
    ensures { IsReplied G.rules line reply result }
{
    if G::moves(line.position).as_slice().contains(&reply) {
        Some(played::<G>(line, reply))
    } else {
        None
    }
}

// Returns the line with one more move.
fn played<G: Game>(line: PlayLine, number: u32) -> PlayLine
    requires legal { G.rules.is_legal line.position ≡ true }
    requires listed { Contains (G.rules.moves line.position) number }
    requires few { line.moves + 1 < 2 ^ 64 }
    ensures { result ≡ one_more G.rules line number }
{
    PlayLine {
        position: G::play(line.position, number),
        side: line.side.other(),
        moves: line.moves + 1,
    }
}
