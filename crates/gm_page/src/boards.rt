//! Boards before the questions of a session.
ghost use Rattle.std.specs.Prelude.{◌≡◌, ◌≤◌, true, length};
ghost use Rattle.gm_page.specs.Sights.{sight, move_line};

use arrayvec::ArrayVec;
use gm_draw::drawn::draw;
use gm_draw::pictured::Pictured;
use gm_game::position::Position;
use gm_game::shown::Shown;
use gm_play::view::{Question, Sight, View};

/// A view that shows the board before each question, always from the person's side: in a game of `x` and `o`, `x` is the person and
/// `o` the computer. After a line that is not a move, a line with all moves comes before the board.
#[derive(Drop)]
pub struct Boards;

impl<G: Pictured> View<G> for Boards {
    ghost seen = { sight G.Game.rules G.Shown.shown G.Shown.move_shown G.picture };

    fn see(asked: Question, p: Position) -> Sight {
        let mut sight = match asked {
            Question::First => ArrayVec::new(),
            Question::Again => move_line::<G>(p),
        };
        let _fits = sight.try_extend_from_slice(draw::<G>(p).as_slice());
        sight.push(b'\n');
        sight
    }
}

// Returns the line of the moves of a position.
fn move_line<G: Shown>(p: Position) -> Sight
    requires { G.Game.rules.is_legal p ≡ true }
    ensures text { result.items ≡ move_line G.move_shown p (G.Game.rules.moves p) }
    ensures few { length result.items ≤ 8327 }
{
    let mut line = ArrayVec::new();
    let _fits = line.try_extend_from_slice(b"moves:");
    for m in G::moves(p).as_slice() {
        line.push(b' ');
        let _fits = line.try_extend_from_slice(G::move_text(p, *m).as_slice());
    }
    line.push(b'\n');
    line
}
