//! The turns of a session.
ghost use Rattle.std.specs.Prelude.{◌≡◌, ◌≤◌, ◌+◌, ◌++◌, length};
ghost use Rattle.gm_play.specs.Dialogue.{Advice, IsRightAdvice, unseen, before, position_line, persons_turn, computers_turn, turn as turn_spec, reply as reply_spec, closing};
ghost use Rattle.gm_play.specs.Sessions.{Speaks, asked_at};

use crate::endings::over;
use crate::known::Known;
use crate::sides::Side;
use crate::streams::without_return;
use crate::view::{Question, SIGHT, View};
use arrayvec::ArrayVec;
use gm_game::game::Game;
use gm_game::limits::LINE;
use gm_game::shown::Shown;
use gm_game::text::value_text;

// The most bytes of a line: two texts, the text between them, and the line end.
const WIDTH: usize = 2 * LINE + 16;

// The most bytes of the computer's turn.
const FRONT: usize = 2 * WIDTH;

/// The most bytes of a part of a session.
const PART: usize = FRONT + WIDTH + SIGHT + 32;

/// The most bytes of the last part of a session.
const LAST: usize = PART + 16;

/// A part of a session up to the next question: its text, and the position of the question, or `None` if the session ends.
#[derive(Drop)]
pub(crate) struct Part<'t, G: Game> {
    pub text: ArrayVec<u8, PART>,
    pub asked: Option<Known<'t, G>>,
}

// Returns the text of four texts.
fn joined<const N: usize>(a: &[u8], b: &[u8], c: &[u8], d: &[u8]) -> ArrayVec<u8, N>
    requires { length a.now + length b.now + length c.now + length d.now ≤ N }
    ensures { result.items ≡ a.now ++ b.now ++ c.now ++ d.now }
{
    let mut text = ArrayVec::new();
    let _fits = text.try_extend_from_slice(a);
    let _fits = text.try_extend_from_slice(b);
    let _fits = text.try_extend_from_slice(c);
    let _fits = text.try_extend_from_slice(d);
    text
}

// Returns the line with a position and its value.
fn place_line<G: Shown>(known: &Known<'_, G>) -> ArrayVec<u8, WIDTH>
    ensures { (k : Advice) → IsRightAdvice G.Game.rules known.now.position.tier k
        → result.items ≡ position_line G.Game.rules G.shown G.move_shown k unseen known.now.position }
{
    let solved = known.value();
    joined(
        G::show(known.position).as_slice(),
        b" ",
        value_text(solved).as_slice(),
        b"\n",
    )
}

// Returns the person's turn, with a text before it.
fn persons_part<'t, G: Shown, V: View<G>>(front: &[u8], known: &Known<'t, G>) -> Part<'t, G>
    requires { length front.now ≤ FRONT }
    ensures { (k : Advice) → IsRightAdvice G.Game.rules known.now.position.tier k
        → Speaks G.Game.rules k (before front.now (persons_turn G.Game.rules G.shown G.move_shown k V.seen known.now.position)) result.text.items
        (asked_at result.asked (λ q. q.position)) }
{
    let place = place_line(known);
    match G::primitive(known.position) {
        Some(end) => Part {
            text: joined(front, place.as_slice(), over(Side::You, end), b""),
            asked: None,
        },
        None => Part {
            text: joined(
                front,
                place.as_slice(),
                V::see(Question::First, known.position).as_slice(),
                b"your move?\n",
            ),
            asked: Some(*known),
        },
    }
}

// Returns the computer's turn, and then the person's.
fn computers_part<'t, G: Shown, V: View<G>>(known: &Known<'t, G>) -> Part<'t, G>
    ensures { (k : Advice) → IsRightAdvice G.Game.rules known.now.position.tier k
        → Speaks G.Game.rules k (computers_turn G.Game.rules G.shown G.move_shown k V.seen known.now.position) result.text.items
        (asked_at result.asked (λ q. q.position)) }
{
    let place = place_line(known);
    match G::primitive(known.position) {
        Some(end) => Part {
            text: joined(place.as_slice(), over(Side::Computer, end), b"", b""),
            asked: None,
        },
        None => {
            let m = known.best_move().unwrap();
            let text = G::move_text(known.position, m);
            let front = joined::<FRONT>(place.as_slice(), b"computer: ", text.as_slice(), b"\n");
            persons_part::<G, V>(front.as_slice(), &known.play(m))
        }
    }
}

/// Returns the turn of the side to move, and after the computer's turn the person's.
pub(crate) fn turn<'t, G: Shown, V: View<G>>(known: &Known<'t, G>, side: Side) -> Part<'t, G>
    ensures { (k : Advice) → IsRightAdvice G.Game.rules known.now.position.tier k
        → Speaks G.Game.rules k (turn_spec G.Game.rules G.shown G.move_shown k V.seen known.now.position side) result.text.items
        (asked_at result.asked (λ q. q.position)) }
{
    match side {
        Side::You => persons_part::<G, V>(b"", known),
        Side::Computer => computers_part::<G, V>(known),
    }
}

/// Returns the answer to a line.
pub(crate) fn reply<'t, G: Shown, V: View<G>>(known: &Known<'t, G>, line: &[u8]) -> Part<'t, G>
    ensures { (k : Advice) → IsRightAdvice G.Game.rules known.now.position.tier k
        → Speaks G.Game.rules k (reply_spec G.Game.rules G.shown G.move_shown k V.seen known.now.position line.now) result.text.items
        (asked_at result.asked (λ q. q.position)) }
{
    let text = without_return(line);
    if text == b"quit".as_slice() {
        return Part {
            text: joined(b"bye\n", b"", b"", b""),
            asked: None,
        };
    }
    match G::read_move(known.position, text) {
        Some(m) => computers_part::<G, V>(&known.play(m)),
        None => Part {
            text: joined(
                b"not a move\n",
                V::see(Question::Again, known.position).as_slice(),
                b"your move?\n",
                b"",
            ),
            asked: Some(*known),
        },
    }
}

/// Returns the answer to the bytes after the last line end, as a last line, and the end of the session.
pub(crate) fn close<G: Shown, V: View<G>>(known: &Known<'_, G>, line: &[u8]) -> ArrayVec<u8, LAST>
    ensures { (k : Advice) → IsRightAdvice G.Game.rules known.now.position.tier k
        → result.items ≡ closing G.Game.rules G.shown G.move_shown k V.seen known.now.position line.now }
{
    if line.is_empty() {
        return joined(b"input ended\n", b"", b"", b"");
    }
    let part = reply::<G, V>(known, line);
    match part.asked {
        Some(_) => joined(part.text.as_slice(), b"input ended\n", b"", b""),
        None => joined(part.text.as_slice(), b"", b"", b""),
    }
}
