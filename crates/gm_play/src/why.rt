//! Why a position has its value: its moves, the best answer to each, and the result of the answer.
ghost use Rattle.std.specs.Prelude.{◌≡◌, ◌++◌, true, IfOk, OnOk};
ghost use Rattle.gm_play.specs.BestMoves.{IsBestMove};
ghost use Rattle.gm_play.specs.MoveValues.{IsMoveValue};
ghost use Rattle.gm_play.specs.PlayTexts.{IsMoveOf};
ghost use Rattle.gm_play.specs.Why.{answer_text, IsExchange, exchange_row, five, IsWhyText};

use crate::firsts::moves_of;
use crate::known::Known;
use crate::move_values::MoveValue;
use crate::texts::{push_field, push_row, value_after};
use gm_game::game::Game;
use gm_game::position::{Position, Solved};
use gm_game::shown::{Line, Shown};
use gm_game::text::value_text;
use std::alloc::{AllocError, Global};

/// A move of a position, the best answer to it, and the result.
#[derive(Clone, Copy, Debug, PartialEq, Eq)]
pub struct Exchange {
    pub made: MoveValue,
    /// The number of the best answer, or `None` if the move has ended the game.
    pub answer: Option<u32>,
    /// The result of the answer, or that of the move if there is no answer.
    pub left: Position,
    /// The value of `left` for the side to move there. If there is an answer, this is the side that made the move.
    pub value: Solved,
}

/// Returns the rows of the moves of a position, the best first: the text of the move, its worth, the best answer (empty if the move
/// ends the game), the final position, and its value, separated by tabs.
///
/// The rows explain a loss: after each move and its answer the side is in a lost position again, nearer the end.
pub fn why_text<G: Shown>(alloc: Global, known: &Known<'_, G>) -> Result<Vec<u8>, AllocError>
    ensures { IfOk result (λ v. IsWhyText G.Game.rules G.shown G.move_shown (G.shown known.now.position) v.items) }
{
    let list = moves_of(known, false);
    let mut rows = Vec::new(alloc);
    for x in list.as_slice() {
        let exchange = exchange_after(known, *x);
        push_exchange(&mut rows, known, exchange)?;
    }
    Ok(rows)
}

// Returns a move with the best answer to it.
fn exchange_after<G: Game>(known: &Known<'_, G>, x: MoveValue) -> Exchange
    requires each { IsMoveOf G.rules known.now.position x }
    requires value { IsMoveValue G.rules known.now.position x }
    ensures made { result.made ≡ x }
    ensures exchange { IsExchange G.rules result }
{
    let q = x.position;
    match known.play(x.number).best_move() {
        Some(m) => Exchange {
            made: x,
            answer: Some(m),
            left: G::play(q, m),
            value: value_after(x.result),
        },
        None => Exchange {
            made: x,
            answer: None,
            left: q,
            value: x.result,
        },
    }
}

fn push_exchange<G: Shown>(
    rows: &mut Vec<u8>,
    known: &Known<'_, G>,
    x: Exchange,
) -> Result<(), AllocError>
    requires each { IsMoveOf G.Game.rules known.now.position x.made }
    requires exchange { IsExchange G.Game.rules x }
    ensures { OnOk result (rows.new.items ≡ rows.old.items ++ exchange_row G.Game.rules G.shown G.move_shown known.now.position x) }
{
    push_five(
        rows,
        G::move_text(known.position, x.made.number).as_slice(),
        value_text(x.made.worth).as_slice(),
        answer_line::<G>(x.made.position, x.answer).as_slice(),
        G::show(x.left).as_slice(),
        value_text(x.value).as_slice(),
    )
}

// Returns the text of an answer, which is empty if the game has ended.
fn answer_line<G: Shown>(q: Position, answer: Option<u32>) -> Line
    requires legal { G.Game.rules.is_legal q ≡ true }
    requires best { IsBestMove G.Game.rules q answer }
    ensures { result.items ≡ answer_text G.Game.rules G.shown G.move_shown q answer }
{
    match answer {
        Some(m) => G::move_text(q, m),
        None => Line::new(),
    }
}

/// Appends a row of five fields, separated by tabs.
pub(crate) fn push_five(
    rows: &mut Vec<u8>,
    a: &[u8],
    b: &[u8],
    c: &[u8],
    d: &[u8],
    e: &[u8],
) -> Result<(), AllocError>
    ensures { OnOk result (rows.new.items ≡ rows.old.items ++ five a.now b.now c.now d.now e.now) }
{
    push_field(rows, a, b"\t")?;
    push_field(rows, b, b"\t")?;
    push_row(rows, c, d, e)
}
