//! The other longest defences of a won position, each with the best answer to it.
ghost use Rattle.std.specs.Prelude.{◌≡◌, ◌++◌, true, List, ℕ, OnOk, drop};
ghost use Rattle.std.specs.List.{All, Contains};
ghost use Rattle.gm_play.specs.BestMoves.{IsBestMove};
ghost use Rattle.gm_play.specs.PlayTexts.{IsMoveOf};
ghost use Rattle.gm_page.specs.Defences.{lasts, answer_words, defence_words, IsDefence, AreDefences, AreOthers};

use gm_draw::markup::push_escaped;
use gm_find::found::Found;
use gm_game::position::{Position, Solved, Value};
use gm_game::shown::Shown;
use gm_play::firsts::moves_of;
use gm_play::known::Known;
use gm_play::move_values::MoveValue;
use std::alloc::AllocError;

/// Appends the other longest defences against the best move of a found position, if it is won.
pub(crate) fn push_others<G: Shown>(
    text: &mut Vec<u8>,
    known: &Known<'_, G>,
    x: Found,
    m: u32,
) -> Result<(), AllocError>
    requires here { known.now.position ≡ x.position }
    requires listed { Contains (G.Game.rules.moves x.position) m }
    ensures { OnOk result ((t : List ℕ) × AreOthers G.Game.rules G.move_shown x m t × (text.new.items ≡ text.old.items ++ t)) }
{
    match x.value.value {
        Value::Win => {
            let after = known.play(m);
            let moves = moves_of(&after, true);
            push_defences(text, &after, x.value.remoteness, others(moves.as_slice()))
        }
        Value::Lose | Value::Tie | Value::Draw => Ok(()),
    }
}

// Returns all moves but the first.
fn others(moves: &[MoveValue]) -> &[MoveValue]
    ensures { result.now ≡ drop 1 moves.now }
{
    if moves.is_empty() { moves } else { &moves[1..] }
}

// Appends those of these moves that last as long as any.
fn push_defences<G: Shown>(
    text: &mut Vec<u8>,
    after: &Known<'_, G>,
    remoteness: u32,
    moves: &[MoveValue],
) -> Result<(), AllocError>
    requires { All (IsMoveOf G.Game.rules after.now.position) moves.now }
    ensures { OnOk result ((t : List ℕ) × AreDefences G.Game.rules G.move_shown after.now.position remoteness moves.now t
        × (text.new.items ≡ text.old.items ++ t)) }
{
    for d in moves {
        push_defence(text, after, remoteness, *d)?;
    }
    Ok(())
}

// Appends a move with the best answer to it, if it lasts as long as any.
fn push_defence<G: Shown>(
    text: &mut Vec<u8>,
    after: &Known<'_, G>,
    remoteness: u32,
    d: MoveValue,
) -> Result<(), AllocError>
    requires { IsMoveOf G.Game.rules after.now.position d }
    ensures { OnOk result ((t : List ℕ) × IsDefence G.Game.rules G.move_shown after.now.position remoteness d t
        × (text.new.items ≡ text.old.items ++ t)) }
{
    if !lasts(remoteness, d.result) {
        return Ok(());
    }
    let then = after.play(d.number);
    push_words::<G>(
        text,
        after.position,
        d.number,
        then.position,
        then.best_move(),
    )
}

// Tests whether a defence after which the winner has this result lasts as long as any, given the remoteness before the winning move.
fn lasts(remoteness: u32, solved: Solved) -> bool
    ensures { result ≡ lasts remoteness solved }
{
    solved.value == Value::Win && u64::from(solved.remoteness) + 2 == u64::from(remoteness)
}

// Appends a defence and the best answer to it.
#[tactic(auto, unfolding(crate::specs::Defences::defence_words))]
fn push_words<G: Shown>(
    text: &mut Vec<u8>,
    p: Position,
    d: u32,
    q: Position,
    answer: Option<u32>,
) -> Result<(), AllocError>
    requires legal { G.Game.rules.is_legal p ≡ true }
    requires listed { Contains (G.Game.rules.moves p) d }
    requires after { q ≡ G.Game.rules.play p d }
    requires best { IsBestMove G.Game.rules q answer }
    ensures { OnOk result (text.new.items ≡ text.old.items ++ defence_words G.Game.rules G.move_shown p d answer) }
{
    text.extend_from_slice(b" Also 1... ")?;
    push_escaped(text, G::move_text(p, d).as_slice())?;
    push_answer::<G>(text, q, answer)?;
    text.extend_from_slice(b".")
}

// Appends an answer, if the game goes on.
fn push_answer<G: Shown>(
    text: &mut Vec<u8>,
    q: Position,
    answer: Option<u32>,
) -> Result<(), AllocError>
    requires legal { G.Game.rules.is_legal q ≡ true }
    requires best { IsBestMove G.Game.rules q answer }
    ensures { OnOk result (text.new.items ≡ text.old.items ++ answer_words G.move_shown q answer) }
{
    match answer {
        Some(m) => {
            text.extend_from_slice(b" 2. ")?;
            push_escaped(text, G::move_text(q, m).as_slice())
        }
        None => Ok(()),
    }
}
