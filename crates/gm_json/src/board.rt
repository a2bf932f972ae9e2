//! A position with its board, in JSON.
ghost use Rattle.std.specs.Prelude.{IfOk};
ghost use Rattle.gm_json.specs.Boards.{IsBoardJson};

use crate::moves::push_value;
use crate::parts::{push_bytes, push_text_member};
use gm_game::shown::Shown;
use gm_play::known::Known;
use std::alloc::{AllocError, Global};

/// Returns a position as one line of compact JSON, without its end: its value and remoteness, this drawing of its board, and this name of the side to move.
pub fn board_json<G: Shown>(
    alloc: Global,
    known: &Known<'_, G>,
    board: &[u8],
    mover: &[u8],
) -> Result<Vec<u8>, AllocError>
    ensures { IfOk result (λ line. IsBoardJson G.Game.rules G.shown G.move_shown known.now.position board.now mover.now line.items) }
{
    let mut line = Vec::new(alloc);
    push_bytes(&mut line, b"{")?;
    push_value::<G>(alloc, &mut line, false, known.position, known.value())?;
    push_text_member(alloc, &mut line, true, "board", board)?;
    push_text_member(alloc, &mut line, true, "toMove", mover)?;
    push_bytes(&mut line, b"}")?;
    Ok(line)
}
