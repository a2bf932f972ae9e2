//! Where a position is, in JSON.
ghost use Rattle.std.specs.Prelude.{◌≡◌, true, IfOk};
ghost use Rattle.serde_json.specs.Written.{compact_text};
ghost use Rattle.gm_json.specs.Located.{located_tree};

use crate::extras::{push_canonical, push_place};
use crate::parts::push_bytes;
use gm_game::shown::Shown;
use gm_play::places::Located;
use std::alloc::{AllocError, Global};

/// Returns a located position as one line of compact JSON, without its end: its index, its text and its tier, and those of its canonical position. Reads no
/// table.
pub fn located_json<G: Shown>(alloc: Global, l: Located) -> Result<Vec<u8>, AllocError>
    requires position { G.Game.rules.is_legal l.position ≡ true }
    requires canonical { G.Game.rules.is_legal l.canonical ≡ true }
    ensures { IfOk result (λ line. line.items ≡ compact_text (located_tree G.shown l)) }
{
    let mut line = Vec::new(alloc);
    push_bytes(&mut line, b"{")?;
    push_place::<G>(alloc, &mut line, l.position)?;
    push_canonical::<G>(alloc, &mut line, true, l.canonical)?;
    push_bytes(&mut line, b"}")?;
    Ok(line)
}
