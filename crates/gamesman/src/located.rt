//! The tier and index of a position.
ghost use Rattle.std.specs.Prelude.{◌≡◌, true, IfOk};
ghost use Rattle.gamesman.specs.Answers.{located_text, IsLocatedBy};

use crate::explore::ended;
use crate::fault::Fault;
use crate::output::put;
use crate::run::DONE;
use gm_game::shown::Shown;
use gm_json::located::located_json;
use gm_play::place_texts::place_text;
use gm_play::places::{self, Located};
use std::alloc::{AllocError, Global};
use std::io::Write;

/// Prints the place of a position: its tier and index. It builds no table.
pub fn locate<G: Shown, O: Write>(
    alloc: Global,
    position: &str,
    json: bool,
    output: &mut O,
) -> Result<u8, Fault>
    ensures { IsLocatedBy G.Game.rules G.shown position.now json (O.contents output.old) (O.contents output.new) result }
{
    let Some(located) = places::locate::<G>(position.as_bytes()) else {
        return Err(Fault::NoSuchPosition);
    };
    let text = text_of::<G>(alloc, located, json)?;
    put(output, text.as_slice())?;
    Ok(DONE)
}

// Returns a place as a line of JSON, or as a row.
fn text_of<G: Shown>(alloc: Global, l: Located, json: bool) -> Result<Vec<u8>, AllocError>
    requires position { G.Game.rules.is_legal l.position ≡ true }
    requires canonical { G.Game.rules.is_legal l.canonical ≡ true }
    ensures { IfOk result (λ v. v.items ≡ located_text G.shown json l) }
{
    if json {
        ended(located_json::<G>(alloc, l)?)
    } else {
        place_text::<G>(alloc, l)
    }
}
