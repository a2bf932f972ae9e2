//! How the positions of a game are written, for a person at a terminal.

use crate::fault::Fault;
use crate::run::DONE;
use gm_draw::pictured::Pictured;
use gm_game::game::laws;
use std::io::Write;

/// Writes the start of a game as an example of a position, and how cells, positions and moves are written.
pub fn write_naming<G: Pictured, E: Write>(errors: &mut E) -> Result<u8, Fault> {
    laws::<G>();
    let start = G::show(G::initial());
    errors.write_all(b"  tip: positions are written so, as the start: '")?;
    errors.write_all(start.as_slice())?;
    errors.write_all(b"'\n")?;
    errors.write_all(G::picture().naming)?;
    Ok(DONE)
}
