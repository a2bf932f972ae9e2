//! Games in which pieces go from cell to cell: Hexapawn, Nine Holes, Picaria, Clobber, Four Field Kono, Toads and Frogs. Their rules are in docs/GAMES.md, games of
//! sliding and taking, and `specs/` states them.
#![tactic(auto)]

pub mod clobber;
pub mod hexapawn;
pub mod kono;
pub mod nine;
pub mod toads;
