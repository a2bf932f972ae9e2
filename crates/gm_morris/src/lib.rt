//! Games of nine points on a square of side 3, as tables: Tic-tac-toe and its misere game, Three Men's Morris, Nine Holes, Achi and Picaria. Their rules are in
//! docs/GAMES.md, games of nine points, of placing and of sliding, and `specs/` states them.
#![tactic(auto)]

pub mod games;
