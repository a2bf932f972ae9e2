//! Games on the squares of a chess board: endings of chess (king and rook, king and queen, or king and pawn, against king), and Fox and Hounds. They share the
//! texts of squares, and in `specs/` the next square on a way. Their rules are in docs/GAMES.md, and `specs/` states them.
#![tactic(auto)]

pub mod attacks;
pub mod befores;
pub mod chase;
pub mod chess;
pub mod dark_squares;
pub mod foxhounds;
pub mod goals;
pub mod homes;
pub mod hounds;
pub mod kpk;
pub mod lines;
pub mod men;
pub mod men_text;
pub mod pawn_marks;
pub mod pawn_text;
pub mod pawns;
pub mod picture;
pub mod text;
pub mod ways;
