//! Boards for people: a drawing of each position of a game with its coordinates, the side to move, and the names of cells and
//! moves. Each game states what it looks like, by one record (`Pictured`).
//!
//! A drawing is plain ASCII of at most 50 columns. Most games have a template, in which each capital letter stands for a byte of
//! the position's text.
#![tactic(auto)]

pub mod cells;
pub mod chessboard;
pub mod diagram;
pub mod drawn;
mod figures;
mod frame;
pub mod look;
mod marks;
pub mod markup;
mod men;
pub mod on_boards;
pub mod pictured;
mod svg;
mod tex;
pub mod tikz;
mod tikz_men;
