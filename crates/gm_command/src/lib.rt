//! The program's command line: reading a line of words as a request, and the texts about the program that are made from it. The
//! words are in docs/PROGRAM.md.
#![tactic(auto)]

pub mod commands;
pub mod defaults;
mod game_commands;
mod given;
mod lines;
pub mod manual;
pub mod names;
mod numbers;
pub mod reading;
mod relations;
pub mod requests;
mod searches;
mod words;
