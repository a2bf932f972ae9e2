//! Games whose positions are four numbers: the heaps of Nim, and the rows of Chomp's bar.
#![tactic(auto)]

pub mod chomp;
pub mod digits;
pub mod nim;
pub mod picture;
