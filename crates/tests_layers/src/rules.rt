//! Worked positions of boards, the toys, Tac Tix and Hare and Hounds, and orders of tiers.
mod asking;
mod boards;
mod lines;
mod orders;
mod tactix;
mod toys;
