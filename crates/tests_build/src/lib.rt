//! The worked values of the solver and of the builds over it: levels, shards, workers and tiers solved on the toys in `solver`, and
//! builds over stores and their progress in `builds`. Whole games, answers and lines of play are tested on the built program
//! (tools/lines).
#![tactic(auto)]

#[cfg(test)]
mod builds;
#[cfg(test)]
mod expect;
pub mod paths;
#[cfg(test)]
mod solver;
