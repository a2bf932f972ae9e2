//! The frontier of a solver: the positions settled at one level of a tier, and exact counts of the pairs that they make.
#![tactic(auto)]

pub mod expected;
pub mod last;
pub mod level;
pub mod note;
pub mod pair_list;
pub mod pairs;
mod part;
mod row;
pub mod run;
pub mod tally;
