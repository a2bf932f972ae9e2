//! The worked positions and tables of the layers below the solver: boards, toys, Tac Tix and orders of tiers in `rules`, tier files
//! and the stores that keep them in `files`.
#![tactic(auto)]

#[cfg(test)]
mod countdowns;
#[cfg(test)]
mod expect;
#[cfg(test)]
mod files;
pub mod paths;
#[cfg(test)]
mod rules;
