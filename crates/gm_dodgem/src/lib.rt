//! Dodgem on a board of three by three (Colin Vout): each side drives two cars off the far edge.
#![tactic(auto)]

pub mod dodgem;
pub mod picture;
