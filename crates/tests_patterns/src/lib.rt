//! Worked positions of games that are tables of patterns. Their values were found by a program that shares nothing with this one, or by hand.
#![tactic(auto)]

#[cfg(test)]
mod dominoes;
#[cfg(test)]
mod placing;
#[cfg(test)]
mod sliding;
#[cfg(test)]
mod worked;
