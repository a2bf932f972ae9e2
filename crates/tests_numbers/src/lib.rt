//! Worked positions of games with a numbering of their own, and whole games. Their values were found by a program that shares nothing with this one, or by hand.
#![tactic(auto)]

#[cfg(test)]
mod chomp;
#[cfg(test)]
mod connect;
#[cfg(test)]
mod kpk;
#[cfg(test)]
mod larger;
#[cfg(test)]
mod nim;
#[cfg(test)]
mod whole;
#[cfg(test)]
mod worked;
