//! Games of patterns: a game gives tables of steps, of ends and of boards that can't be, each a pattern of what lies on the cells, and the rest follows.
#![tactic(auto)]

pub mod boards;
pub mod indexes;
pub mod least;
pub mod lesser;
pub mod on_patterns;
pub mod pattern;
pub mod picture;
pub mod prelude;
pub mod rows;
pub mod rules;
pub mod step;
pub mod text;
pub mod tiers;
