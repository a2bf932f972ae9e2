//! The numbering of boards whose pieces stand on one another in columns: by the heights of the columns, and by whose the pieces are.
#![tactic(auto)]

pub mod columns;
pub mod counts;
pub mod filled;
pub mod mirror;
pub mod numbering;
pub mod ranked;
pub mod standing;
