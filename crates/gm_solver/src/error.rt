//! Why a tier is not solved.

pub use gm_backward::error::SolveError;
