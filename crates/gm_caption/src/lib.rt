//! Captions: lines under the diagrams of a sheet, by a template or in one of two fixed forms.
//!
//! `specs/` has the definitions that contracts cite, and `proofs/` has the facts that follow from them.
#![tactic(auto)]

pub mod caption;
pub mod template;
