//! Tier files: the bytes of a tier's table, and the stores that keep them.
//!
//! The layout is that of docs/FORMATS.md, "Tier file". `specs/` has the definitions that contracts cite, and `proofs/` what follows from them.
#![tactic(auto)]

pub mod decode;
pub mod encode;
pub mod file_error;
pub mod flaky;
pub mod folder_store;
mod layout;
mod magic;
pub mod mem_store;
pub mod owner;
pub mod read_only;
mod records;
pub mod store;
pub mod store_error;
pub mod streams;
