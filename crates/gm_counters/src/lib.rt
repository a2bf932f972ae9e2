//! The core of a shard: counters and statuses of a range of a tier, and the order in which its positions were settled. No pair is delivered to it twice.
#![tactic(auto)]

pub mod begin;
pub mod deliveries;
pub mod log;
pub mod ordered;
mod queue;
pub mod status;
mod statuses;

pub use crate::begin::start;
pub use crate::status::{Delivery, Refused, Start, Status};
