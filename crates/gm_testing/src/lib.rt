//! What the tests of several layers share: a shard by hand, sources and gates, and tiers solved by workers or held.
#![tactic(auto)]

pub mod by_hand;
pub mod crews;
pub mod hosts;
pub mod sources;
