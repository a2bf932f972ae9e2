//! One item for each shard of a tier.

/// One item for each shard, 0 to 3.
#[derive(Drop)]
pub struct Four<T> {
    pub a: T,
    pub b: T,
    pub c: T,
    pub d: T,
}
