//! The marks round a call, by which the preloaded library (tools/hostile/refuse.c) recognizes the allocations inside it.
use std::alloc::Global;

/// The sizes in bytes of the marks at the start and at the end. No other allocation has them.
pub const START: usize = 1_048_583;

pub const END: usize = 1_048_589;

/// Asks for memory of the size of a mark, even if there is none. From the start to the end allocations are counted and may be
/// refused.
pub fn mark(alloc: Global, size: usize) {
    drop(Vec::<u8>::with_capacity(alloc, size));
}

/// Makes a call between the marks.
macro_rules! marked {
    ($alloc:expr, $call:expr) => {{
        $crate::marks::mark($alloc, $crate::marks::START);
        let answer = $call;
        $crate::marks::mark($alloc, $crate::marks::END);
        answer
    }};
}

pub(crate) use marked;
