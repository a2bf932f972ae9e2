//! What a service has read and not taken yet.
ghost use Rattle.std.specs.Prelude.{◌≡◌, ◌+◌, ◌≤◌, ◌<◌, ◌^◌, length};

use std::alloc::Global;

/// The size of the input and output buffers in bytes.
pub const BLOCK: usize = 65_536;

/// What a service has read and not taken yet, as it goes on from game to game, and how many lines it has taken.
#[derive(Drop)]
pub struct Feed {
    // Empty, or of `BLOCK` bytes, of which those from `from` to `to` are read and not taken.
    pub(crate) block: Vec<u8>,
    pub(crate) from: usize,
    pub(crate) to: usize,
    /// The number of lines that are taken.
    pub lines: u64,
    ghost whole: { 0 < length block.items → length block.items ≡ 65536 },
    ghost order: { from ≤ to },
    ghost inside: { to ≤ length block.items },
    ghost few: { lines + 1 + to < 2 ^ 64 + from },
}

impl Feed {
    ghost use Rattle.std.specs.Prelude.{◌≡◌, []};
    ghost use Rattle.gm_json.specs.inner.Feeds.{unread};

    /// Returns the feed of a service that has read nothing.
    pub fn new(alloc: Global) -> Self
        ensures lines { result.lines ≡ 0 }
        ensures unread { unread result ≡ [] }
    {
        Feed {
            block: Vec::new(alloc),
            from: 0,
            to: 0,
            lines: 0,
        }
    }
}
