//! The blocks that a service reads.
ghost use Rattle.std.specs.Prelude.{◌≡◌, ◌+◌, ◌≤◌, ◌<◌, ◌^◌, [], length, IfOk, OnOk, IfErr, OnErr};
ghost use Rattle.std.specs.Io.KnownBytes.{Consumes, Keeps, IsAtEnd};
ghost use Rattle.gm_json.specs.inner.Feeds.{unread};

use crate::ask_error::AskError;
use crate::feed::{BLOCK, Feed};
use crate::turn::Stop;
use std::alloc::Global;
use std::io::Read;

/// Makes the block of a feed that has none.
pub(crate) fn begin(alloc: Global, feed: &mut Feed) -> Result<(), AskError>
    ensures block { OnOk result (length feed.new.block.items ≡ BLOCK) }
    ensures unread { unread feed.new ≡ unread feed.old }
    ensures lines { feed.new.lines ≡ feed.old.lines }
    ensures none { OnErr result (unread feed.old ≡ []) }
    ensures error { IfErr result (λ e. e ≡ AskError.OutOfMemory) }
{
    if !feed.block.is_empty() {
        return Ok(());
    }
    match Vec::from_elem(alloc, 0u8, BLOCK) {
        Ok(block) => {
            feed.block = block;
            Ok(())
        }
        Err(_) => Err(AskError::OutOfMemory),
    }
}

/// Reads a block, and returns how many bytes it has: none only at the end of the input. All that was read before is taken.
pub(crate) fn read_block<R: Read>(feed: &mut Feed, input: &mut R) -> Result<usize, Stop>
    requires block { length feed.old.block.items ≡ BLOCK }
    requires few { feed.old.lines + 1 + BLOCK < 2 ^ 64 }
    requires taken { feed.old.to ≤ feed.old.from }
    ensures reads { OnOk result (Consumes (R.remaining input.old) (R.remaining input.new) (unread feed.new)) }
    ensures end { IfOk result (λ n. n ≡ 0 → IsAtEnd (R.remaining input.new)) }
    ensures from { OnOk result (feed.new.from ≡ 0) }
    ensures to { IfOk result (λ n. feed.new.to ≡ n) }
    ensures err { OnErr result (Keeps (R.remaining input.old) (R.remaining input.new)) }
    ensures error { IfErr result (λ s. s ≡ Stop.Error AskError.ReadFailed) }
    ensures unread { OnErr result (unread feed.new ≡ []) }
    ensures block { length feed.new.block.items ≡ BLOCK }
    ensures lines { feed.new.lines ≡ feed.old.lines }
{
    match input.read(feed.block.as_mut_slice()) {
        Ok(count) => {
            feed.from = 0;
            feed.to = count;
            Ok(count)
        }
        Err(_) => Err(Stop::Error(AskError::ReadFailed)),
    }
}
