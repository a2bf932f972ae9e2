//! The count of a tile.
ghost use Rattle.std.specs.Prelude.{◌≡◌, ◌+◌, ◌/◌, ◌<◌, ◌^◌, slice_index, set, vec_len};

/// Counts an index: the count of the tile that has it rises by one, and the other counts stay.
pub fn count_index(counts: &mut Vec<u64>, width: u64, index: u64)
    requires width { 0 < width }
    requires tile { index / width < vec_len counts.old }
    requires room { slice_index counts.old.items (index / width) + 1 < 2 ^ 64 }
    ensures length { vec_len counts.new ≡ vec_len counts.old }
    ensures counts { counts.new.items ≡ set counts.old.items (index / width) (slice_index counts.old.items (index / width) + 1) }
{
    counts[(index / width) as usize] += 1;
}
