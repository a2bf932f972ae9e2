//! Patterns: lists of cells, such as rows, columns and corners, and the masks of their cells.
ghost use Rattle.std.specs.Prelude.{◌≡◌, ◌==◌, ℕ, List, map, bit_and};
ghost use Rattle.std.specs.List.{list_any, list_all};
ghost use Rattle.gm_board.specs.Masks.{has_cell};
ghost use Rattle.gm_board.specs.BoardMasks.{pattern_mask};

/// Returns whether these cells include all cells of the pattern with this mask.
#[tactic(auto, using(crate::specs::laws::BoardMasks::filled_by))]
pub fn has_all(cells: u32, mask: u32) -> bool
    ensures { (pattern : List ℕ) → pattern_mask pattern ≡ mask → result ≡ list_all (has_cell cells) pattern }
{
    cells & mask == mask
}

/// Returns whether these cells include all cells of one of the patterns with these masks.
#[inline(always)]
pub fn has_some(cells: u32, masks: &[u32]) -> bool
    ensures { (patterns : List (List ℕ)) → map pattern_mask patterns ≡ masks.now → result ≡ list_any (λ pattern. list_all (has_cell cells) pattern) patterns }
{
    fills_some(cells, masks)
}

// Returns whether these cells include all cells of one of these masks. All masks are tested, so that the loop has no branches.
#[inline(always)]
fn fills_some(cells: u32, masks: &[u32]) -> bool
    ensures { result ≡ list_any (λ mask. bit_and cells mask == mask) masks.now }
{
    let mut found = false;
    for mask in masks {
        found |= cells & *mask == *mask;
    }
    found
}
