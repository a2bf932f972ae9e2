//! Which positions are counted.

/// Which positions are counted.
#[derive(Clone, Copy, Debug, PartialEq, Eq)]
pub enum Among {
    /// The canonical ones: of those that are the same but for symmetry, one.
    Canonical,
    /// All legal ones: each canonical one as often as there are positions that it stands for.
    Legal,
}
