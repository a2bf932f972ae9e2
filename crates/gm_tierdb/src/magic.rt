//! What a tier file begins with, in each version.
ghost use Rattle.std.specs.Prelude.{◌≡◌, ◌↔◌, IsTrue, length};
ghost use Rattle.gm_tierdb.specs.TierText.{magic};
ghost use Rattle.gm_tierdb.specs.Refusals.{IsOld};

use crate::layout::MAGIC_LEN;
use gm_table::version::Version;

/// Returns the first bytes of a file of this version.
pub(crate) fn magic(version: Version) -> &'static [u8]
    ensures { result.now ≡ magic version }
{
    match version {
        Version::One => b"GMTIER01",
        Version::Two => b"GMTIER02",
    }
}

/// Returns whether these first bytes of a file are those of a version before this one.
pub(crate) fn is_older(version: Version, first: &[u8]) -> bool
    requires { length first.now ≡ MAGIC_LEN }
    ensures { IsTrue result ↔ IsOld version first.now }
{
    match version {
        Version::One => false,
        Version::Two => first == magic(Version::One),
    }
}
