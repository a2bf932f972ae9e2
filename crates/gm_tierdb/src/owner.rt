//! Which game a tier file belongs to.
ghost use Rattle.std.specs.Prelude.{◌≡◌, ◌↔◌, ◌≤◌, ℕ, List, IsTrue, length, take};
ghost use Rattle.gm_tierdb.specs.inner.Owners.{IsIntact, IsAnothers, owner_of};

use crate::layout::{DIGEST_LEN, HEADER_LEN, MAGIC_LEN, NAME_END};
use sha2::{Digest, Sha256};

/// The first bytes of the file of a tier, of any version.
const MARK: &[u8] = b"GMTIER";

/// Returns whether a text is an intact tier file of another game than the one whose file these bytes are. Any bytes may be given.
pub fn is_anothers(text: &[u8], bytes: &[u8]) -> bool
    ensures { IsTrue result ↔ IsAnothers text.now bytes.now }
{
    is_intact(text) && (bytes.len() < NAME_END || owner(text) != owner(bytes))
}

/// Returns whether a text with these first bytes, at least 24 of them, can be an intact tier file of another game than the one whose file the other bytes are.
/// If not, the rest of it need not be read.
pub(crate) fn may_be_anothers(head: &[u8], bytes: &[u8]) -> bool
    requires { 24 ≤ length head.now }
    ensures { (text : List ℕ) → take (length head.now) text ≡ head.now → IsAnothers text bytes.now → IsTrue result }
{
    &head[..MARK.len()] == MARK && (bytes.len() < NAME_END || owner(head) != owner(bytes))
}

// Returns whether a text is the file of a tier: what it begins with, and its digest.
fn is_intact(text: &[u8]) -> bool
    ensures { IsTrue result ↔ IsIntact text.now }
{
    if text.len() < HEADER_LEN + DIGEST_LEN || &text[..MARK.len()] != MARK {
        return false;
    }
    let (body, digest) = text.split_at(text.len() - DIGEST_LEN);
    Sha256::digest(body).as_slice() == digest
}

// Returns the name of the game that a file is of.
fn owner(text: &[u8]) -> &[u8]
    requires { 24 ≤ length text.now }
    ensures { result.now ≡ owner_of text.now }
{
    &text[MAGIC_LEN..NAME_END]
}
