//! The texts of tiers.
ghost use Rattle.std.specs.Prelude.{◌≡◌, ◌+◌, ◌<◌, ℕ, Bool, List, Option, IsTrue, IfOk, OnOk, IsErrOf};
ghost use Rattle.std.specs.Option.{option_map};
ghost use Rattle.gm_tierdb.specs.StoreTexts.{AreSame, AreSameBut, Sets, MaySet, failures_of};

use crate::store_error::StoreError;
use std::alloc::Global;
use std::fs::Files;

/// A store of texts: a map from tiers to bytes, with a count of the calls that have failed.
pub trait Store: Drop {
    /// Whether the map is promised. If it is not, as on a disk that others write to, only the count of failures is.
    ghost KEEPS: { Bool };

    /// Whether reads are promised: a read returns the tier's text, and texts change only by writes of their tiers. A store that takes no texts may promise
    /// this without keeping its map.
    ghost READS: { Bool };

    /// A store that keeps its map promises its reads.
    ghost kept_is_read: { IsTrue KEEPS → IsTrue READS };

    /// The text of each tier that has one.
    ghost texts: { Self → ℕ → Option (List ℕ) };

    /// How many calls have failed.
    ghost failed: { Self → ℕ };

    /// Whether the map is promised.
    const KEEPS: bool;

    /// Returns whether the store takes texts. One that keeps its map does; of another that takes none, `write` need not be called.
    fn takes_texts(&self) -> bool
        ensures { IsTrue KEEPS → IsTrue result };

    /// Returns the text of a tier, or `None` if it has none. No text changes.
    fn read<R: Files>(
        &mut self,
        rt: &R,
        alloc: Global,
        tier: u64,
    ) -> Result<Option<Vec<u8>>, StoreError>
        requires { failed self.old < u64.MAX }
        ensures text { IsTrue READS → IfOk result (λ o. option_map (λ v. v.items) o ≡ texts self.old tier) }
        ensures same { IsTrue READS → AreSame (texts self.old) (texts self.new) }
        ensures count { failed self.new ≡ failed self.old + failures_of result };

    /// Gives a tier this text. If memory runs out, no text has changed; after a failure the tier has its old text or this one.
    fn write<R: Files>(&mut self, rt: &R, tier: u64, bytes: &[u8]) -> Result<(), StoreError>
        requires { failed self.old < u64.MAX }
        ensures others { IsTrue READS → AreSameBut tier (texts self.old) (texts self.new) }
        ensures ok { IsTrue KEEPS → OnOk result (Sets tier bytes.now (texts self.old) (texts self.new)) }
        ensures out_of_memory { IsTrue KEEPS → IsErrOf result StoreError.OutOfMemory → AreSame (texts self.old) (texts self.new) }
        ensures err { IsTrue KEEPS → IsErrOf result StoreError.Failed → MaySet tier bytes.now (texts self.old) (texts self.new) }
        ensures count { failed self.new ≡ failed self.old + failures_of result };

    /// Returns how many calls have answered `Failed`.
    fn failures(&self) -> u64
        ensures { result ≡ failed self.now };
}
