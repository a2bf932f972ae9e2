//! Expectations of tests. A call is far cheaper to prove than `assert!` or `assert_eq!` written out.
ghost use Rattle.std.specs.Prelude.{◌≡◌, Ok, IsTrue};

use gm_testing::hosts::Crew;
use std::fmt::Debug;
use std::fs::Files;
use std::process::Abort;

/// A runtime of a test that starts threads.
pub(crate) trait Runtime: Crew + Abort {}

impl<R: Crew + Abort> Runtime for R {}

/// A runtime of a test that also uses a store.
pub(crate) trait Disk: Runtime + Files {}

impl<R: Runtime + Files> Disk for R {}

/// Fails if a value is not the wanted one.
pub(crate) fn expect_eq<T: Debug + PartialEq + Drop>(rt: &impl Abort, found: T, wanted: T) {
    assert!(rt; found == wanted, "found {found:?}, wanted {wanted:?}");
}

/// Fails if a condition is not true.
pub(crate) fn expect(rt: &impl Abort, is_so: bool)
    ensures { IsTrue is_so }
{
    assert!(rt; is_so);
}

/// Returns the value of a successful call. The test fails if the call failed.
pub(crate) fn must<T: Drop, E: Drop>(rt: &impl Abort, found: Result<T, E>) -> T
    ensures { found ≡ Ok result }
{
    match found {
        Ok(value) => value,
        Err(_) => panic!(rt; "a call failed"),
    }
}
