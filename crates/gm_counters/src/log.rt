//! A history that only proofs read. It takes no memory, and its calls do nothing when they run.
ghost use Rattle.std.specs.Prelude.{◌≡◌, List, [], ◌∷◌, ◌++◌};
ghost use Rattle.std.specs.Borrow.{ftrue};

use std::marker::{Model, PhantomData};

/// A list of pairs that clauses read as `items`.
#[derive(Drop)]
pub struct Log<A, B> {
    of: PhantomData<(A, B)>,
    pub ghost items: { List (A × B) },
}

impl<A, B> Model for Log<A, B> {
    ghost also_owns = { λ _. ftrue };
}

// It owns nothing.
unsafe impl<A: Send, B: Send> Send for Log<A, B> {}

impl<A, B> Log<A, B> {
    ghost use Rattle.gm_counters.specs.inner.Logged.{logged};

    /// Returns the pairs of a log, or none if there is no log, and one more.
    pub fn after(before: &Option<Log<A, B>>, first: &A, second: &B) -> Log<A, B>
        ensures { result.items ≡ logged before.now ++ (first.now, second.now) ∷ [] }
    {
        Log { of: PhantomData }
    }
}
