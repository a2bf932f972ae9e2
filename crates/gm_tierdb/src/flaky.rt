//! A store that fails on purpose.
ghost use Rattle.std.specs.Prelude.{◌≡◌, ◌↔◌, ◌+◌, ◌<◌, ◌^◌, IsTrue, IfOk, OnOk, IsErrOf};
ghost use Rattle.std.specs.Option.{option_map};
ghost use Rattle.gm_tierdb.specs.StoreTexts.{AreSame, AreSameBut, Sets, MaySet, failures_of};
ghost use Rattle.gm_tierdb.specs.inner.Turns.{next_call, FailsNext};

use crate::store::Store;
use crate::store_error::StoreError;
use std::alloc::Global;
use std::fs::Files;

/// A store round another one, which fails on purpose: its reads and writes are numbered from 1, and those from `from` to `to` answer `Failed` without reaching
/// the inner store. The map is the inner store's, and the count of failures is the sum of both.
#[derive(Drop)]
pub struct Flaky<S: Store> {
    inner: S,
    from: u64,
    to: u64,
    calls: u64,
    broken: u64,
    ghost counted: { S.failed inner + broken < 2 ^ 64 },
}

impl<S: Store> Flaky<S> {
    /// Returns a store round this one, whose reads and writes from number `from` to number `to` fail.
    pub fn new(inner: S, from: u64, to: u64) -> Self
        ensures inner { result.inner ≡ inner }
        ensures from { result.from ≡ from }
        ensures to { result.to ≡ to }
        ensures calls { result.calls ≡ 0 }
        ensures broken { result.broken ≡ 0 }
    {
        let _failures = inner.failures();
        Flaky {
            inner,
            from,
            to,
            calls: 0,
            broken: 0,
        }
    }

    /// Returns the inner store.
    pub fn into_inner(self) -> S
        ensures { result ≡ self.inner }
    {
        self.inner
    }
}

// Returns whether the call after this many fails.
fn fails_next(from: u64, to: u64, calls: u64) -> bool
    ensures { IsTrue result ↔ FailsNext from to calls }
{
    let call = calls.saturating_add(1);
    from <= call && call <= to
}

impl<S: Store> Store for Flaky<S> {
    ghost KEEPS = { S.KEEPS };

    ghost READS = { S.READS };

    ghost kept_is_read = { S.kept_is_read };

    ghost texts = { λ s. S.texts s.inner };

    ghost failed = { λ s. S.failed s.inner + s.broken };

    const KEEPS: bool = S::KEEPS;

    fn takes_texts(&self) -> bool {
        self.inner.takes_texts()
    }

    fn read<R: Files>(
        &mut self,
        rt: &R,
        alloc: Global,
        tier: u64,
    ) -> Result<Option<Vec<u8>>, StoreError>
        requires { S.failed self.old.inner + self.old.broken < u64.MAX }
        ensures text { IsTrue S.READS → IfOk result (λ o. option_map (λ v. v.items) o ≡ S.texts self.old.inner tier) }
        ensures same { IsTrue S.READS → AreSame (S.texts self.old.inner) (S.texts self.new.inner) }
        ensures count { S.failed self.new.inner + self.new.broken ≡ S.failed self.old.inner + self.old.broken + failures_of result }

        // A call whose number lies between the two fails and does not reach the inner store; any other one does.
        ensures fails { FailsNext self.old.from self.old.to self.old.calls → IsErrOf result StoreError.Failed }
        ensures stays { FailsNext self.old.from self.old.to self.old.calls → self.new.inner ≡ self.old.inner }
        ensures reaches { (FailsNext self.old.from self.old.to self.old.calls → ⊥) → self.new.broken ≡ self.old.broken }
        ensures calls { self.new.calls ≡ next_call self.old.calls }
        ensures from { self.new.from ≡ self.old.from }
        ensures to { self.new.to ≡ self.old.to }
    {
        let fails = fails_next(self.from, self.to, self.calls);
        self.calls = self.calls.saturating_add(1);
        if fails {
            self.broken += 1;
            return Err(StoreError::Failed);
        }
        self.inner.read(rt, alloc, tier)
    }

    fn write<R: Files>(&mut self, rt: &R, tier: u64, bytes: &[u8]) -> Result<(), StoreError>
        requires { S.failed self.old.inner + self.old.broken < u64.MAX }
        ensures others { IsTrue S.READS → AreSameBut tier (S.texts self.old.inner) (S.texts self.new.inner) }
        ensures ok { IsTrue S.KEEPS → OnOk result (Sets tier bytes.now (S.texts self.old.inner) (S.texts self.new.inner)) }
        ensures out_of_memory { IsTrue S.KEEPS → IsErrOf result StoreError.OutOfMemory → AreSame (S.texts self.old.inner) (S.texts self.new.inner) }
        ensures err { IsTrue S.KEEPS → IsErrOf result StoreError.Failed → MaySet tier bytes.now (S.texts self.old.inner) (S.texts self.new.inner) }
        ensures count { S.failed self.new.inner + self.new.broken ≡ S.failed self.old.inner + self.old.broken + failures_of result }

        // A call whose number lies between the two fails and does not reach the inner store; any other one does.
        ensures fails { FailsNext self.old.from self.old.to self.old.calls → IsErrOf result StoreError.Failed }
        ensures stays { FailsNext self.old.from self.old.to self.old.calls → self.new.inner ≡ self.old.inner }
        ensures reaches { (FailsNext self.old.from self.old.to self.old.calls → ⊥) → self.new.broken ≡ self.old.broken }
        ensures calls { self.new.calls ≡ next_call self.old.calls }
        ensures from { self.new.from ≡ self.old.from }
        ensures to { self.new.to ≡ self.old.to }
    {
        let fails = fails_next(self.from, self.to, self.calls);
        self.calls = self.calls.saturating_add(1);
        if fails {
            self.broken += 1;
            return Err(StoreError::Failed);
        }
        self.inner.write(rt, tier, bytes)
    }

    fn failures(&self) -> u64 {
        self.inner.failures() + self.broken
    }
}
