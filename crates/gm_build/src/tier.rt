//! One tier of a build.
ghost use Rattle.std.specs.Prelude.{◌≡◌, ◌+◌, ◌<◌, ◌≤◌, IsTrue, IfOk, OnOk, OnErr, IfErr, IfSome};
ghost use Rattle.gm_table.specs.Tables.{AreHeld};
ghost use Rattle.gm_table.specs.Solving.{AreDeliveries};
ghost use Rattle.gm_tierdb.specs.StoreTexts.{AreSameBut};
ghost use Rattle.gm_build.specs.TrueTexts.{HasText, IsTrueText};
ghost use Rattle.gm_build.specs.Work.{HoldsToo};
ghost use Rattle.gm_build.specs.inner.Steps.{IsAhead, IsStep, IsStepWork};
ghost use Rattle.gm_build.specs.Outcomes.{failures_in, IsTierError, MayHaveText};

use crate::ahead::{Ahead, is_ahead, solved_of, text_in};
use crate::build_error::BuildError;
use crate::found::{Found, load_tier};
use gm_backward::context::SolveContext;
use gm_backward::error::SolveError;
use gm_backward::gate::Gate;
use gm_backward::report::Report;
use gm_backward::solve::solve;
use gm_backward::source::Source;
use gm_game::game::Game;
use gm_game::limits::TIER_SIZE;
use gm_immediate::observer::Observer;
use gm_table::table::Table;
use gm_table::tables::Tables;
use gm_tierdb::encode::room;
use gm_tierdb::store::Store;
use gm_tierdb::store_error::StoreError;
use std::alloc::AllocError;
use std::fs::Files;
use std::mem::replace;
use std::sync::Wait;
use std::thread::{Threads, join};

/// What was done with a tier.
#[derive(Clone, Copy, Debug, PartialEq, Eq)]
pub(crate) enum TierOutcome {
    /// Its text was reused.
    Reused,
    /// Its text was of version 1, and was written again in version 2.
    Migrated,
    /// It was solved, and its text written.
    Solved(Report),
}

/// Builds tiers, in the context in which they are solved.
#[derive(Drop)]
pub(crate) struct Builder<'a, R: Threads + Wait + Files + Sync, T: Gate, P: Source, O: Observer> {
    pub context: SolveContext<'a, R, T, P, O>,
}

impl<R: Threads + Wait + Files + Sync, T: Gate, P: Source, O: Observer> Builder<'_, R, T, P, O> {
    /// Puts the true table of a tier into the tables, and ensures that its text is in the store. The tier is solved, by the method that the plan chooses, if the
    /// store has no text of its true table in either version, unless `ahead` has its table. Then `ahead` has what was done for the next tier meanwhile.
    pub(crate) fn build_tier<G: Game + Send + Sync, S: Store>(
        &self,
        tier: u64,
        next: Option<u64>,
        ahead: &mut Ahead<G>,
        tables: &mut Tables<G>,
        store: &mut S,
    ) -> Result<TierOutcome, BuildError>
        requires held { AreHeld G.rules tables.old tier }
        requires small { G.rules.tier_size tier ≤ TIER_SIZE }
        requires few { S.failed store.old < u64.MAX }
        requires ahead { IsAhead G.rules ahead.old }
        ensures ahead { IsAhead G.rules ahead.new }
        ensures held { OnOk result (HoldsToo tier tables.old tables.new) }
        ensures work { IfOk result (IsStepWork G.rules tier) }
        ensures step { IsTrue S.READS → IfOk result (IsStep G.rules (S.texts store.old) tier) }
        ensures text { IsTrue S.KEEPS → OnOk result (HasText G.rules (S.texts store.new) tier) }
        ensures here { IsTrue S.KEEPS → OnErr result (MayHaveText G.rules (S.texts store.old) (S.texts store.new) tier) }
        ensures others { IsTrue S.READS → AreSameBut tier (S.texts store.old) (S.texts store.new) }
        ensures error { IfErr result (IsTierError G.rules tier) }
        ensures count { S.failed store.new ≡ S.failed store.old + failures_in result }
    {
        let done = replace(ahead, Ahead::Nothing);
        if done.is_nothing() {
            self.context.observer.read(self.context.rt, tier);
        }
        match load_tier(self.context.rt, self.context.alloc, tier, tables, store) {
            Err(error) => Err(error),
            Ok(Found::Current(table)) => match tables.insert(table) {
                Ok(()) => Ok(TierOutcome::Reused),
                Err(_refused) => Err(BuildError::OutOfMemory),
            },
            Ok(Found::Old(table)) => match self.keep(table, None, ahead, tables, store) {
                Ok(()) => Ok(TierOutcome::Migrated),
                Err(error) => Err(error),
            },
            Ok(Found::Nothing) => {
                let (table, report) = match solved_of(done, tier) {
                    Some(solved) => solved,
                    None => solve(&self.context, tier, tables)?,
                };
                self.keep(table, next, ahead, tables, store)?;
                Ok(TierOutcome::Solved(report))
            }
        }
    }

    // Holds the table of a tier, and writes its text once if the store takes texts. Then `ahead` has what was done for the next tier while the text was made.
    fn keep<G: Game + Send + Sync, S: Store>(
        &self,
        table: Table<G>,
        next: Option<u64>,
        ahead: &mut Ahead<G>,
        tables: &mut Tables<G>,
        store: &mut S,
    ) -> Result<(), BuildError>
        requires few { S.failed store.old < u64.MAX }
        requires ahead { IsAhead G.rules ahead.old }
        ensures ahead { IsAhead G.rules ahead.new }
        ensures held { OnOk result (HoldsToo table.tier tables.old tables.new) }
        ensures text { IsTrue S.KEEPS → OnOk result (HasText G.rules (S.texts store.new) table.tier) }
        ensures here { IsTrue S.KEEPS → OnErr result (MayHaveText G.rules (S.texts store.old) (S.texts store.new) table.tier) }
        ensures others { IsTrue S.READS → AreSameBut table.tier (S.texts store.old) (S.texts store.new) }
        ensures error { IfErr result (IsTierError G.rules table.tier) }
        ensures count { S.failed store.new ≡ S.failed store.old + failures_in result }
    {
        let tier = table.tier();
        if !store.takes_texts() {
            return match tables.insert(table) {
                Ok(()) => Ok(()),
                Err(_refused) => Err(BuildError::OutOfMemory),
            };
        }
        if let Err(refused) = tables.insert(table) {
            // The next build reuses the text.
            let table = &refused.value;
            let text = text_in(room(self.context.alloc, table)?, table)?;
            write::<G, R, S>(self.context.rt, tier, text.as_slice(), store)?;
            return Err(BuildError::OutOfMemory);
        }
        let Some(table) = tables.table(tier) else {
            unreachable!()
        };
        let text = self.make_text(table, next, ahead, tables)?;
        write::<G, R, S>(self.context.rt, tier, text.as_slice(), store)
    }

    // Returns the text of a table. While a long one is made, the next tier is solved: then `ahead` has what was done for it.
    fn make_text<G: Game + Send + Sync>(
        &self,
        table: &Table<G>,
        next: Option<u64>,
        ahead: &mut Ahead<G>,
        tables: &Tables<G>,
    ) -> Result<Vec<u8>, AllocError>
        requires { IsAhead G.rules ahead.old }
        ensures text { IfOk result (λ text. IsTrueText G.rules table.now.tier text.items) }
        ensures ahead { IsAhead G.rules ahead.new }
    {
        let file = room(self.context.alloc, table)?;
        match next {
            Some(next) if is_ahead(table, next, tables, self.context.plan) => {
                self.make_text_beside(file, table, next, ahead, tables)
            }
            _ => text_in(file, table),
        }
    }

    // Returns the text of a table, which another thread makes in this list. Then `ahead` has what this thread did for the next tier meanwhile. The list is this
    // thread's, so that its memory is used again.
    fn make_text_beside<G: Game + Send + Sync>(
        &self,
        file: Vec<u8>,
        table: &Table<G>,
        next: u64,
        ahead: &mut Ahead<G>,
        tables: &Tables<G>,
    ) -> Result<Vec<u8>, AllocError>
        requires held { AreHeld G.rules tables.now next }
        requires small { G.rules.tier_size next ≤ TIER_SIZE }
        ensures text { IfOk result (λ text. IsTrueText G.rules table.now.tier text.items) }
        ensures ahead { IsAhead G.rules ahead.new }
    {
        // One by one, since the prover knows no result of a closure that captures a context.
        let rt = self.context.rt;
        let alloc = self.context.alloc;
        let plan = self.context.plan;
        let gate = self.context.gate;
        let source = self.context.source;
        let observer = self.context.observer;
        observer.read(rt, next);
        let (text, answer) = join(
            rt,
            move || -> Result<Vec<u8>, AllocError>
                ensures { IfOk result (λ text. IsTrueText G.rules table.entry.now.tier text.items) }
            { text_in(file, table) },
            || -> Result<(Table<G>, Report), SolveError>
                requires { AreHeld G.rules tables.now next × (G.rules.tier_size next ≤ TIER_SIZE) }
                ensures { IfOk result (λ s. AreDeliveries G.rules s.0.tier s.1.deliveries × (s.1.by_hand ≤ s.1.deliveries)) }
            {
                let context = SolveContext {
                    rt,
                    alloc,
                    plan,
                    gate,
                    source,
                    observer,
                };
                solve(&context, next, tables)
            },
        );
        let done = match answer {
            Ok((table, report)) => Ahead::Done(table, report),
            Err(_error) => Ahead::Read,
        };
        *ahead = done;
        text
    }
}

// Writes the text of a tier once.
fn write<G: Game, R: Files, S: Store>(
    rt: &R,
    tier: u64,
    text: &[u8],
    store: &mut S,
) -> Result<(), BuildError>
    requires text { IsTrueText G.rules tier text.now }
    requires few { S.failed store.old < u64.MAX }
    ensures text { IsTrue S.KEEPS → OnOk result (HasText G.rules (S.texts store.new) tier) }
    ensures here { IsTrue S.KEEPS → OnErr result (MayHaveText G.rules (S.texts store.old) (S.texts store.new) tier) }
    ensures others { IsTrue S.READS → AreSameBut tier (S.texts store.old) (S.texts store.new) }
    ensures error { IfErr result (IsTierError G.rules tier) }
    ensures count { S.failed store.new ≡ S.failed store.old + failures_in result }
{
    match store.write(rt, tier, text) {
        Ok(()) => Ok(()),
        Err(StoreError::OutOfMemory) => Err(BuildError::OutOfMemory),
        Err(StoreError::Failed) => Err(BuildError::StoreFailed { tier }),
    }
}
