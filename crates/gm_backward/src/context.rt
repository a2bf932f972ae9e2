//! What the calls of a solve share.

use crate::gate::Gate;
use crate::plan::Plan;
use crate::source::Source;
use gm_immediate::observer::Observer;
use std::alloc::Global;
use std::sync::Wait;
use std::thread::Threads;

/// What a solve works with: threads and memory, the plan by which workers share the pairs, and what they call.
#[derive(Drop)]
pub struct SolveContext<'a, R: Threads + Wait + Sync, T: Gate, S: Source, O: Observer> {
    pub rt: &'a R,
    pub alloc: Global,
    pub plan: Plan,
    pub gate: &'a T,
    pub source: &'a S,
    pub observer: &'a O,
}

impl<'a, R: Threads + Wait + Sync, T: Gate, S: Source, O: Observer> SolveContext<'a, R, T, S, O> {
    /// Returns the context in which a tier of this size is solved level by level: with few indexes one worker solves it.
    pub(crate) fn for_size(&self, size: u64) -> SolveContext<'a, R, T, S, O> {
        SolveContext {
            rt: self.rt,
            alloc: self.alloc,
            plan: self.plan.for_size(size),
            gate: self.gate,
            source: self.source,
            observer: self.observer,
        }
    }
}
