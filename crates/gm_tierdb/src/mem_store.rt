//! A store in memory.
ghost use Rattle.std.specs.Prelude.{◌≡◌, ◌≢◌, ℕ, true, Ok, None, IfOk, IfErr};
ghost use Rattle.std.specs.Option.{option_map};
ghost use Rattle.std.specs.Ordering.{nat_cmp};
ghost use Rattle.std.specs.BTreeMap.{get};

use crate::store::Store;
use crate::store_error::StoreError;
use std::alloc::Global;
use std::collections::BTreeMap;
use std::fs::Files;

/// A store in memory. It keeps its map and never fails.
#[derive(Drop)]
pub struct MemStore {
    alloc: Global,
    entries: BTreeMap<u64, Vec<u8>>,
}

impl MemStore {
    /// Returns a store without texts. Texts that are written are copied to memory of this allocator.
    pub fn new(alloc: Global) -> Self
        ensures { (t : ℕ) → ⟦<MemStore as Store>⟧.texts result t ≡ None }
    {
        MemStore {
            alloc,
            entries: BTreeMap::new(alloc),
        }
    }
}

impl Store for MemStore {
    ghost KEEPS = { true };

    ghost READS = { true };

    ghost kept_is_read = { λ kept. kept };

    ghost texts = { λ s t. option_map (λ v. v.items) (get nat_cmp s.entries t) };

    ghost failed = { λ _. 0 };

    const KEEPS: bool = true;

    fn takes_texts(&self) -> bool {
        true
    }

    fn read<R: Files>(
        &mut self,
        _rt: &R,
        alloc: Global,
        tier: u64,
    ) -> Result<Option<Vec<u8>>, StoreError>
        ensures text { IfOk result (λ o. option_map (λ v. v.items) o ≡ option_map (λ v. v.items) (get nat_cmp self.old.entries tier)) }
        ensures same { self.new ≡ self.old }
        ensures failed { IfErr result (λ e. e ≡ StoreError.OutOfMemory) }

        // Memory is used only if there is a text.
        ensures absent { get nat_cmp self.old.entries tier ≡ None → result ≡ Ok None }
    {
        match self.entries.get(&tier) {
            None => Ok(None),
            Some(text) => match Vec::from_slice(alloc, text.as_slice()) {
                Ok(copy) => Ok(Some(copy)),
                Err(_) => Err(StoreError::OutOfMemory),
            },
        }
    }

    fn write<R: Files>(&mut self, _rt: &R, tier: u64, bytes: &[u8]) -> Result<(), StoreError> {
        let copy = match Vec::from_slice(self.alloc, bytes) {
            Ok(copy) => copy,
            Err(_) => return Err(StoreError::OutOfMemory),
        };
        match self.entries.insert(tier, copy) {
            Ok(_) => Ok(()),
            Err(_) => Err(StoreError::OutOfMemory),
        }
    }

    fn failures(&self) -> u64 {
        0
    }
}
