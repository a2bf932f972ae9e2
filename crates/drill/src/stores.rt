//! Stores. After a refused write the entry is the old one.
use crate::marks::marked;
use crate::said::{Done, Said, WORDS, say_all};
use gm_testing::hosts::Host;
use gm_tierdb::flaky::Flaky;
use gm_tierdb::folder_store::FolderStore;
use gm_tierdb::mem_store::MemStore;
use gm_tierdb::store::Store;
use gm_tierdb::store_error::StoreError;

// The tier that gets first the old text and then the new one.
const TIER: u64 = 7;

const OLD: &[u8] = b"an old text";

const NEW: &[u8] = b"a new text";

/// The place of a store's texts: in memory, in memory through a `Flaky` that doesn't fail, or in the folder in which the drill
/// runs.
#[derive(Clone, Copy)]
pub enum Place {
    Memory,
    Through,
    Folder,
}

/// A call on a store: a write of a text, a read that returns the number of bytes, or one that returns which text was read.
#[derive(Clone, Copy)]
pub enum StoreCall {
    WriteOld,
    WriteNew,
    Read,
    Look,
}

// Returns the result of a write.
fn written(answer: Result<(), StoreError>) -> Said<'static> {
    match answer {
        Ok(()) => Said::Text("written"),
        Err(StoreError::Failed) => Said::Text("failed"),
        Err(StoreError::OutOfMemory) => Said::OutOfMemory,
    }
}

// Returns the result of a read as the number of bytes.
fn number_of(answer: Result<Option<Vec<u8>>, StoreError>) -> Said<'static> {
    match answer {
        Ok(Some(text)) => Said::Number(text.len() as u64),
        Ok(None) => Said::Text("none"),
        Err(error) => written(Err(error)),
    }
}

// Returns which text was read.
fn which(answer: Result<Option<Vec<u8>>, StoreError>) -> Said<'static> {
    let word = match &answer {
        Ok(Some(text)) if text.as_slice() == OLD => "old",
        Ok(Some(text)) if text.as_slice() == NEW => "new",
        Ok(Some(_)) => "wrong",
        Ok(None) => "none",
        Err(_) => "failed",
    };
    drop(answer);
    Said::Text(word)
}

// Makes a call on a store, and returns the result.
fn answered<S: Store, R: Host>(rt: &R, call: StoreCall, store: &mut S) -> Said<'static> {
    if store.failures() == u64::MAX {
        return Said::Text("failed");
    }
    match call {
        StoreCall::WriteOld => written(store.write(rt, TIER, OLD)),
        StoreCall::WriteNew => written(store.write(rt, TIER, NEW)),
        StoreCall::Read => number_of(store.read(rt, rt.alloc(), TIER)),
        StoreCall::Look => which(store.read(rt, rt.alloc(), TIER)),
    }
}

// Makes a call on a store that has the old text.
fn call_on_old<R: Host + Print, S: Store>(rt: &R, call: StoreCall, mut store: S) -> Done {
    let _written = answered(rt, StoreCall::WriteOld, &mut store);
    let before = answered(rt, StoreCall::Look, &mut store);
    let first = marked!(rt.alloc(), answered(rt, call, &mut store));
    let after = answered(rt, StoreCall::Look, &mut store);
    let again = answered(rt, call, &mut store);
    drop(store);
    say_all(rt, &WORDS, &[before, first, after, again])
}

/// Makes a call on a store with the old text.
pub fn call_on<R: Host + Print>(rt: &R, call: StoreCall, place: Place) -> Done {
    let memory = MemStore::new(rt.alloc());
    match place {
        Place::Memory => call_on_old(rt, call, memory),
        Place::Through => call_on_old(rt, call, Flaky::new(memory, u64::MAX, u64::MAX)),
        Place::Folder => {
            let folder = String::from_str(rt.alloc(), ".").ok()?;
            call_on_old(rt, call, FolderStore::new(rt.alloc(), folder))
        }
    }
}
