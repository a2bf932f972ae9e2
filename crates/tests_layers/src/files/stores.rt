//! Stores in memory, and those that fail. A store in a folder is tested on the built program.
use crate::expect::{expect, expect_eq};
use gm_tierdb::flaky::Flaky;
use gm_tierdb::mem_store::MemStore;
use gm_tierdb::store::Store;
use gm_tierdb::store_error::StoreError;
use std::fs::Files;
use std::process::Abort;

// A call on a store, and its result: the text of a tier, or none, is read; or a tier gets this text.
#[derive(Clone, Copy)]
enum Call {
    Read(u64, Result<Option<&'static [u8]>, StoreError>),
    Write(u64, &'static [u8], Result<(), StoreError>),
}

use Call::{Read, Write};

// Makes these calls on a store that keeps its map, and checks the number of those that failed.
fn check_calls<S: Store, R: Files + AllocGlobal + Abort>(
    rt: &R,
    store: &mut S,
    calls: &[Call],
    failures: u64,
) {
    expect(rt, S::KEEPS);
    for (number, call) in calls.iter().enumerate() {
        expect(rt, store.failures() < u64::MAX);
        match *call {
            Read(tier, wanted) => {
                let found = store.read(rt, rt.alloc(), tier);
                let text = match &found {
                    Ok(Some(text)) => Ok(Some(text.as_slice())),
                    Ok(None) => Ok(None),
                    Err(error) => Err(*error),
                };
                expect_eq(rt, (number, text), (number, wanted));
                drop(found);
            }
            Write(tier, text, wanted) => {
                let found = store.write(rt, tier, text);
                expect_eq(rt, (number, found), (number, wanted));
            }
        }
    }
    expect_eq(rt, store.failures(), failures);
}

const IN_MEMORY: [Call; 7] = [
    Read(3, Ok(None)),
    Write(3, b"three", Ok(())),
    Write(5, b"five", Ok(())),
    Write(3, b"3", Ok(())),
    Read(3, Ok(Some(b"3"))),
    Read(5, Ok(Some(b"five"))),
    Read(4, Ok(None)),
];

#[test]
fn a_memory_store_keeps_texts(rt: HostRuntime) {
    check_calls(&rt, &mut MemStore::new(rt.alloc()), &IN_MEMORY, 0);
}

// The calls on a store whose second and third calls fail.
const FLAKY: [Call; 4] = [
    Write(0, b"kept", Ok(())),
    Read(0, Err(StoreError::Failed)),
    Write(0, b"lost", Err(StoreError::Failed)),
    Read(0, Ok(Some(b"kept"))),
];

#[test]
fn a_flaky_store_fails_from_its_first_to_its_last(rt: HostRuntime) {
    let mut store = Flaky::new(MemStore::new(rt.alloc()), 2, 3);
    check_calls(&rt, &mut store, &FLAKY, 2);
    let kept = [Read(0, Ok(Some(b"kept")))];
    check_calls(&rt, &mut store.into_inner(), &kept, 0);
}

#[test]
fn store_errors_have_numbers(rt: HostRuntime) {
    expect_eq(&rt, StoreError::OutOfMemory.number(), 1);
    expect_eq(&rt, StoreError::Failed.number(), 2);
}
