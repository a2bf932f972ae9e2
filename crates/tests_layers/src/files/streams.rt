//! Readers and writers of one byte at a time that fail at one of their calls, and a reader that never ends.
ghost use Rattle.std.specs.Prelude.{◌≡◌, IfSome, IfOk};

use crate::expect::{expect_eq, must};
use gm_tierdb::store_error::StoreError;
use gm_tierdb::streams::{READ_LEN, read_text, write_text};
use std::alloc::Global;
use std::io::{self, ErrorKind, Read, Write};
use std::process::Abort;

const TEXT: &[u8] = b"the text of a tier";

// What a stream does at one of its calls.
#[derive(Clone, Copy)]
enum Fault {
    Fails,
    TakesNothing,
}

// A reader of the rest of a text, or a writer of what it got. It has a fault at one of its calls.
#[derive(Drop)]
struct Slow<T> {
    text: T,
    calls: usize,
    fault_at: usize,
    fault: Fault,
}

impl<T> Slow<T> {
    fn new(text: T, fault: Fault, fault_at: usize) -> Self {
        Slow {
            text,
            calls: 0,
            fault_at,
            fault,
        }
    }

    // Counts a call. Returns what it gives, if it is the one with the fault.
    fn faulty(&mut self) -> Option<io::Result<usize>>
        ensures { IfSome result (λ given. IfOk given (λ n. n ≡ 0)) }
    {
        self.calls = self.calls.saturating_add(1);
        if self.calls != self.fault_at {
            return None;
        }
        Some(match self.fault {
            Fault::Fails => Err(io::Error::from(ErrorKind::Other)),
            Fault::TakesNothing => Ok(0),
        })
    }
}

impl<'a> Read for Slow<&'a [u8]> {
    fn read(&mut self, buf: &mut [u8]) -> io::Result<usize> {
        if let Some(fault) = self.faulty() {
            return fault;
        }
        match self.text.split_first() {
            Some((byte, more)) if !buf.is_empty() => {
                buf[0] = *byte;
                self.text = more;
                Ok(1)
            }
            _ => Ok(0),
        }
    }
}

impl Write for Slow<Vec<u8>> {
    fn write(&mut self, buf: &[u8]) -> io::Result<usize> {
        if let Some(fault) = self.faulty() {
            return fault;
        }
        match buf.first() {
            Some(byte) if self.text.push(*byte).is_ok() => Ok(1),
            _ => Ok(0),
        }
    }

    fn flush(&mut self) -> io::Result<()> {
        Ok(())
    }
}

// A reader that never ends.
#[derive(Drop)]
struct Endless;

impl Read for Endless {
    fn read(&mut self, buf: &mut [u8]) -> io::Result<usize> {
        buf.fill(7);
        Ok(buf.len())
    }
}

#[test]
fn a_reader_may_fail_at_each_call(rt: HostRuntime) {
    // The last call gives nothing, which is the end.
    let calls = TEXT.len() + 1;
    for at in 1..calls + 1 {
        let unread = read_text(rt.alloc(), &mut Slow::new(TEXT, Fault::Fails, at)).err();
        expect_eq(&rt, (at, unread), (at, Some(StoreError::Failed)));
    }
    let found = read_text(rt.alloc(), &mut Slow::new(TEXT, Fault::Fails, calls + 1));
    expect_eq(&rt, must(&rt, found).as_slice(), TEXT);
}

#[test]
fn a_long_text_is_cut(rt: HostRuntime) {
    let text = must(&rt, read_text(rt.alloc(), &mut Endless));
    expect_eq(&rt, (text.len(), READ_LEN), (67_108_937, 67_108_937));
}

// Checks that the writer gets all bytes before the call with the fault.
fn check_written(rt: &impl Abort, alloc: Global, fault: Fault, fault_at: usize) {
    let mut writer = Slow::new(Vec::new(alloc), fault, fault_at);
    let done = write_text(&mut writer, TEXT);
    let is_done = fault_at > TEXT.len();
    let wanted = if is_done {
        Ok(())
    } else {
        Err(StoreError::Failed)
    };
    expect_eq(rt, (fault_at, done), (fault_at, wanted));
    let front = TEXT.get(..fault_at.saturating_sub(1)).unwrap_or(&[]);
    expect_eq(rt, writer.text.as_slice(), front);
}

#[test]
fn a_writer_may_fail_at_each_call(rt: HostRuntime) {
    for fault_at in 1..TEXT.len() + 2 {
        check_written(&rt, rt.alloc(), Fault::Fails, fault_at);
        check_written(&rt, rt.alloc(), Fault::TakesNothing, fault_at);
    }
}
