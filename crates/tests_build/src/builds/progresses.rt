//! Progress on standard error: docs/PROGRAM.md.
use crate::expect::{Runtime, expect_eq};
use gm_build::progress::Progress;
use gm_game::position::{Phase, Place};
use gm_solver::observer::Observer;
use std::io::{self, ErrorKind, Write};
use std::sync::Wait;
use std::sync::atomic::{AtomicU64, Ordering};
use std::time::{Clock, Duration};

// A clock that advances by a tenth of a second at each reading, or can't be read.
#[derive(Drop)]
struct Tenths {
    works: bool,
    read: AtomicU64,
}

impl Clock for Tenths {
    fn monotonic(&self) -> io::Result<Duration> {
        if !self.works {
            return self.since_1970();
        }
        let read = self.read.fetch_add(1, Ordering::SeqCst);
        Ok(Duration::from_millis(read.saturating_mul(100)))
    }

    fn since_1970(&self) -> io::Result<Duration> {
        Err(io::Error::from(ErrorKind::Other))
    }
}

// An output that accepts this many calls, and records their text and number.
#[derive(Drop)]
struct Lines {
    text: Vec<u8>,
    calls: u64,
    takes: u64,
}

impl Write for Lines {
    fn write(&mut self, buf: &[u8]) -> io::Result<usize> {
        self.calls = self.calls.saturating_add(1);
        if self.calls > self.takes {
            return Err(io::Error::from(ErrorKind::BrokenPipe));
        }
        self.text.write(buf)
    }

    fn flush(&mut self) -> io::Result<()> {
        Ok(())
    }
}

// What is reported of a tier.
#[derive(Clone, Copy)]
enum Work {
    // The delivery of eight pairs, each at the next level of wins and losses.
    Deliver,
    // The settling of 2,000 indexes in four blocks.
    Settle,
}

// Reports the work on tier 7, the first of three.
fn report<R: Wait>(rt: &R, clock: &Tenths, errors: &mut Lines, work: Work) {
    let progress = Progress::new(clock, errors);
    progress.begin(rt, 3);
    progress.read(rt, 7);
    match work {
        Work::Deliver => {
            progress.solve(rt, 7);
            for level in 0..8 {
                let (tier, phase) = (7, Phase::WinLose);
                progress.level(rt, Place { tier, phase, level });
                progress.delivered(rt, 1);
            }
        }
        Work::Settle => {
            progress.settle(rt, 7, 2000);
            for _ in 0..4 {
                progress.settled(500);
            }
        }
    }
    drop(progress);
}

// Checks the report with a clock that works or not, to an output that accepts this many calls, and the number of calls.
fn check_told<R: Runtime>(rt: &R, work: Work, works: bool, takes: u64, wanted: (u64, &[u8])) {
    let read = AtomicU64::new(0);
    let clock = Tenths { works, read };
    let mut errors = Lines {
        text: Vec::new(rt.alloc()),
        calls: 0,
        takes,
    };
    report(rt, &clock, &mut errors, work);
    expect_eq(rt, (errors.calls, errors.text.as_slice()), wanted);
    drop(errors);
}

const CHECK: &[u8] = b"tier 7 (1 of 3): check, 0 delivered\n";

const TWO: &[u8] = b"tier 7 (1 of 3): check, 0 delivered\n\
    tier 7 (1 of 3): wins and losses, level 1, 1 delivered\n";

const ALL: &[u8] = b"tier 7 (1 of 3): check, 0 delivered\n\
    tier 7 (1 of 3): wins and losses, level 1, 1 delivered\n\
    tier 7 (1 of 3): wins and losses, level 4, 4 delivered\n\
    tier 7 (1 of 3): wins and losses, level 7, 7 delivered\n";

// Checks that a line is one call, that no call follows a failure, and that nothing is reported without a clock.
#[test]
fn lines_are_told_a_quarter_of_a_second_apart(rt: HostRuntime) {
    for (works, takes, calls, text) in [
        (true, 100, 4, ALL),
        (true, 0, 1, b""),
        (true, 1, 2, CHECK),
        (true, 2, 3, TWO),
        (false, 100, 0, b""),
    ] {
        check_told(&rt, Work::Deliver, works, takes, (calls, text));
    }
}

const SETTLED: &[u8] = b"tier 7 (1 of 3): check, 0 delivered\n\
    tier 7 (1 of 3): settle, 75 %, 0 delivered\n";

#[test]
fn a_settled_tier_tells_its_share(rt: HostRuntime) {
    check_told(&rt, Work::Settle, true, 100, (2, SETTLED));
}
