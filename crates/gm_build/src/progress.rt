//! Progress lines of a running build.
ghost use Rattle.std.specs.Prelude.{◌≡◌, ◌+◌, ◌*◌, ◌≤◌, ◌↔◌, true, false, None, IfSome};
ghost use Rattle.std.specs.Duration.{as_nanos};

use crate::whole_line::write_line;
use gm_game::position::{Phase, Place};
use gm_immediate::observer::Observer;
use std::fmt;
use std::io::Write;
use std::sync::atomic::{AtomicU64, AtomicUsize, Ordering};
use std::sync::{Mutex, Wait};
use std::time::{Clock, Duration};

/// The least time between two lines, in milliseconds.
pub const PAUSE: u64 = 250;

/// What is done with a tier.
#[derive(Clone, Copy, Debug, PartialEq, Eq)]
pub enum Stage {
    /// Its file is read and checked, if there is one.
    Check,
    /// The values of its positions follow from the tables of its child tiers. `share` is the percentage of its indexes that are done.
    Settle { share: u64 },
    /// Its positions are scanned.
    Scan,
    /// The pairs of a level are delivered.
    Level { phase: Phase, remoteness: u32 },
}

impl fmt::Display for Stage {
    fn fmt<W: fmt::Write>(&self, f: &mut fmt::Formatter<W>) -> fmt::Result {
        match self {
            Stage::Check => f.write_str("check"),
            Stage::Settle { share } => write!(f, "settle, {share} %"),
            Stage::Scan => f.write_str("scan"),
            Stage::Level {
                phase: Phase::WinLose,
                remoteness,
            } => write!(f, "wins and losses, level {remoteness}"),
            Stage::Level {
                phase: Phase::Ties,
                remoteness,
            } => write!(f, "ties, level {remoteness}"),
        }
    }
}

// One line of progress. `number` is the place of the tier, from 1, in the order of all `tiers`.
#[derive(Clone, Copy, Debug, Drop)]
struct ProgressLine {
    tier: u64,
    number: u64,
    tiers: usize,
    stage: Stage,
    delivered: u64,
}

impl fmt::Display for ProgressLine {
    fn fmt<W: fmt::Write>(&self, f: &mut fmt::Formatter<W>) -> fmt::Result {
        let ProgressLine {
            tier,
            number,
            tiers,
            stage,
            delivered,
        } = self;
        write!(
            f,
            "tier {tier} ({number} of {tiers}): {stage}, {delivered} delivered"
        )
    }
}

/// Returns whether a line is due: the first at once, and each further one a quarter of a second after the last, by readings of one clock.
pub fn is_due(last: Option<Duration>, now: Duration) -> bool
    ensures first { last ≡ None → result ≡ true }
    ensures later { IfSome last (λ told. (result ≡ true) ↔ (as_nanos told + PAUSE * 1_000_000 ≤ as_nanos now)) }
{
    match last {
        Some(told) => now.saturating_sub(told) >= Duration::from_millis(PAUSE),
        None => true,
    }
}

// Where lines go, and when the last one was written.
#[derive(Drop)]
struct Lines<'a, E: Write> {
    errors: &'a mut E,
    last: Option<Duration>,
    // Whether a line could not be written: then no more are.
    closed: bool,
}

/// Observes a build, and writes lines on its progress or is quiet. No thread waits for another one that is writing.
#[derive(Drop)]
pub struct Progress<'a, C, E: Write> {
    clock: &'a C,
    // Whether nothing is written: then the clock isn't read either.
    quiet: bool,
    tiers: AtomicUsize,
    tier: AtomicU64,
    number: AtomicU64,
    size: AtomicU64,
    settled: AtomicU64,
    delivered: AtomicU64,
    lines: Mutex<Lines<'a, E>>,
}

impl<'a, C: Clock, E: Write> Progress<'a, C, E> {
    /// Returns the progress of a build that is to begin.
    pub fn new(clock: &'a C, errors: &'a mut E) -> Self
        ensures { result.quiet ≡ false }
    {
        Progress::begun(clock, errors, false)
    }

    /// Returns a progress that writes nothing, so that a build with lines and one without are the same code.
    pub fn quiet(clock: &'a C, errors: &'a mut E) -> Self
        ensures { result.quiet ≡ true }
    {
        Progress::begun(clock, errors, true)
    }

    fn begun(clock: &'a C, errors: &'a mut E, quiet: bool) -> Self
        ensures { result.quiet ≡ quiet }
    {
        let lines = Lines {
            errors,
            last: None,
            closed: false,
        };
        Progress {
            clock,
            quiet,
            tiers: AtomicUsize::new(0),
            tier: AtomicU64::new(0),
            number: AtomicU64::new(0),
            size: AtomicU64::new(0),
            settled: AtomicU64::new(0),
            delivered: AtomicU64::new(0),
            lines: Mutex::new(lines),
        }
    }

    // Writes a line if one is due and the clock can be read.
    fn report(&self, stage: Stage) {
        if self.quiet {
            return;
        }
        let Some(mut lines) = self.lines.try_lock() else {
            return;
        };
        if lines.closed {
            return;
        }
        let Ok(now) = self.clock.monotonic() else {
            return;
        };
        if is_due(lines.last, now) {
            let step = ProgressLine {
                tier: self.tier.load(Ordering::SeqCst),
                number: self.number.load(Ordering::SeqCst),
                tiers: self.tiers.load(Ordering::SeqCst),
                stage,
                delivered: self.delivered.load(Ordering::SeqCst),
            };
            lines.last = Some(now);
            lines.closed = write_line(lines.errors, &step).is_err();
        }
    }
}

impl<C: Clock + Sync, E: Write + Send> Observer for Progress<'_, C, E> {
    fn begin<R: Wait>(&self, _rt: &R, tiers: usize) {
        self.tiers.store(tiers, Ordering::SeqCst);
    }

    fn read<R: Wait>(&self, _rt: &R, tier: u64) {
        self.tier.store(tier, Ordering::SeqCst);
        self.number.fetch_add(1, Ordering::SeqCst);
        self.report(Stage::Check);
    }

    fn settle<R: Wait>(&self, _rt: &R, _tier: u64, size: u64) {
        self.size.store(size, Ordering::SeqCst);
        self.settled.store(0, Ordering::SeqCst);
    }

    fn settled(&self, indexes: u64) {
        if self.quiet {
            return;
        }
        let before = self.settled.fetch_add(indexes, Ordering::SeqCst);
        let done = before.saturating_add(indexes).saturating_mul(100);
        let size = self.size.load(Ordering::SeqCst).max(1);
        self.report(Stage::Settle { share: done / size });
    }

    fn solve<R: Wait>(&self, _rt: &R, _tier: u64) {
        self.report(Stage::Scan);
    }

    fn level<R: Wait>(&self, _rt: &R, place: Place) {
        self.report(Stage::Level {
            phase: place.phase,
            remoteness: place.level,
        });
    }

    fn delivered<R: Wait>(&self, _rt: &R, pairs: u64) {
        self.delivered.fetch_add(pairs, Ordering::SeqCst);
    }
}
