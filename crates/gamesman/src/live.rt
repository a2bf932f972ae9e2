//! The line at a terminal that shows the progress of a build or a check.

use arrayvec::ArrayString;
use gm_build::progress::{Stage, is_due};
use gm_game::position::{Phase, Place};
use gm_immediate::observer::Observer;
use std::fmt::{self, Write as _};
use std::io::Write;
use std::sync::atomic::{AtomicU64, AtomicUsize, Ordering};
use std::sync::{Mutex, Wait};
use std::time::{Clock, Duration};

/// The time in milliseconds before which a build shows no line, unless it comes to a tier of `MANY` indexes or more.
const SHORT: u64 = 1000;

/// The number of indexes from which on a tier is shown at once, since it may be long before there is anything else to report.
const MANY: u64 = 500_000;

/// The bytes of the longest line.
const WIDTH: usize = 128;

/// The bytes of a line, and of an equally wide one that is written over it.
const ROOM: usize = 2 * WIDTH;

// The work on a tier, in a word or two.
#[derive(Drop)]
struct Doing {
    stage: Stage,
}

impl fmt::Display for Doing {
    fn fmt<W: fmt::Write>(&self, f: &mut fmt::Formatter<W>) -> fmt::Result {
        match self.stage {
            Stage::Settle { .. } => f.write_str("settle"),
            stage => write!(f, "{stage}"),
        }
    }
}

// The remaining time, if it can be estimated.
#[derive(Drop)]
struct Left {
    seconds: Option<u64>,
}

impl fmt::Display for Left {
    fn fmt<W: fmt::Write>(&self, f: &mut fmt::Formatter<W>) -> fmt::Result {
        match self.seconds {
            None => Ok(()),
            Some(seconds) if seconds < 120 => write!(f, "  about {seconds} s left"),
            Some(seconds) => write!(f, "  about {} min left", seconds.div_ceil(60)),
        }
    }
}

// The line at the terminal.
#[derive(Drop)]
struct Screen<'a, E: Write> {
    errors: &'a mut E,
    // The time at which the line was last written.
    last: Option<Duration>,
    // The number of columns that the line takes at the terminal.
    width: usize,
    // Whether a write failed. After that no write is tried.
    closed: bool,
}

impl<E: Write> Screen<'_, E> {
    // Writes these words over the line, and spaces over the rest of it.
    fn put<T: fmt::Display>(&mut self, words: &T) {
        let mut text: ArrayString<WIDTH> = ArrayString::new();
        let whole = write!(text, "{words}").is_ok();
        let mut line: ArrayString<ROOM> = ArrayString::new();
        let width = self.width;
        let padded = write!(line, "\r{:width$}", text.as_str()).is_ok();
        self.closed = !whole || !padded || self.errors.write_all(line.as_bytes()).is_err();
        self.width = text.len();
    }

    // Writes spaces over the line, and returns the cursor to its start.
    fn clear(&mut self) {
        if self.width > 0 && !self.closed {
            self.put(&"");
            self.closed = self.closed || self.errors.write_all(b"\r").is_err();
        }
    }
}

/// Observes a build, and shows its progress in one line of a terminal that is overwritten again and again. No thread waits for
/// another one that is writing.
#[derive(Drop)]
pub struct Live<'a, C, E: Write> {
    clock: &'a C,
    // The time at which the build began. If the clock can't be read, nothing is shown.
    begun: Option<Duration>,
    // The number of indexes of each tier, in the order in which the tiers are read, and of all tiers.
    sizes: Vec<u64>,
    total: u64,
    tiers: AtomicUsize,
    number: AtomicU64,
    // The numbers of indexes in the tiers before this one, in this one, and in the part of this one that is settled.
    done: AtomicU64,
    size: AtomicU64,
    settled: AtomicU64,
    screen: Mutex<Screen<'a, E>>,
}

// The contents of the line.
#[derive(Drop)]
struct Step {
    number: u64,
    tiers: usize,
    stage: Stage,
    // The share of the indexes that are done, in per cent.
    share: u64,
    left: Left,
}

impl fmt::Display for Step {
    fn fmt<W: fmt::Write>(&self, f: &mut fmt::Formatter<W>) -> fmt::Result {
        let Step {
            number,
            tiers,
            stage,
            share,
            left,
        } = self;
        let doing = Doing { stage: *stage };
        write!(f, "tier {number} of {tiers}  {doing}  {share} %{left}")
    }
}

// Estimates the remaining seconds from the time that the indexes so far took. Returns `None` if no index is done or the build has
// run for less than `SHORT`.
fn seconds_left(took: Duration, done: u64, total: u64) -> Option<u64> {
    if done == 0 || took < Duration::from_millis(SHORT) {
        return None;
    }
    let rest = u128::from(total.saturating_sub(done)).saturating_mul(took.as_millis());
    let seconds = (rest / u128::from(done)).div_ceil(1000);
    Some(u64::try_from(seconds).unwrap_or(u64::MAX))
}

// Returns the sum of these numbers.
fn total_of(sizes: &[u64]) -> u64 {
    let mut total = 0u64;
    for size in sizes {
        total = total.saturating_add(*size);
    }
    total
}

impl<'a, C: Clock, E: Write> Live<'a, C, E> {
    /// Makes the line for a build that is about to begin, of tiers with these numbers of indexes.
    pub fn new(clock: &'a C, errors: &'a mut E, sizes: Vec<u64>) -> Self {
        let total = total_of(sizes.as_slice());
        let screen = Screen {
            errors,
            last: None,
            width: 0,
            closed: false,
        };
        Live {
            clock,
            begun: clock.monotonic().ok(),
            sizes,
            total,
            tiers: AtomicUsize::new(0),
            number: AtomicU64::new(0),
            done: AtomicU64::new(0),
            size: AtomicU64::new(0),
            settled: AtomicU64::new(0),
            screen: Mutex::new(screen),
        }
    }

    /// Removes the line, so that other lines can be written.
    pub fn clear(&self) {
        if let Some(mut screen) = self.screen.try_lock() {
            screen.clear();
        }
    }

    // Tests whether the line is to be written now.
    fn is_due(&self, last: Option<Duration>, took: Duration, now: Duration) -> bool {
        let long = took >= Duration::from_millis(SHORT) || self.size.load(Ordering::SeqCst) >= MANY;
        (last.is_some() || long) && is_due(last, now)
    }

    // Writes the line if it is due and the clock can be read.
    fn show(&self, stage: Stage) {
        let (Some(mut screen), Some(begun)) = (self.screen.try_lock(), self.begun) else {
            return;
        };
        let Ok(now) = self.clock.monotonic() else {
            return;
        };
        let took = now.saturating_sub(begun);
        if !screen.closed && self.is_due(screen.last, took, now) {
            screen.last = Some(now);
            screen.put(&self.step(stage, took));
        }
    }

    // Returns the contents of the line at this stage.
    fn step(&self, stage: Stage, took: Duration) -> Step {
        let size = self.size.load(Ordering::SeqCst);
        let settled = self.settled.load(Ordering::SeqCst).min(size);
        let done = self.done.load(Ordering::SeqCst).saturating_add(settled);
        Step {
            number: self.number.load(Ordering::SeqCst),
            tiers: self.tiers.load(Ordering::SeqCst),
            stage,
            share: done.saturating_mul(100) / self.total.max(1),
            left: Left {
                seconds: seconds_left(took, done, self.total),
            },
        }
    }
}

impl<C: Clock + Sync, E: Write + Send> Observer for Live<'_, C, E> {
    fn begin<R: Wait>(&self, _rt: &R, tiers: usize) {
        self.tiers.store(tiers, Ordering::SeqCst);
    }

    fn read<R: Wait>(&self, _rt: &R, _tier: u64) {
        let before = self.size.load(Ordering::SeqCst);
        self.done.fetch_add(before, Ordering::SeqCst);
        let number = self.number.fetch_add(1, Ordering::SeqCst);
        let size = self.sizes.get(number as usize).copied().unwrap_or(0);
        self.size.store(size, Ordering::SeqCst);
        self.settled.store(0, Ordering::SeqCst);
        self.show(Stage::Check);
    }

    fn settle<R: Wait>(&self, _rt: &R, _tier: u64, _size: u64) {}

    fn settled(&self, indexes: u64) {
        self.settled.fetch_add(indexes, Ordering::SeqCst);
        self.show(Stage::Settle { share: 0 });
    }

    fn solve<R: Wait>(&self, _rt: &R, _tier: u64) {
        self.settled.store(0, Ordering::SeqCst);
        self.show(Stage::Scan);
    }

    fn level<R: Wait>(&self, _rt: &R, place: Place) {
        self.show(Stage::Level {
            phase: place.phase,
            remoteness: place.level,
        });
    }

    fn delivered<R: Wait>(&self, _rt: &R, _pairs: u64) {}
}
