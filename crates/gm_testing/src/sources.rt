//! One source with every habit, and one gate that waits or counts, so that the tests of a game are one instance of the solver.
use gm_game::position::{Phase, Place};
use gm_solver::gate::Gate;
use gm_solver::source::{Counter, Source};
use std::sync::atomic::{AtomicUsize, Ordering};
use std::sync::{Mutex, Wait};

/// What a source returns when it is asked during a level, one result after another.
#[derive(Clone, Copy)]
pub enum Habit {
    /// Each number once, as the library's own source does.
    Once,
    /// Nothing.
    Silent,
    /// Always this number.
    Always(usize),
    /// Each number twice in a row.
    Twice,
    /// The odd numbers below that of the pieces, and then nothing.
    Odd,
    /// To each worker its own number, once.
    Own,
}

/// A source with a habit. It counts the levels that are begun, the pieces that it was given at their beginning, and its calls.
#[derive(Drop)]
pub struct TestSource {
    habit: Habit,
    counter: Counter,
    levels: AtomicUsize,
    told: AtomicUsize,
    asks: AtomicUsize,
    // The pieces of this level, the calls during it, and which of two workers asked.
    pieces: AtomicUsize,
    asked: AtomicUsize,
    asked_by: Mutex<[bool; 2]>,
    // Which of two workers asked at any level.
    started: Mutex<[bool; 2]>,
}

impl TestSource {
    /// Returns a source that hands out each piece once.
    pub fn counter() -> Self {
        TestSource::of(Habit::Once)
    }

    /// Returns a source of this habit, before its first level.
    pub fn of(habit: Habit) -> Self {
        TestSource {
            habit,
            counter: Counter::new(),
            levels: AtomicUsize::new(0),
            told: AtomicUsize::new(0),
            asks: AtomicUsize::new(0),
            pieces: AtomicUsize::new(0),
            asked: AtomicUsize::new(0),
            asked_by: Mutex::new([true; 2]),
            started: Mutex::new([false; 2]),
        }
    }

    /// Returns whether both of two workers have asked, so that both were started.
    pub fn served_both<R: Wait>(&self, rt: &R) -> bool {
        *self.started.lock(rt) == [true; 2]
    }

    /// Returns the numbers of the levels that were begun, of the pieces that it was given, and of its calls.
    pub fn asked(&self) -> (usize, usize, usize) {
        (
            self.levels.load(Ordering::SeqCst),
            self.told.load(Ordering::SeqCst),
            self.asks.load(Ordering::SeqCst),
        )
    }
}

impl Source for TestSource {
    fn begin<R: Wait>(&self, rt: &R, pieces: usize) {
        self.counter.begin(rt, pieces);
        self.levels.fetch_add(1, Ordering::SeqCst);
        self.told.fetch_add(pieces, Ordering::SeqCst);
        self.pieces.store(pieces, Ordering::SeqCst);
        self.asked.store(0, Ordering::SeqCst);
        *self.asked_by.lock(rt) = [false; 2];
    }

    fn next<R: Wait>(&self, rt: &R, worker: usize) -> Option<usize> {
        self.asks.fetch_add(1, Ordering::SeqCst);
        let _first = is_first(rt, &self.started, worker);
        let asked = self.asked.fetch_add(1, Ordering::SeqCst);
        match self.habit {
            Habit::Once => self.counter.next(rt, worker),
            Habit::Silent => None,
            Habit::Always(piece) => Some(piece),
            Habit::Twice => Some(asked / 2),
            Habit::Odd => {
                let piece = asked.saturating_mul(2).saturating_add(1);
                (piece < self.pieces.load(Ordering::SeqCst)).then_some(piece)
            }
            Habit::Own => is_first(rt, &self.asked_by, worker).then_some(worker),
        }
    }
}

// Marks one of two workers, and returns whether it was not marked before.
fn is_first<R: Wait>(rt: &R, marks: &Mutex<[bool; 2]>, worker: usize) -> bool {
    let mut marks = marks.lock(rt);
    if worker >= 2 || marks[worker] {
        return false;
    }
    marks[worker] = true;
    true
}

/// What a gate does.
#[derive(Clone, Copy)]
pub enum Kind {
    /// Nothing.
    Open,
    /// Holds each of two workers at its first delivery of this level of wins and losses, until the other has arrived there too.
    Meeting(u32),
    /// Takes and frees a mutex this many times before each delivery.
    Turnstile(u32),
    /// Lets a worker deliver while no other one does.
    Seat,
}

/// A gate of a kind. It counts its calls before and after deliveries, and the workers that gave up waiting after a hundred million turns. That takes seconds:
/// a busy system may not run the other thread sooner.
/// `EACH` is that of the trait.
#[derive(Drop)]
pub struct TestGate<const EACH: bool> {
    kind: Kind,
    before: AtomicUsize,
    after: AtomicUsize,
    gave_up: AtomicUsize,
    // The workers that have arrived; of a seat, whether it is taken.
    marks: Mutex<[bool; 2]>,
}

impl<const EACH: bool> TestGate<EACH> {
    /// Returns a gate that nothing has passed.
    pub fn of(kind: Kind) -> Self {
        TestGate {
            kind,
            before: AtomicUsize::new(0),
            after: AtomicUsize::new(0),
            gave_up: AtomicUsize::new(0),
            marks: Mutex::new([false; 2]),
        }
    }

    /// Returns how often it was called before deliveries and after them.
    pub fn passed(&self) -> (usize, usize) {
        (
            self.before.load(Ordering::SeqCst),
            self.after.load(Ordering::SeqCst),
        )
    }

    /// Returns how many workers gave up waiting.
    pub fn gave_up(&self) -> usize {
        self.gave_up.load(Ordering::SeqCst)
    }

    /// Returns whether both workers arrived.
    pub fn met<R: Wait>(&self, rt: &R) -> bool {
        *self.marks.lock(rt) == [true; 2]
    }

    // Returns whether a worker may go on: both have arrived, or the seat was free. Then it takes the seat.
    fn opens<R: Wait>(&self, rt: &R) -> bool {
        match self.kind {
            Kind::Seat => is_first(rt, &self.marks, 0),
            _ => self.met(rt),
        }
    }

    // Waits until a worker may go on.
    fn wait<R: Wait>(&self, rt: &R) {
        for _ in 0..100_000_000 {
            if self.opens(rt) {
                return;
            }
        }
        self.gave_up.fetch_add(1, Ordering::SeqCst);
    }
}

impl<const EACH: bool> Gate for TestGate<EACH> {
    const EACH: bool = EACH;

    fn before<R: Wait>(&self, rt: &R, worker: usize, place: Place) {
        self.before.fetch_add(1, Ordering::SeqCst);
        match self.kind {
            Kind::Open => {}
            Kind::Seat => self.wait(rt),
            Kind::Meeting(level) => {
                let is_here = place.phase == Phase::WinLose && place.level == level;
                if is_here && is_first(rt, &self.marks, worker) {
                    self.wait(rt);
                }
            }
            Kind::Turnstile(turns) => {
                for _ in 0..turns {
                    drop(self.marks.lock(rt));
                }
            }
        }
    }

    fn after<R: Wait>(&self, rt: &R, _worker: usize, _place: Place) {
        self.after.fetch_add(1, Ordering::SeqCst);
        if let Kind::Seat = self.kind {
            self.marks.lock(rt)[0] = false;
        }
    }
}
