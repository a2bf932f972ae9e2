//! Numbers of moves to try.
ghost use Rattle.std.specs.Prelude.{◌≡◌, ℕ, Bool, ◌+◌, ◌*◌, ◌<◌, ◌^◌};
ghost use Rattle.gm_pieces.specs.inner.Tried.{one as one_of, run_at, count_of, number_at, AreCandidates};

/// Numbers that go up by the same step: `first`, `first + step`, and so on, `count` of them.
#[derive(Clone, Copy, Debug, PartialEq, Eq)]
pub struct Run {
    pub first: u32,
    pub step: u32,
    pub count: u32,
}

/// The numbers of moves that are tried for a board: those of one run, and then those of another.
#[derive(Clone, Copy, Debug, PartialEq, Eq)]
pub struct Candidates {
    pub low: Run,
    pub high: Run,
}

impl Run {
    /// Returns the number at a place.
    #[inline(always)]
    fn number(self, place: u32) -> u32
        requires { run_at self place < 2 ^ 32 }
        ensures { result ≡ run_at self place }
    {
        self.first + self.step * place
    }
}

impl Candidates {
    /// Returns the numbers of one run.
    #[inline(always)]
    pub fn one(run: Run) -> Candidates
        ensures { result ≡ one_of run }
    {
        Candidates {
            low: run,
            high: Run {
                first: 0,
                step: 0,
                count: 0,
            },
        }
    }

    /// Returns all numbers below this one.
    #[inline(always)]
    pub fn below(bound: u32) -> Candidates
        ensures { (p : ℕ → Bool) → AreCandidates p bound result }
    {
        Candidates::one(Run {
            first: 0,
            step: 1,
            count: bound,
        })
    }

    /// Returns how many numbers there are.
    #[inline(always)]
    pub fn count(self) -> u32
        requires { count_of self < 2 ^ 32 }
        ensures { result ≡ count_of self }
    {
        self.low.count + self.high.count
    }

    /// Returns the number at a place, from 0.
    #[inline(always)]
    pub fn number(self, place: u32) -> u32
        requires { number_at self place < 2 ^ 32 }
        ensures { result ≡ number_at self place }
    {
        if place < self.low.count {
            self.low.number(place)
        } else {
            self.high.number(place - self.low.count)
        }
    }
}
