//! Numbers of moves that masks mark.
ghost use Rattle.std.specs.Prelude.{◌≡◌, ◌+◌, ◌<◌, ◌++◌, [], length};
ghost use Rattle.gm_pieces.specs.inner.Marking.{numbers, marked, IsSplit};

/// Numbers that go up by the same step, `first`, `first + step`, and so on, of which a mask marks some: that at a place, if the mask has the place.
#[derive(Clone, Copy, Debug, PartialEq, Eq)]
pub struct MarkedRun {
    pub first: u32,
    pub step: u32,
    pub marks: u64,
}

/// The numbers that four runs mark.
#[derive(Clone, Copy, Debug, PartialEq, Eq)]
pub struct Marks {
    pub a: MarkedRun,
    pub b: MarkedRun,
    pub c: MarkedRun,
    pub d: MarkedRun,
}

impl MarkedRun {
    /// Returns a run that marks no number, in constant time.
    #[inline(always)]
    #[tactic(auto, using(crate::specs::laws::MarkFacts::no_numbers))]
    pub fn none() -> MarkedRun
        ensures { numbers result ≡ [] }
    {
        MarkedRun {
            first: 0,
            step: 1,
            marks: 0,
        }
    }

    /// Returns how many numbers are marked, in constant time.
    #[inline(always)]
    #[tactic(auto, using(crate::specs::laws::MarkFacts::ones_are_numbers))]
    pub fn count(self) -> u32
        ensures value { result ≡ length (numbers self) }
        ensures few { result < 65 }
    {
        self.marks.count_ones()
    }

    /// Returns the first of the marked numbers, and the run with the others; `None` if no number is marked. Takes constant time.
    #[inline(always)]
    #[tactic(auto, using(crate::specs::laws::MarkFacts::no_numbers, crate::specs::laws::MarkFacts::run_split))]
    pub fn split_first(self) -> Option<(u64, MarkedRun)>
        ensures { IsSplit numbers (numbers self) result }
    {
        if self.marks == 0 {
            return None;
        }
        let place = self.marks.trailing_zeros();
        let number = u64::from(self.first) + u64::from(self.step) * u64::from(place);
        let marks = self.marks & !(1 << place);
        Some((number, MarkedRun { marks, ..self }))
    }
}

impl Marks {
    /// Returns marks of no number, in constant time.
    #[inline(always)]
    pub fn none() -> Marks
        ensures { marked result ≡ [] }
    {
        Marks::two(MarkedRun::none(), MarkedRun::none())
    }

    /// Returns the marks of one run, in constant time.
    #[inline(always)]
    #[tactic(auto, using(crate::specs::laws::MarkFacts::one_marked))]
    pub fn one(run: MarkedRun) -> Marks
        ensures { marked result ≡ numbers run }
    {
        Marks::two(run, MarkedRun::none())
    }

    /// Returns the marks of two runs, in constant time.
    #[inline(always)]
    #[tactic(auto, using(crate::specs::laws::MarkFacts::two_marked))]
    pub fn two(low: MarkedRun, high: MarkedRun) -> Marks
        ensures { marked result ≡ numbers low ++ numbers high }
    {
        Marks {
            a: low,
            b: high,
            c: MarkedRun::none(),
            d: MarkedRun::none(),
        }
    }

    /// Returns how many numbers are marked, in constant time.
    #[inline(always)]
    #[tactic(auto, using(crate::specs::laws::MarkFacts::marked_long))]
    pub fn count(self) -> u32
        ensures { result ≡ length (marked self) }
    {
        self.a.count() + self.b.count() + self.c.count() + self.d.count()
    }

    /// Returns the first of the marked numbers, and marks of the others; `None` if no number is marked. Takes constant time.
    #[inline(always)]
    pub fn split_first(self) -> Option<(u64, Marks)>
        ensures { IsSplit marked (marked self) result }
    {
        if let Some((number, a)) = self.a.split_first() {
            return Some((number, Marks { a, ..self }));
        }
        if let Some((number, b)) = self.b.split_first() {
            return Some((number, Marks { b, ..self }));
        }
        if let Some((number, c)) = self.c.split_first() {
            return Some((number, Marks { c, ..self }));
        }
        match self.d.split_first() {
            Some((number, d)) => Some((number, Marks { d, ..self })),
            None => None,
        }
    }
}
