//! Tables of steps and of patterns, for constants: the rows are those of specs/Steps.antt by their cells, and those of specs/Patterns.antt by the masks of theirs.

/// Writes an array of rows. Rows of one kind are listed after its name: `table![slide 3 0, 4 1; capture 4 0]`, `table![theirs_on 0b11, 0b110]`.
#[macro_export]
macro_rules! table {
    ($($kind:ident $($($word:literal)+),+);+) => {
        [$($($crate::row!($kind $($word)+)),+),+]
    };
}

/// Writes a row of a table.
#[macro_export]
macro_rules! row {
    (empty_on $cells:expr) => {
        $crate::row!(pattern 0, $cells, $cells)
    };
    (mine_on $cells:expr) => {
        $crate::row!(pattern $cells, 0, $cells)
    };
    (theirs_on $cells:expr) => {
        $crate::row!(pattern $cells, $cells, 0)
    };
    (taken_on $cells:expr) => {
        $crate::row!(pattern $cells, 0, 0)
    };
    (not_mine_on $cells:expr) => {
        $crate::row!(pattern 0, $cells, 0)
    };
    (not_theirs_on $cells:expr) => {
        $crate::row!(pattern 0, 0, $cells)
    };
    (masks $not_empty:literal $not_mine:literal $not_theirs:literal) => {
        $crate::row!(pattern $not_empty, $not_mine, $not_theirs)
    };
    (pattern $not_empty:expr, $not_mine:expr, $not_theirs:expr) => {
        $crate::pattern::Pattern {
            not_empty: $not_empty,
            not_mine: $not_mine,
            not_theirs: $not_theirs,
        }
    };
    (step $from:expr, $to:expr, $before:expr, $after:expr) => {
        $crate::step::Step {
            from: $from,
            to: $to,
            before: $before,
            after: $after,
        }
    };
    (moved $a:expr, $c:expr, $not_empty:expr, $not_mine:expr, $not_theirs:expr) => {
        $crate::row!(step $a, $c,
            $crate::row!(pattern $not_empty, $not_mine, $not_theirs),
            $crate::row!(pattern 1 << $c, 1 << $a, 1 << $a | 1 << $c))
    };
    (place $k:literal) => {
        $crate::row!(cover $k $k)
    };
    (stack $k:literal $below:literal) => {
        $crate::row!(step $k, $k,
            $crate::row!(pattern 1 << $below, 1 << $k, 1 << $k),
            $crate::row!(mine_on 1 << $k))
    };
    (cover $a:literal $c:literal) => {
        $crate::row!(step $a, $c,
            $crate::row!(empty_on 1 << $a | 1 << $c),
            $crate::row!(mine_on 1 << $a | 1 << $c))
    };
    (take $a:literal $c:literal) => {
        $crate::row!(step $a, $c,
            $crate::row!(mine_on 1 << $a | 1 << $c),
            $crate::row!(empty_on 1 << $a | 1 << $c))
    };
    (slide $a:literal $c:literal) => {
        $crate::row!(moved $a, $c, 1 << $a, 1 << $c, 1 << $a | 1 << $c)
    };
    (slide_if $a:literal $c:literal $not_empty:literal $not_mine:literal $not_theirs:literal) => {
        $crate::row!(moved $a, $c, $not_empty | 1 << $a, $not_mine | 1 << $c, $not_theirs | (1 << $a | 1 << $c))
    };
    (capture $a:literal $c:literal) => {
        $crate::row!(moved $a, $c, 1 << $a | 1 << $c, 1 << $c, 1 << $a)
    };
    (jump $a:literal $m:literal $c:literal) => {
        $crate::row!(step $a, $c,
            $crate::row!(pattern 1 << $a | 1 << $m, 1 << $m | 1 << $c, 1 << $a | 1 << $c),
            $crate::row!(pattern 1 << $c, 1 << $a | 1 << $m, 1 << $a | 1 << $m | 1 << $c))
    };
    (hop $a:literal $m:literal $c:literal) => {
        $crate::row!(moved $a, $c, 1 << $a | 1 << $m, 1 << $m | 1 << $c, 1 << $a | 1 << $c)
    };
    (vault $a:literal $m:literal $c:literal) => {
        $crate::row!(moved $a, $c, 1 << $a | 1 << $m | 1 << $c, 1 << $c, 1 << $a | 1 << $m)
    };
}
