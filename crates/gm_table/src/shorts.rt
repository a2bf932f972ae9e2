//! Records in their short forms of a byte each, and what those of children say. A processor folds many bytes at once.
ghost use Rattle.std.specs.Prelude.{◌≡◌, ◌≤◌, ◌<◌, ◌+◌, map, length, cond};
ghost use Rattle.gm_game.specs.declared.limits.TheConstants.{MOVES};
ghost use Rattle.std.specs.List.{filter};
ghost use Rattle.gm_game.specs.Records.{lost_in, won_in, tied_in, lesser, greater};
ghost use Rattle.gm_table.specs.inner.Shorts.{IsSummary, record_of_short, is_decided, marked_short};

use crate::number::SHORT_STEP;
use crate::summary::Summary;

/// One more than the greatest remoteness of a short form. As a mark it stands for none.
const NONE: u8 = SHORT_STEP as u8;

// A fold over short forms: the least remoteness of a loss, the greatest of a win if all are wins, and the least of a tie, each of them `NONE` if there is no such
// record; and the number of records that are not draws.
#[derive(Clone, Copy)]
struct ShortSum {
    lost: u8,
    won: u8,
    tied: u8,
    decided: u8,
    ghost lost_fits: { lost ≤ 32 },
    ghost won_fits: { won ≤ 32 },
    ghost tied_fits: { tied ≤ 32 },
}

impl ShortSum {
    // Returns the same with one more short form.
    fn with(self, short: u8) -> ShortSum
        requires { self.decided < 255 }
        ensures lost { marked_short result.lost ≡ lesser (marked_short self.lost) (lost_in (record_of_short short)) }
        ensures won { marked_short result.won ≡ greater (marked_short self.won) (won_in (record_of_short short)) }
        ensures tied { marked_short result.tied ≡ lesser (marked_short self.tied) (tied_in (record_of_short short)) }
        ensures decided { result.decided ≡ self.decided + cond (is_decided (record_of_short short)) 1 0 }
    {
        let code = short / NONE;
        let remoteness = short % NONE;
        ShortSum {
            lost: self.lost.min(if code == 1 { remoteness } else { NONE }),
            won: self.won.max(if code >= 4 { remoteness } else { NONE }),
            tied: self.tied.min(if code == 3 { remoteness } else { NONE }),
            decided: self.decided + u8::from(code != 0 && code != 2),
        }
    }
}

// Returns the remoteness of a mark.
fn marked(mark: u8) -> Option<u32>
    requires { mark ≤ 32 }
    ensures { result ≡ marked_short mark }
{
    if mark == NONE {
        None
    } else {
        Some(u32::from(mark))
    }
}

/// Returns the summary of children whose records have these short forms, and how many of the records are not draws.
pub(crate) fn sum_of_shorts(shorts: &[u8]) -> (Summary, u64)
    requires { length shorts.now ≤ MOVES }
    ensures summary { IsSummary (map record_of_short shorts.now) result.0 }
    ensures decided { result.1 ≡ length (filter is_decided (map record_of_short shorts.now)) }
{
    let mut sum = ShortSum {
        lost: NONE,
        won: 0,
        tied: NONE,
        decided: 0,
    };
    for short in shorts {
        sum = sum.with(*short);
    }
    let summary = Summary {
        lost: marked(sum.lost),
        won: marked(sum.won),
        tied: marked(sum.tied),
    };
    (summary, u64::from(sum.decided))
}
