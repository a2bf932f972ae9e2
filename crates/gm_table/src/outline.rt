//! What records are found to have by going over them.
ghost use Rattle.std.specs.Prelude.{◌≡◌, ◌↔◌, ◌≤◌, length, None, IsTrue, IsSome, IfSome};
ghost use Rattle.gm_table.specs.inner.Outlines.{IsOutlineOf};
ghost use Rattle.gm_table.specs.inner.Runs.{AreRunsOf};

use crate::levels::greatest_levels;
use crate::packed::Packed;
use crate::runs::Runs;
use gm_game::limits::TIER_SIZE;

/// Runs of so few records are not laid out ahead of a check, so that `Tables::insert` reports memory that is refused for them.
const FEW: usize = 65_536;

/// Up to this level runs are laid out ahead of a check, since each level takes memory for itself, even if records that are not true name it.
const NEAR: u32 = 1024;

/// The greatest level of the records of each phase, and the indexes by place, if they are laid out.
#[derive(Drop)]
pub(crate) struct Outline {
    pub(crate) greatest_win_lose: Option<u32>,
    pub(crate) greatest_tie: Option<u32>,
    pub(crate) runs: Option<Runs>,
}

impl Outline {
    /// Returns the outline of these records, without runs. It takes no memory.
    pub(crate) fn of(records: &Packed) -> Outline
        ensures outline { IsOutlineOf records.now result }
        ensures none { result.runs ≡ None }
    {
        let (greatest_win_lose, greatest_tie) = greatest_levels(records);
        Outline {
            greatest_win_lose,
            greatest_tie,
            runs: None,
        }
    }

    /// Returns the outline of these records, with runs if they are many, but not more than a tier may have, their levels are near, and there is memory for them.
    pub(crate) fn with_runs(records: &Packed) -> Outline
        ensures outline { IsOutlineOf records.now result }
        ensures few { length records.now ≤ FEW → result.runs ≡ None }
        ensures near { IsSome result.runs → IfSome result.greatest_win_lose (λ n. n ≤ NEAR) × IfSome result.greatest_tie (λ n. n ≤ NEAR) }
    {
        let Outline {
            greatest_win_lose,
            greatest_tie,
            runs: _,
        } = Outline::of(records);
        let runs = if is_near(greatest_win_lose) && is_near(greatest_tie) {
            runs_of(records)
        } else {
            None
        };
        Outline {
            greatest_win_lose,
            greatest_tie,
            runs,
        }
    }
}

// Returns whether runs may be laid out up to this level, if there is one.
fn is_near(level: Option<u32>) -> bool
    ensures { IsTrue result ↔ IfSome level (λ n. n ≤ NEAR) }
{
    match level {
        Some(level) => level <= NEAR,
        None => true,
    }
}

// Returns the runs of many records, but not of more than a tier may have, if there is memory for them.
fn runs_of(records: &Packed) -> Option<Runs>
    ensures few { length records.now ≤ FEW → result ≡ None }
    ensures runs { IfSome result (AreRunsOf records.now) }
{
    if records.len() <= FEW || records.len() as u64 > TIER_SIZE {
        return None;
    }
    Runs::of(records.allocator(), records).ok()
}
