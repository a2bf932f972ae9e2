//! The work of a build.
ghost use Rattle.std.specs.Prelude.{◌≡◌};
ghost use Rattle.gm_build.specs.inner.Steps.{no_work, with_tier, Fits64};

use crate::tier::TierOutcome;

/// What was done with the tiers of a build, in numbers. Each tier is solved, reused or migrated.
#[derive(Clone, Copy, Debug, PartialEq, Eq)]
pub struct Work {
    /// The number of tiers that were solved.
    pub solved: usize,
    /// The number of tiers that were reused: the store had the text of their true table.
    pub reused: usize,
    /// The number of tiers that were migrated: the store had the text of their true table in version 1, and has the new one.
    pub migrated: usize,
    /// The number of deliveries of the tiers that were solved. It does not depend on the workers.
    pub deliveries: u64,
    /// The number of deliveries that the coordinator made itself.
    pub by_hand: u64,
}

impl Work {
    /// Returns the work on no tiers.
    pub(crate) fn none() -> Self
        ensures { result ≡ no_work }
    {
        Work {
            solved: 0,
            reused: 0,
            migrated: 0,
            deliveries: 0,
            by_hand: 0,
        }
    }

    /// Returns the work with that on one more tier.
    pub(crate) fn with_tier(self, outcome: TierOutcome) -> Self
        requires { Fits64 (with_tier self outcome) }
        ensures { result ≡ with_tier self outcome }
    {
        match outcome {
            TierOutcome::Reused => Work {
                reused: self.reused + 1,
                ..self
            },
            TierOutcome::Migrated => Work {
                migrated: self.migrated + 1,
                ..self
            },
            TierOutcome::Solved(report) => Work {
                solved: self.solved + 1,
                deliveries: self.deliveries + report.deliveries,
                by_hand: self.by_hand + report.by_hand,
                ..self
            },
        }
    }
}
