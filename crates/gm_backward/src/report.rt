//! What a solved tier cost.
ghost use Rattle.std.specs.Prelude.{◌≡◌};

/// The cost of a solved tier.
#[derive(Clone, Copy, Debug, PartialEq, Eq)]
pub struct Report {
    /// The number of deliveries. It depends on the tier only.
    pub deliveries: u64,
    /// The number of deliveries that the coordinator made itself.
    pub by_hand: u64,
}

impl Report {
    /// Returns the report of a tier that no worker solved.
    pub(crate) fn of_one_pass(deliveries: u64) -> Self
        ensures deliveries { result.deliveries ≡ deliveries }
        ensures by_hand { result.by_hand ≡ 0 }
    {
        Report {
            deliveries,
            by_hand: 0,
        }
    }
}
