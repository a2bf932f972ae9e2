//! Found positions in rising order.
ghost use Rattle.std.specs.Prelude.{◌≡◌, OnOk};
ghost use Rattle.gm_find.specs.declared.sought.Order.TheVariants.{Long, Hard};
ghost use Rattle.gm_find.specs.Sorting.{order_key, total_in as total_in_spec, IsRising};

use crate::found::Found;
use crate::sought::Order;
use crate::tries::Tries;
use std::alloc::AllocError;

/// Sorts found positions. Those that are equal keep their order.
pub(crate) fn put_in_order(found: &mut Vec<Found>, order: Order) -> Result<(), AllocError>
    ensures { OnOk result (IsRising order found.old.items found.new.items) }
{
    match order {
        Order::Long => found.sort_by_key(|x| long_key(*x)),
        Order::Hard => found.sort_by_key(|x| hard_key(*x)),
    }
}

// Returns the sort key of a found position for an order by remoteness.
fn long_key(x: Found) -> u32
    ensures { result ≡ order_key Long x }
{
    x.value.remoteness
}

// Returns the sort key of a found position for an order by the tries along the solution.
fn hard_key(x: Found) -> u128
    ensures { result ≡ order_key Hard x }
{
    (u128::from(total_in(x.tries)) << 32) + u128::from(x.value.remoteness)
}

// Returns the sum of the tries along a solution; 0 if they are not counted.
fn total_in(tries: Option<Tries>) -> u64
    ensures { result ≡ total_in_spec tries }
{
    match tries {
        Some(tries) => tries.total,
        None => 0,
    }
}
