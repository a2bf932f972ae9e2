//! A range of a tier.
ghost use Rattle.std.specs.Prelude.{◌≡◌, ◌≤◌, ◌+◌, ◌*◌, IfOk, IfErr, length};
ghost use Rattle.gm_game.specs.declared.limits.TheConstants.{MOVES, TIER_SIZE};
ghost use Rattle.gm_game.specs.Numbers.{AreThere};
ghost use Rattle.gm_table.specs.Tables.{AreHeld};
ghost use Rattle.gm_table.specs.Solving.{ArePart};
ghost use Rattle.gm_immediate.specs.OnePass.{IsDeliveryIn, IsStop};

use crate::position::{ChildLists, settle_position};
use crate::stop::Stop;
use gm_game::game::Game;
use gm_game::limits::TIER_SIZE;
use gm_game::position::Position;
use gm_table::cache::TableCache;
use gm_table::packed::Packed;
use gm_table::tables::Tables;
use std::alloc::Global;

/// Returns the records of the indexes of a tier from `lo` up to `hi`, and the number of deliveries into that range.
pub(crate) fn settle_range<G: Game>(
    alloc: Global,
    tables: &Tables<G>,
    tier: u64,
    lo: u64,
    hi: u64,
) -> Result<(Packed, u64), Stop>
    requires held { AreHeld G.rules tables.now tier }
    requires order { lo ≤ hi }
    requires within { hi ≤ TIER_SIZE }
    ensures long { IfOk result (λ part. lo + length part.0 ≡ hi) }
    ensures records { IfOk result (λ part. ArePart G.rules tier lo part.0) }
    ensures number { IfOk result (λ part. AreThere part.1 (IsDeliveryIn G.rules tier lo hi)) }
    ensures few { IfOk result (λ part. part.1 ≤ MOVES * length part.0) }
    ensures stop { IfErr result (IsStop G.rules tier) }
{
    let mut records = Packed::with_capacity(alloc, (hi - lo) as usize)?;
    let mut number = 0;
    let mut lists = ChildLists::new();
    let mut cache = TableCache::new(tables, tier);
    let mut next = lo;
    while let Some((index, end)) = G::first_results(tier, next, hi, &mut lists.results) {
        records.push_none((index - next) as usize)?;
        let (solved, more) = settle_position::<G>(
            &mut cache,
            &mut lists,
            Position { tier, index },
            end,
        )?;
        records.push(Some(solved))?;
        number += more;
        next = index + 1;
    }
    records.push_none((hi - next) as usize)?;
    Ok((records, number))
}
