//! One position of a tier.
ghost use Rattle.std.specs.Prelude.{◌≡◌, ◌≤◌, ◌+◌, None, Some, IfOk, IfErr};
ghost use Rattle.gm_game.specs.declared.limits.TheConstants.{MOVES, REMOTENESS};
ghost use Rattle.gm_game.specs.Numbers.{AreThere};
ghost use Rattle.gm_game.specs.Children.{AreResults};
ghost use Rattle.gm_table.specs.Tables.{AreHeld};
ghost use Rattle.gm_game.specs.Records.{IsRecord};
ghost use Rattle.gm_game.specs.Rules.{IsCanonical, IsInner};
ghost use Rattle.gm_game.specs.Values.{IsTrueValue};
ghost use Rattle.gm_immediate.specs.inner.Gathered.{AreOnce};
ghost use Rattle.gm_immediate.specs.OnePass.{IsDeliveryIn, IsStop};

use crate::once::list_once;
use crate::stop::Stop;
use arrayvec::ArrayVec;
use gm_game::evaluate::of_end;
use gm_game::game::Game;
use gm_game::limits::MOVES;
use gm_game::position::{End, Position, Solved};
use gm_table::cache::TableCache;

/// ChildLists that serve many positions: of one its results, in any order and as often as moves lead to them, and each of them once.
#[derive(Drop)]
pub(crate) struct ChildLists {
    pub(crate) results: ArrayVec<Position, MOVES>,
    children: ArrayVec<Position, MOVES>,
}

impl ChildLists {
    /// Returns empty lists.
    pub(crate) fn new() -> Self {
        ChildLists {
            results: ArrayVec::new(),
            children: ArrayVec::new(),
        }
    }

    // Writes each of the results that the lists hold once, in any order: the canonical children of p.
    fn list_children<G: Game>(&mut self, p: Position)
        requires { AreResults G.rules p self.old.results.items }
        ensures { AreOnce G.rules p self.new.children.items }
    {
        let ChildLists { results, children } = self;
        list_once(results.as_slice(), children);
    }
}

/// Returns the record of a canonical legal position, and how many of its canonical children are no draws. The game has ended there, or else goes on to the
/// results that the lists hold. Children are written over the other contents of the lists.
pub(crate) fn settle_position<'a, G: Game>(
    cache: &mut TableCache<'a, G>,
    lists: &mut ChildLists,
    p: Position,
    end: Option<End>,
) -> Result<(Solved, u64), Stop>
    requires canonical { IsCanonical G.rules p }
    requires end { G.rules.primitive p ≡ end }
    requires results { end ≡ None → AreResults G.rules p lists.old.results.items }
    requires held { AreHeld G.rules cache.old.tables p.tier }
    requires own { cache.old.tier ≡ p.tier }
    ensures record { IfOk result (λ found. IsRecord G.rules REMOTENESS (IsTrueValue G.rules) p (Some found.0)) }
    ensures number { IfOk result (λ found. AreThere found.1 (IsDeliveryIn G.rules p.tier p.index (p.index + 1))) }
    ensures few { IfOk result (λ found. found.1 ≤ MOVES) }
    ensures stop { IfErr result (IsStop G.rules p.tier) }
    ensures same { cache.new ≡ cache.old }
{
    match end {
        Some(end) => Ok((of_end(end), 0)),
        None => settle_inner::<G>(cache, lists, p),
    }
}

// Returns the value of a position at which the game goes on, and how many of its canonical children are no draws.
fn settle_inner<'a, G: Game>(
    cache: &mut TableCache<'a, G>,
    lists: &mut ChildLists,
    p: Position,
) -> Result<(Solved, u64), Stop>
    requires inner { IsInner G.rules p }
    requires results { AreResults G.rules p lists.old.results.items }
    requires held { AreHeld G.rules cache.old.tables p.tier }
    requires own { cache.old.tier ≡ p.tier }
    ensures value { IfOk result (λ found. IsTrueValue G.rules p found.0) }
    ensures near { IfOk result (λ found. found.0.remoteness ≤ REMOTENESS) }
    ensures number { IfOk result (λ found. AreThere found.1 (IsDeliveryIn G.rules p.tier p.index (p.index + 1))) }
    ensures few { IfOk result (λ found. found.1 ≤ MOVES) }
    ensures stop { IfErr result (IsStop G.rules p.tier) }
    ensures same { cache.new ≡ cache.old }
{
    lists.list_children::<G>(p);
    let Some((seen, number)) = cache.sum(lists.children.as_slice()) else {
        return Err(Stop::Stays);
    };
    let Some(solved) = seen.value() else {
        return Err(Stop::TooFar);
    };
    Ok((solved, number))
}
