//! What is done for the next tier while the text of a tier is made.
ghost use Rattle.std.specs.Prelude.{◌≡◌, ◌≤◌, IsTrue, IfOk, IfSome};
ghost use Rattle.gm_table.specs.Tables.{AreHeld};
ghost use Rattle.gm_table.specs.Solving.{AreDeliveries};
ghost use Rattle.gm_build.specs.inner.Steps.{IsAhead};
ghost use Rattle.gm_build.specs.TrueTexts.{IsTrueText};

use gm_backward::plan::Plan;
use gm_backward::report::Report;
use gm_game::game::Game;
use gm_game::limits::TIER_SIZE;
use gm_table::table::Table;
use gm_table::tables::Tables;
use gm_tierdb::encode::encode_in;
use std::alloc::AllocError;

// The text of a tier of at most this many indexes is made by the calling thread: to start another takes longer.
const FEW: u64 = 65_536;

/// What was done for a tier before its turn.
#[derive(Drop)]
pub(crate) enum Ahead<G: Game> {
    /// Nothing.
    Nothing,
    /// The observer has its `read` call, and the tier is not solved, since that failed.
    Read,
    /// The observer has its `read` call, and the tier is solved: its table and the report.
    Done(Table<G>, Report),
}

impl<G: Game> Ahead<G> {
    /// Returns whether nothing was done.
    pub(crate) fn is_nothing(&self) -> bool {
        matches!(self, Ahead::Nothing)
    }
}

/// Returns the table and the report of a tier, if that tier was solved before its turn.
pub(crate) fn solved_of<G: Game>(done: Ahead<G>, tier: u64) -> Option<(Table<G>, Report)>
    requires done { IsAhead G.rules done }
    ensures tier { IfSome result (λ solved. solved.0.tier ≡ tier) }
    ensures deliveries { IfSome result (λ solved. AreDeliveries G.rules tier solved.1.deliveries) }
    ensures by_hand { IfSome result (λ solved. solved.1.by_hand ≤ solved.1.deliveries) }
{
    match done {
        Ahead::Nothing | Ahead::Read => None,
        Ahead::Done(table, report) => {
            if table.tier() == tier {
                Some((table, report))
            } else {
                None
            }
        }
    }
}

/// Returns whether the next tier is solved while the text of a table is made: the text is long, the tier can be solved, and the plan has another worker.
pub(crate) fn is_ahead<G: Game>(table: &Table<G>, next: u64, tables: &Tables<G>, plan: Plan) -> bool
    ensures held { IsTrue result → AreHeld G.rules tables.now next }
    ensures small { IsTrue result → G.rules.tier_size next ≤ TIER_SIZE }
{
    plan.workers() > 1
        && table.size() > FEW
        && G::tier_size(next) <= TIER_SIZE
        && tables.has_children(next)
}

/// Returns the text of a table, in a list whose bytes it takes the place of.
pub(crate) fn text_in<G: Game>(file: Vec<u8>, table: &Table<G>) -> Result<Vec<u8>, AllocError>
    ensures { IfOk result (λ text. IsTrueText G.rules table.now.tier text.items) }
{
    let _tier = table.tier();
    encode_in(file, table)
}
