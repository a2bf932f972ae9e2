//! The build of a game.
ghost use Rattle.std.specs.Prelude.{◌≡◌, ◌+◌, ◌<◌, IsTrue, IfOk, IfErr};
ghost use Rattle.gm_table.specs.Tables.{AreTables};
ghost use Rattle.gm_tiers.specs.Orders.{IsOrderFrom, IsTierOrder};
ghost use Rattle.gm_build.specs.TrueTexts.{HasText, HasOldText, HaveTexts, KeepsOthers};
ghost use Rattle.gm_build.specs.Work.{IsWorkOn, IsSomeWork, HoldsExactly};
ghost use Rattle.gm_build.specs.Outcomes.{failures_in, IsBuildError, IsStopped};

use crate::ahead::Ahead;
use crate::build_error::BuildError;
use crate::tier::Builder;
use crate::work::Work;
use gm_backward::context::SolveContext;
use gm_backward::gate::Gate;
use gm_backward::plan::Plan;
use gm_backward::source::Source;
use gm_game::game::{Game, laws};
use gm_immediate::observer::{NoObserver, Observer};
use gm_table::tables::Tables;
use gm_tierdb::store::Store;
use gm_tiers::order::TierOrder;
use std::alloc::Global;
use std::fs::Files;
use std::sync::Wait;
use std::thread::Threads;

/// A game that is built, and what it took.
pub struct Built<G: Game> {
    /// The true table of each tier of the order.
    pub tables: Tables<G>,
    /// The tiers that are built, child tiers first.
    pub order: TierOrder,
    /// The work on these tiers.
    pub work: Work,
}

// Dropped in one call, so that the prover tracks one value instead of every field.
impl<G: Game> Drop for Built<G> {
    fn drop(self) {
        let Built {
            tables: _,
            order: _,
            work: _,
        } = self;
    }
}

/// Builds a game: the true table of each tier that it reaches, child tiers first. The order of tiers is made before the first read. Then each tier is read
/// once: a text that `decode` and `check` accept is reused and not written; a text of version 1 that `decode_v1` and `check` accept is migrated, by one write
/// of the tier's text; otherwise the tier is solved, and its text is written once. No text is made for a store that takes none. By `Plan::new` workers solve
/// every tier, with the gate round each delivery and the source asked for each piece; by `Plan::fastest` they solve only tiers in which a move stays. While the
/// text of a large tier that was solved is made, the next tier is solved ahead if there are several workers; its table is dropped if its entry is reused or
/// migrated.
///
/// Neither the tables nor the texts nor the number of deliveries depend on the plan, the gate or the source. Of a store that promises neither its map nor its
/// reads, such as a folder, nothing is promised about its texts, but the tables are true all the same. The store's count of failures rises exactly if the result is
/// `StoreFailed`.
pub fn build<G: Game + Send + Sync, R: Threads + Wait + Files + Sync, S: Store, T: Gate, P: Source>(
    rt: &R,
    alloc: Global,
    store: &mut S,
    plan: Plan,
    gate: &T,
    source: &P,
) -> Result<Built<G>, BuildError>
    requires { S.failed store.old < u64.MAX }

    // What is built: the tiers, their true tables, and what was done with them.
    ensures order { IfOk result (λ built. IsTierOrder G.rules built.order) }
    ensures held { IfOk result (λ built. HoldsExactly built.tables built.order) }
    ensures tables { IfOk result (λ built. AreTables G.rules built.tables) }
    ensures some_work { IfOk result (λ built. IsSomeWork G.rules built.order built.work) }

    // A store that keeps its map then has the texts of their tables. One whose reads are promised has no other change, and the tiers that were reused or
    // migrated are those whose text it had before.
    ensures texts { IsTrue S.KEEPS → IfOk result (λ built. HaveTexts G.rules (S.texts store.new) built.order) }
    ensures others { IsTrue S.READS → IfOk result (λ built. KeepsOthers built.order (S.texts store.old) (S.texts store.new)) }
    ensures work { IsTrue S.READS → IfOk result (λ built. IsWorkOn G.rules built.order
        (HasText G.rules (S.texts store.old)) (HasOldText G.rules (S.texts store.old))
        built.work) }

    // Why the game is not built, and what the store has then.
    ensures error { IfErr result (IsBuildError G.rules G.rules.initial.tier) }
    ensures stopped { IsTrue S.KEEPS → IfErr result (IsStopped G.rules G.rules.initial.tier (S.texts store.old) (S.texts store.new)) }
    ensures count { S.failed store.new ≡ S.failed store.old + failures_in result }
{
    let first = G::initial().tier;
    build_from(rt, alloc, first, store, plan, gate, source, &NoObserver)
}

/// Builds the tiers that one tier reaches, itself included, as `build` builds those that the initial tier reaches: the tiers on which the values of that tier
/// rest. No other entry of the store is read or written. The observer is called as the build goes on, and nothing depends on what it does.
pub fn build_from<
    G: Game + Send + Sync,
    R: Threads + Wait + Files + Sync,
    S: Store,
    T: Gate,
    P: Source,
    O: Observer,
>(
    rt: &R,
    alloc: Global,
    first: u64,
    store: &mut S,
    plan: Plan,
    gate: &T,
    source: &P,
    observer: &O,
) -> Result<Built<G>, BuildError>
    requires { S.failed store.old < u64.MAX }
    ensures order { IfOk result (λ built. IsOrderFrom G.rules first built.order) }
    ensures held { IfOk result (λ built. HoldsExactly built.tables built.order) }
    ensures tables { IfOk result (λ built. AreTables G.rules built.tables) }
    ensures some_work { IfOk result (λ built. IsSomeWork G.rules built.order built.work) }
    ensures texts { IsTrue S.KEEPS → IfOk result (λ built. HaveTexts G.rules (S.texts store.new) built.order) }
    ensures others { IsTrue S.READS → IfOk result (λ built. KeepsOthers built.order (S.texts store.old) (S.texts store.new)) }
    ensures work { IsTrue S.READS → IfOk result (λ built. IsWorkOn G.rules built.order
        (HasText G.rules (S.texts store.old)) (HasOldText G.rules (S.texts store.old))
        built.work) }
    ensures error { IfErr result (IsBuildError G.rules first) }
    ensures stopped { IsTrue S.KEEPS → IfErr result (IsStopped G.rules first (S.texts store.old) (S.texts store.new)) }
    ensures count { S.failed store.new ≡ S.failed store.old + failures_in result }
{
    let order = match TierOrder::from_tier::<G>(alloc, first) {
        Ok(order) => order,
        Err(error) => return Err(BuildError::from(error)),
    };
    observer.begin(rt, order.tiers().len());
    let mut tables = Tables::new(alloc);
    let mut work = Work::none();
    let builder = Builder {
        context: SolveContext {
            rt,
            alloc,
            plan,
            gate,
            source,
            observer,
        },
    };
    let mut later = order.tiers().iter().skip(1);
    let mut ahead = Ahead::Nothing;
    // By the laws of the game the sum of the deliveries fits.
    laws::<G>();
    for tier in order.tiers() {
        let next = later.next().copied();
        match builder.build_tier(*tier, next, &mut ahead, &mut tables, store) {
            Ok(outcome) => work = work.with_tier(outcome),
            Err(error) => return Err(error),
        }
    }
    // For the proof: the tables that are held are true.
    let _held = tables.has(first);
    Ok(Built {
        tables,
        order,
        work,
    })
}
