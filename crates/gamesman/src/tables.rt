//! The tables of a game, in a folder or in memory.
ghost use Rattle.std.specs.Prelude.{◌≡◌, ◌<◌, ℕ, IfOk, IfErr, IfSome};
ghost use Rattle.std.specs.List.{Contains};
ghost use Rattle.gm_game.specs.Rules.{Rules};
ghost use Rattle.gm_tiers.specs.Orders.{IsOrderFrom};
ghost use Rattle.gm_build.specs.Work.{HoldsExactly, IsSomeWork};
ghost use Rattle.gamesman.specs.Shelves.{failed_in};
ghost use Rattle.gamesman.specs.Refusals.{IsUnbuilt, reason_of};

use crate::fault::Fault;
use crate::host::Host;
use crate::shelf::Shelf;
use crate::teller::Teller;
use gm_backward::gate::NoGate;
use gm_backward::plan::Plan;
use gm_backward::source::Counter;
use gm_build::build::{Built, build_from};
use gm_build::build_error::BuildError;
use gm_command::requests::{GameRequest, SheetRequest, TableLocation, Telling};
use gm_game::game::Game;
use gm_game::limits::NAME;
use gm_tiers::order::TierOrder;
use std::alloc::AllocError;
use std::fs::Files;
use std::io::Write;

/// The options of a build: the place of the tables of a game, how they are made, and how that is reported.
#[derive(Clone, Copy)]
pub struct BuildOptions<'a> {
    pub tables: TableLocation<'a>,
    pub plan: Plan,
    /// How progress is reported. It is `Terminal` only if standard error is a terminal.
    pub progress: Telling,
}

// Returns how progress is reported. The line that is overwritten again and again is only for a terminal.
fn progress_at(terminal: bool, requested: Telling) -> Telling {
    match requested {
        Telling::Terminal if !terminal => Telling::Quiet,
        progress => progress,
    }
}

impl<'a> BuildOptions<'a> {
    /// Returns the options of a request, given whether standard error is a terminal.
    pub fn of(request: GameRequest<'a>, terminal: bool) -> Self {
        BuildOptions {
            tables: request.tables,
            plan: request.plan,
            progress: progress_at(terminal, request.progress),
        }
    }

    /// Returns the options of a request for a sheet, given whether standard error is a terminal. The tables are in memory, since a
    /// folder has those of one game.
    pub fn of_sheet(request: SheetRequest<'a>, terminal: bool) -> Self {
        BuildOptions {
            tables: TableLocation::Memory,
            plan: request.plan,
            progress: progress_at(terminal, request.progress),
        }
    }

    /// Builds the tiers that one tier reaches: all tiers on which its values depend. Progress is reported on standard error.
    pub fn build<G: Game + Send + Sync, R: Host, E: Write + Send>(
        self,
        rt: &R,
        first: u64,
        errors: &mut E,
    ) -> Result<Built<G>, Fault>
        ensures order { IfOk result (λ built. IsOrderFrom G.rules first built.order) }
        ensures held { IfOk result (λ built. HoldsExactly built.tables built.order) }
        ensures work { IfOk result (λ built. IsSomeWork G.rules built.order built.work) }
        ensures unbuilt { IfErr result (IsUnbuilt G.rules first) }
    {
        let BuildOptions {
            tables,
            plan,
            progress,
        } = self;
        let alloc = rt.alloc();
        let order = match TierOrder::from_tier::<G>(alloc, first) {
            Ok(order) => order,
            Err(error) => return Err(Fault::from(error)),
        };
        let mut shelf = match shelf_for(rt, tables, order.tiers(), &G::name()) {
            Ok(shelf) => shelf,
            Err(fault) => return Err(fault),
        };
        let teller = match Teller::new::<G>(alloc, rt, errors, progress, order.tiers()) {
            Ok(teller) => teller,
            Err(error) => return Err(Fault::OutOfMemory(error)),
        };
        let built = build_from(
            rt,
            alloc,
            first,
            &mut shelf,
            plan,
            &NoGate,
            &Counter::new(),
            &teller,
        );
        teller.clear();
        drop(teller);
        let met_another = shelf.met_another();
        drop(shelf);
        drop(order);
        match built {
            Ok(built) => Ok(built),
            Err(error) => Err(why_not(error, met_another)),
        }
    }
}

// Makes the store at this place for these tiers. No call of it has failed, and no file of theirs is an intact one of another game.
fn shelf_for<R: Files + AllocGlobal>(
    rt: &R,
    tables: TableLocation<'_>,
    tiers: &[u64],
    name: &[u8; NAME],
) -> Result<Shelf, Fault>
    ensures failed { IfOk result (λ s. failed_in s ≡ 0) }
    ensures refused { (r : Rules) (first : ℕ) → IsOrderFrom r first tiers.now → IfErr result (IsUnbuilt r first) }
{
    let mut shelf = Shelf::at(rt.alloc(), tables)?;
    match first_anothers(rt, &mut shelf, tiers, name)? {
        Some(tier) => Err(Fault::AnotherGames { tier }),
        None => Ok(shelf),
    }
}

// Returns the first of these tiers that can't be written because its file is an intact one of another game.
fn first_anothers<R: Files>(
    rt: &R,
    shelf: &mut Shelf,
    tiers: &[u64],
    name: &[u8; NAME],
) -> Result<Option<u64>, AllocError>
    ensures failed { failed_in shelf.new ≡ failed_in shelf.old }
    ensures among { IfOk result (λ tier. IfSome tier (Contains tiers.now)) }
{
    for tier in tiers {
        if shelf.is_anothers(rt, *tier, name)? {
            return Ok(Some(*tier));
        }
    }
    Ok(None)
}

// Returns the reason why a game is not built over a folder. If the folder has another game's file, that is the reason.
fn why_not(error: BuildError, met_another: bool) -> Fault
    ensures { result ≡ reason_of error met_another }
{
    match error {
        BuildError::StoreFailed { tier } if met_another => Fault::AnotherGames { tier },
        error => Fault::NotBuilt(error),
    }
}
