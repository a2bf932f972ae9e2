//! Each path of a public item of the solver and of builds on which callers rely, named once: this crate does not compile without one
//! of them.

pub use gm_build::build::{Built, build, build_from};
pub use gm_build::build_error::BuildError;
pub use gm_frontier::expected::Expected;
pub use gm_frontier::last::Last;
pub use gm_frontier::level::Level;
pub use gm_frontier::note::Note;
pub use gm_frontier::run::Run;
pub use gm_frontier::tally::Tally;
pub use gm_shard::event::Event;
pub use gm_shard::replay::replay;
pub use gm_shard::shard::Shard;
pub use gm_shard::{Delivery, Refused, Short, Start, Status, start};
pub use gm_solver::alone::solve_alone;
pub use gm_solver::error::SolveError;
pub use gm_solver::gate::{Gate, NoGate};
pub use gm_solver::plan::Plan;
pub use gm_solver::source::{Counter, Source};
pub use gm_solver::tier::{Report, solve_passes, solve_tier};
pub use gm_solver::{Board, Four, Held, Pass, PassDesk, ShardLedger, Share, Shares};
