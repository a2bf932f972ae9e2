//! Plans, sources, the numbers of errors, the limit on remoteness, and questions about positions without an answer.
use crate::expect::{expect_eq, must};
use crate::solver::records::record;
use gm_build::build_error::BuildError;
use gm_game::position::{Position, Value};
use gm_play::answers::{AnswerError, answer};
use gm_play::best_moves::best_move;
use gm_shard::short::Short;
use gm_shard::status::Refused;
use gm_solver::alone::solve_alone;
use gm_solver::error::SolveError;
use gm_solver::plan::Plan;
use gm_solver::source::{Counter, Source};
use gm_table::checker::CheckError;
use gm_table::tables::Tables;
use gm_toys::chain::Chain;
use gm_toys::countdown::Countdown;

// Numbers of workers, of shards, and of notes in a piece, and whether they make a plan.
const PLANS: [(usize, usize, usize, bool); 9] = [
    (0, 1, 1, false),
    (17, 1, 1, false),
    (1, 0, 1, false),
    (1, 5, 1, false),
    (1, 1, 0, false),
    (1, 1, 4097, false),
    (1, 1, 1, true),
    (16, 4, 4096, true),
    (4, 2, 64, true),
];

#[test]
fn plans_outside_the_limits(rt: HostRuntime) {
    for (workers, shards, piece, is_plan) in PLANS {
        let found = match Plan::new(workers, shards, piece) {
            Some(plan) => Some((plan.workers(), plan.shards(), plan.piece())),
            None => None,
        };
        let numbers = (workers, shards, piece);
        expect_eq(&rt, (numbers, found), (numbers, is_plan.then_some(numbers)));
    }
}

#[test]
fn counter_hands_out(rt: HostRuntime) {
    let counter = Counter::new();
    expect_eq(&rt, counter.next(&rt, 0), None);
    counter.begin(&rt, 2);
    for (worker, piece) in [(0, Some(0)), (1, Some(1)), (0, None), (1, None)] {
        expect_eq(&rt, (worker, counter.next(&rt, worker)), (worker, piece));
    }
    counter.begin(&rt, 0);
    expect_eq(&rt, counter.next(&rt, 0), None);
}

#[test]
fn chain_at_the_limit(rt: HostRuntime) {
    let far: Tables<Chain<1048576>> = Tables::new(rt.alloc());
    let refused = solve_alone(rt.alloc(), 0, &far).err();
    expect_eq(&rt, refused, Some(SolveError::TooFar { tier: 0 }));
    let tables: Tables<Chain<1048575>> = Tables::new(rt.alloc());
    let (table, deliveries) = must(&rt, solve_alone(rt.alloc(), 0, &tables));
    let found = (table.at(1_048_575), deliveries);
    expect_eq(&rt, found, (record((Value::Win, 1_048_575)), 1_048_575));
    drop((far, tables, table));
}

// Checks that questions about a position whose tier isn't held, and about one that isn't legal, are refused for this reason.
#[test]
fn questions_without_an_answer(rt: HostRuntime) {
    let none: Tables<Countdown<10>> = Tables::new(rt.alloc());
    for (index, why) in [(10, AnswerError::NotHeld), (11, AnswerError::Illegal)] {
        let p = Position { tier: 0, index };
        expect_eq(&rt, (p, answer(&none, p)), (p, Err(why)));
        expect_eq(&rt, (p, best_move(&none, p)), (p, Err(why)));
    }
    drop(none);
}

#[test]
fn errors_have_numbers(rt: HostRuntime) {
    let (tier, index) = (5, 5);
    let (delivered, expected) = (1, 2);
    let numbers = [
        AnswerError::Illegal.number(),
        AnswerError::NotHeld.number(),
        CheckError::OutOfMemory.number(),
        CheckError::WrongSize.number(),
        CheckError::WrongRecord { index }.number(),
        SolveError::OutOfMemory.number(),
        SolveError::TooFar { tier }.number(),
        BuildError::OutOfMemory.number(),
        BuildError::TooFar { tier }.number(),
        BuildError::StoreFailed { tier }.number(),
        BuildError::TooManyTiers.number(),
        BuildError::TierTooLarge { tier }.number(),
        Refused::NotThisLevel.number(),
        Refused::NotMine.number(),
        Refused::NotAParent.number(),
        Refused::TooFar.number(),
        Short {
            delivered,
            expected,
        }
        .number(),
    ];
    let wanted = [1, 2, 1, 2, 3, 1, 2, 1, 2, 3, 4, 5, 1, 2, 3, 4, 1];
    expect_eq(&rt, numbers, wanted);
}
