//! Orders of tiers.
use crate::expect::{expect_eq, must};
use gm_game::game::Game;
use gm_tactix::tactix::TacTix;
use gm_tiers::order::TierOrder;
use gm_tiers::tier_error::TierError;
use gm_toys::chain::Chain;
use gm_toys::countdown::Countdown;
use gm_toys::stairs::Stairs;
use gm_toys::wheel::Wheel;
use std::alloc::Global;
use std::process::Abort;

// Checks that an order has the tiers from 0 to this one.
fn check_order(rt: &impl Abort, order: Result<TierOrder, TierError>, last: u64) {
    let order = must(rt, order);
    for (number, tier) in (0..).zip(order.tiers()) {
        expect_eq(rt, *tier, number);
    }
    expect_eq(rt, order.tiers().len() as u64, last.saturating_add(1));
}

// Checks the order of a game's tiers.
fn check_start<G: Game>(rt: &impl Abort, alloc: Global, last: u64) {
    check_order(rt, TierOrder::from_initial::<G>(alloc), last);
}

#[test]
fn child_tiers_come_first(rt: HostRuntime) {
    check_start::<Countdown<10>>(&rt, rt.alloc(), 0);
    check_start::<Chain<4095>>(&rt, rt.alloc(), 0);
    check_start::<Wheel>(&rt, rt.alloc(), 0);
    check_start::<Stairs<3>>(&rt, rt.alloc(), 3);
    check_start::<Stairs<1023>>(&rt, rt.alloc(), 1023);
    check_start::<TacTix<2, false>>(&rt, rt.alloc(), 4);
}

#[test]
fn tiers_below_a_tier(rt: HostRuntime) {
    let few = TierOrder::from_tier::<TacTix<2, false>>(rt.alloc(), 2);
    check_order(&rt, few, 2);
    // All tiers but the first, of a game with one tier too many.
    let many = TierOrder::from_tier::<Stairs<1024>>(rt.alloc(), 1023);
    check_order(&rt, many, 1023);
}

// Checks the reason why a game has no order.
fn check_refused<G: Game>(rt: &impl Abort, alloc: Global, why: Option<TierError>) {
    expect_eq(rt, TierOrder::from_initial::<G>(alloc).err(), why);
}

#[test]
fn games_past_the_limits_have_no_order(rt: HostRuntime) {
    let large = TierError::TierTooLarge { tier: 0 };
    check_refused::<Stairs<1024>>(&rt, rt.alloc(), Some(TierError::TooManyTiers));
    check_refused::<Countdown<16777216>>(&rt, rt.alloc(), Some(large));
    check_refused::<Countdown<16777215>>(&rt, rt.alloc(), None);
}

#[test]
fn tier_errors_have_numbers(rt: HostRuntime) {
    for (error, number) in [
        (TierError::OutOfMemory, 1),
        (TierError::TooManyTiers, 2),
        (TierError::TierTooLarge { tier: 5 }, 3),
    ] {
        expect_eq(&rt, (error, error.number()), (error, number));
    }
}
