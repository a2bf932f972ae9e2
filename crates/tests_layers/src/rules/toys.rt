//! The toys: moves, ends, values, tiers, parents and texts.
use crate::countdowns::{VALUES, record};
use crate::expect::{expect, expect_eq};
use crate::rules::asking::{
    Row, check_ahead, check_moves, check_parents, check_positions, check_texts, check_tiers,
    looked_ahead, on,
};
use gm_game::children::{child_place, is_inner};
use gm_game::game::{Game, laws};
use gm_game::position::{End, Value};
use gm_game::shown::{Shown, texts};
use gm_game::text::value_text;
use gm_toys::chain::{Chain, chain_is};
use gm_toys::countdown::{Countdown, countdown_is};
use gm_toys::stairs::{Stairs, stairs_is};
use gm_toys::wheel::{Wheel, wheel_is};

type Ten = Countdown<10>;

type Links = Chain<10>;

type Three = Stairs<3>;

#[test]
fn names_and_starts(rt: HostRuntime) {
    expect_eq(&rt, Ten::name(), *b"countdown\0\0\0\0\0\0\0");
    expect_eq(&rt, Links::name(), *b"chain\0\0\0\0\0\0\0\0\0\0\0");
    expect_eq(&rt, Three::name(), *b"stairs\0\0\0\0\0\0\0\0\0\0");
    expect_eq(&rt, Wheel::name(), *b"wheel\0\0\0\0\0\0\0\0\0\0\0");
    expect_eq(&rt, Ten::initial(), on((0, 10)));
    expect_eq(&rt, Links::initial(), on((0, 10)));
    expect_eq(&rt, Three::initial(), on((3, 0)));
    expect_eq(&rt, Wheel::initial(), on((0, 9)));
}

const END: Row<'static> = ((0, 0), &[], Some(End::Lose), &[]);

#[test]
fn toys_go_down(rt: HostRuntime) {
    let ten: Row<'_> = ((0, 10), &[1, 2], None, &[(0, 8), (0, 9)]);
    check_positions::<Ten>(&rt, &[ten, END]);
    check_positions::<Links>(&rt, &[((0, 10), &[1], None, &[(0, 9)]), END]);
    check_positions::<Three>(&rt, &[((3, 0), &[1], None, &[(2, 0)]), END]);
}

#[test]
fn wheel_goes_round(rt: HostRuntime) {
    check_positions::<Wheel>(
        &rt,
        &[
            ((0, 0), &[], Some(End::Tie), &[]),
            ((0, 1), &[0, 2], None, &[(0, 0), (0, 2)]),
            ((0, 2), &[1, 3], None, &[(0, 1), (0, 3)]),
            ((0, 3), &[4], None, &[(0, 4)]),
            ((0, 4), &[3], None, &[(0, 3)]),
            ((0, 5), &[], Some(End::Lose), &[]),
            ((0, 6), &[0, 5], None, &[(0, 0), (0, 5)]),
            ((0, 7), &[6], None, &[(0, 6)]),
            ((0, 8), &[3, 6], None, &[(0, 3), (0, 6)]),
            ((0, 9), &[1, 7], None, &[(0, 1), (0, 7)]),
        ],
    );
}

#[test]
fn countdown_table(rt: HostRuntime) {
    for (index, known) in VALUES.iter().enumerate() {
        let found = looked_ahead::<Ten>(on((0, index as u64)), 16);
        expect_eq(&rt, (index, found), (index, record(*known)));
    }
}

#[test]
fn looking_ahead_on_toys(rt: HostRuntime) {
    let (won, lost) = (Some((Value::Win, 7)), Some((Value::Lose, 0)));
    check_ahead::<Ten>(&rt, &[("10", 7, won), ("10", 6, None), ("0", 0, lost)]);
    check_ahead::<Wheel>(&rt, &[("3", 20, None), ("9", 3, Some((Value::Win, 3)))]);
}

#[test]
fn children_of_countdown(rt: HostRuntime) {
    let p = on((0, 10));
    expect(&rt, Ten::is_legal(p));
    expect_eq(&rt, child_place::<Ten>(p, on((0, 9))), Some(1));
    expect_eq(&rt, child_place::<Ten>(p, on((0, 7))), None);
    let inner = [10, 0, 11].map(|index| is_inner::<Ten>(on((0, index))));
    expect_eq(&rt, inner, [true, false, false]);
}

#[test]
fn value_texts(rt: HostRuntime) {
    for (known, text) in [
        ((Value::Win, 7), "win in 7"),
        ((Value::Lose, 4), "lose in 4"),
        ((Value::Tie, 9), "tie in 9"),
        ((Value::Draw, 0), "draw"),
    ] {
        let solved = record(known).expect(&rt, "a record");
        expect_eq(&rt, value_text(solved).as_slice(), text.as_bytes());
    }
}

#[test]
fn tiers_of_toys(rt: HostRuntime) {
    check_tiers::<Links>(&rt, &[(0, 11, 0, &[])]);
    check_tiers::<Chain<4294967295>>(&rt, &[(0, 4_294_967_296, 0, &[])]);
    check_tiers::<Wheel>(&rt, &[(0, 10, 0, &[])]);
    check_tiers::<Three>(
        &rt,
        &[
            (0, 1, 0, &[]),
            (1, 1, 1, &[0]),
            (2, 1, 2, &[1]),
            (3, 1, 3, &[2]),
        ],
    );
    let sizes = (Links::tier_size(1), Wheel::tier_size(1));
    expect_eq(&rt, (sizes, Three::tier_size(4)), ((0, 0), 0));
    for tier in [4, u64::MAX] {
        expect(&rt, Three::child_tiers(tier).is_empty());
    }
}

#[test]
fn positions_outside_toys(rt: HostRuntime) {
    for place in [(0, 11), (1, 0)] {
        expect(&rt, !Links::is_legal(on(place)));
    }
    for place in [(4, 0), (3, 1)] {
        expect(&rt, !Three::is_legal(on(place)));
    }
    for place in [(0, 10), (1, 0)] {
        expect(&rt, !Wheel::is_legal(on(place)));
    }
}

#[test]
fn parents_in_toys(rt: HostRuntime) {
    check_parents::<Links>(
        &rt,
        &[((0, 0), 0, &[1]), ((0, 0), 1, &[]), ((0, 10), 0, &[])],
    );
    check_parents::<Three>(
        &rt,
        &[
            ((0, 0), 1, &[0]),
            ((0, 0), 0, &[]),
            ((0, 0), 2, &[]),
            ((3, 0), 4, &[]),
        ],
    );
    let above: [&[u64]; 10] = [
        &[1, 6],
        &[2, 9],
        &[1],
        &[2, 4, 8],
        &[3],
        &[6],
        &[7, 8],
        &[9],
        &[],
        &[],
    ];
    for (index, parents) in (0..).zip(above) {
        check_parents::<Wheel>(&rt, &[((0, index), 0, parents), ((0, index), 1, &[])]);
    }
}

// Texts of no position and of no move of Countdown.
const NEITHER: [&[u8]; 8] = [b"", b"+1", b"-1", b"01", b" 1", b"1 ", b"\xff", &[b'1'; 64]];

#[test]
fn countdown_reads_its_texts_and_no_others(rt: HostRuntime) {
    check_texts::<Ten>(&rt, &[((0, 0), "0"), ((0, 10), "10")], &NEITHER);
    let others: [&[u8]; 8] = [
        b" ",
        b"00",
        b"11",
        b"1\n",
        b"18446744073709551617",
        b"\xff\x80",
        &[b'1'; 65],
        &[b'0'; 1000],
    ];
    check_texts::<Ten>(&rt, &[], &others);
}

#[test]
fn countdown_reads_its_moves_and_no_others(rt: HostRuntime) {
    check_moves::<Ten>(
        &rt,
        (0, 10),
        &[("1", 1, (0, 9)), ("2", 2, (0, 8))],
        &NEITHER,
    );
    check_moves::<Ten>(&rt, (0, 10), &[], &[b"0", b"3", &[b'2'; 65]]);
    check_moves::<Ten>(&rt, (0, 1), &[("1", 1, (0, 0))], &[b"2"]);
}

// Texts of no position of a toy whose numbers have one digit, or end at 10.
const NONE: [&[u8]; 6] = [b"", b"01", b"+1", b" 1", b"1\n", b"\xff"];

#[test]
fn toys_read_their_texts_and_no_others(rt: HostRuntime) {
    check_texts::<Links>(&rt, &[((0, 10), "10"), ((0, 0), "0")], &NONE);
    check_texts::<Three>(&rt, &[((3, 0), "3"), ((0, 0), "0")], &NONE);
    check_texts::<Wheel>(&rt, &[((0, 8), "8"), ((0, 0), "0"), ((0, 9), "9")], &NONE);
    check_texts::<Links>(&rt, &[], &[b"11"]);
    check_texts::<Three>(&rt, &[], &[b"4"]);
    check_texts::<Wheel>(&rt, &[], &[b"10"]);
}

#[test]
fn toys_read_their_moves_and_no_others(rt: HostRuntime) {
    let down: [&[u8]; 4] = [b"", b"0", b"2", b"01"];
    check_moves::<Links>(&rt, (0, 10), &[("1", 1, (0, 9))], &down);
    check_moves::<Three>(&rt, (3, 0), &[("1", 1, (2, 0))], &down);
    let round: [&[u8]; 6] = [b"", b"0", b"8", b"03", b"10", b"4294967299"];
    check_moves::<Wheel>(&rt, (0, 8), &[("3", 3, (0, 3)), ("6", 6, (0, 6))], &round);
}

// Has no effect. It is proved that the game keeps the laws.
fn keeps_the_laws<G: Shown>() {
    laws::<G>();
    texts::<G>();
}

#[test]
fn toys_keep_the_laws(_rt: HostRuntime) {
    keeps_the_laws::<Ten>();
    keeps_the_laws::<Links>();
    keeps_the_laws::<Three>();
    keeps_the_laws::<Wheel>();
    countdown_is::<10>();
    chain_is::<10>();
    stairs_is::<3>();
    wheel_is();
}
