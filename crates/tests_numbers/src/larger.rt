//! Connect Four on 5 columns and 5 rows and on 6 columns and 4 rows, whose middle columns are numbered apart; and numbers of positions on the smaller boards.
use crate::worked::{Row, expect_rows};
use gm_connect::connect::ConnectFour;
use gm_game::game::Game;
use gm_game::position::{Position, Value};
use gm_game::shown::Shown;
use std::process::Abort;

// Returns how many tiers below 200 have an index, the most indexes of a tier, and the number of all indexes.
fn sizes<G: Game>() -> (u32, u64, u64) {
    let mut tiers = 0u32;
    let mut most = 0u64;
    let mut all = 0u64;
    for tier in 0..200 {
        let size = G::tier_size(tier);
        if size > 0 {
            tiers = tiers.saturating_add(1);
        }
        most = most.max(size);
        all = all.saturating_add(size);
    }
    (tiers, most, all)
}

#[test]
fn tiers(rt: HostRuntime) {
    assert_eq!(&rt;
        sizes::<ConnectFour<5, 5>>(),
        (126, 14_108_640, 171_976_899)
    );
    assert_eq!(&rt; sizes::<ConnectFour<6, 4>>(), (153, 7_390_240, 159_643_961));
    assert_eq!(&rt; sizes::<ConnectFour<4, 4>>(), (17, 34_320, 201_755));
    assert_eq!(&rt; sizes::<ConnectFour<5, 4>>(), (21, 900_900, 5_621_939));
    assert_eq!(&rt; sizes::<ConnectFour<4, 5>>(), (21, 486_200, 3_039_959));
    assert_eq!(&rt; sizes::<ConnectFour<4, 6>>(), (25, 7_054_320, 45_340_631));
}

// Fails if the position of a text has another number.
fn expect_number<G: Shown>(rt: &impl Abort, text: &str, tier: u64, index: u64) {
    assert_eq!(rt; G::read(text.as_bytes()), Some(Position { tier, index }));
}

#[test]
fn numbers(rt: HostRuntime) {
    expect_number::<ConnectFour<5, 5>>(&rt, "............x...oo..xxxoo", 33, 2182);
    expect_number::<ConnectFour<5, 5>>(&rt, "ox..xxo..oox..ooxo.oxxxox", 98, 1494783);
    expect_number::<ConnectFour<5, 5>>(&rt, "x.o.xoox.oxxo.ooox.xxooxx", 95, 8466703);
    expect_number::<ConnectFour<6, 4>>(&rt, "........x....oo...xxxoo.", 40, 8972);
    expect_number::<ConnectFour<6, 4>>(&rt, "x.o..oxox..oxoo.xxooxxxo", 122, 3571329);
    expect_number::<ConnectFour<6, 4>>(&rt, "..xxo..ooxxx.oxoxoxoooxo", 107, 487947);
    expect_number::<ConnectFour<4, 4>>(&rt, "..xx.xoo.ooo.oxx", 11, 378);
    expect_number::<ConnectFour<5, 4>>(&rt, ".......o..oxxx.ooox.", 9, 27421);
    expect_number::<ConnectFour<4, 5>>(&rt, "..........o.oxxxooox", 9, 8143);
    expect_number::<ConnectFour<4, 6>>(&rt, "..............o.oxxxooox", 9, 11293);
}

#[test]
fn positions_on_five_by_five(rt: HostRuntime) {
    let rows = [
        Row {
            text: "ox..xxo..oox..ooxo.oxxxox",
            value: Value::Tie,
            remoteness: 7,
            moves: &[
                ("3", "xo..oox..xxoo.xxox.xoooxo"),
                ("4", "xo..oox..xxo..xxoxoxoooxo"),
            ],
        },
        Row {
            text: ".oo.x.xx.x.xo.oxooxxooxoo",
            value: Value::Win,
            remoteness: 5,
            moves: &[
                ("1", ".xx.o.oo.ooox.xoxxooxxoxx"),
                ("4", ".xx.o.oo.o.oxoxoxxooxxoxx"),
            ],
        },
        Row {
            text: "x.xo.x.ox.o.xo.x.ooxooxox",
            value: Value::Lose,
            remoteness: 6,
            moves: &[
                ("2", "o.ox.o.xo.x.ox.ooxxoxxoxo"),
                ("5", "o.ox.o.xo.x.oxoo.xxoxxoxo"),
            ],
        },
    ];
    expect_rows::<ConnectFour<5, 5>>(&rt, &rows);
}

#[test]
fn positions_on_six_by_four(rt: HostRuntime) {
    let rows = [
        Row {
            text: "x.o..oxox..oxoo.xxooxxxo",
            value: Value::Lose,
            remoteness: 6,
            moves: &[
                ("2", "oox..xoxo..xoxx.ooxxooox"),
                ("4", "o.x..xoxo..xoxxoooxxooox"),
                ("5", "o.x..xoxo.oxoxx.ooxxooox"),
            ],
        },
        Row {
            text: "..xxo..ooxxx.oxoxoxoooxo",
            value: Value::Win,
            remoteness: 5,
            moves: &[
                ("1", "..oox..xxooooxoxoxoxxxox"),
                ("2", ".ooox..xxooo.xoxoxoxxxox"),
                ("6", "..ooxo.xxooo.xoxoxoxxxox"),
            ],
        },
    ];
    expect_rows::<ConnectFour<6, 4>>(&rt, &rows);
}
