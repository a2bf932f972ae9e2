//! Chomp, whose first player wins; here by one bite only.
use crate::whole::{all_values, known};
use crate::worked::{Row, expect_rows, made};
use gm_game::game::Game;
use gm_game::position::{Solved, Value};
use gm_game::shown::Shown;
use gm_numbers::chomp::Chomp;
use std::process::Abort;

// Fails if the number of legal bars, that of lost ones, the value of the whole bar or that after the winning bite is another.
fn expect_whole(rt: &impl Abort, values: &[Option<Solved>]) {
    let mut legal = 0u32;
    let mut lost = 0u32;
    for value in values.iter().flatten() {
        legal = legal.saturating_add(1);
        if value.value == Value::Lose {
            lost = lost.saturating_add(1);
        }
    }
    assert_eq!(rt; (legal, lost), (330, 30));
    let start = Chomp::initial();
    let win = Solved {
        value: Value::Win,
        remoteness: 18,
    };
    assert_eq!(rt; known(values, start), Some(win));
    let to = made::<Chomp>(start, b"3-4").map(|x| x.1);
    assert_eq!(rt; to, Chomp::read(b"7 7 3 3"));
    let lose = Solved {
        value: Value::Lose,
        remoteness: 17,
    };
    assert_eq!(rt; to.and_then(|p| known(values, p)), Some(lose));
}

#[test]
fn whole_bar(rt: HostRuntime) {
    match all_values::<Chomp>(rt.alloc(), 8) {
        Ok(values) => expect_whole(&rt, values.as_slice()),
        Err(_) => assert!(&rt; false),
    }
}

#[test]
fn chomp_positions(rt: HostRuntime) {
    let rows = [
        Row {
            text: "0 0 0 0",
            value: Value::Win,
            remoteness: 0,
            moves: &[],
        },
        Row {
            text: "2 1 0 0",
            value: Value::Lose,
            remoteness: 3,
            moves: &[("1-1", "0 0 0 0"), ("1-2", "1 1 0 0"), ("2-1", "2 0 0 0")],
        },
        Row {
            text: "2 2 0 0",
            value: Value::Win,
            remoteness: 4,
            moves: &[
                ("1-1", "0 0 0 0"),
                ("1-2", "1 1 0 0"),
                ("2-1", "2 0 0 0"),
                ("2-2", "2 1 0 0"),
            ],
        },
        Row {
            text: "2 1 1 0",
            value: Value::Win,
            remoteness: 4,
            moves: &[
                ("1-1", "0 0 0 0"),
                ("1-2", "1 1 1 0"),
                ("2-1", "2 0 0 0"),
                ("3-1", "2 1 0 0"),
            ],
        },
    ];
    expect_rows::<Chomp>(&rt, &rows);
    let floating: [&[u8]; 3] = [b"1 2 0 0", b"8 0 0 0", b"7 7 7"];
    for text in floating {
        assert!(&rt; Chomp::read(text).is_none());
    }
}
