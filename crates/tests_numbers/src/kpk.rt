//! King and pawn against king.
use crate::worked::{Row, expect_moves, expect_rows};
use gm_game::game::Game;
use gm_game::position::Value;
use gm_game::shown::Shown;
use gm_squares::kpk::Kpk;
use std::process::Abort;

// Fails if a position's moves are not these, in this order.
fn expect_all(rt: &impl Abort, text: &'static str, moves: &[(&'static str, &'static str)]) {
    match Kpk::read(text.as_bytes()) {
        Some(p) => {
            assert_eq!(rt; Kpk::moves(p).len(), moves.len());
            expect_moves::<Kpk>(rt, p, moves);
        }
        None => assert!(rt; false),
    }
}

#[test]
fn pawn_moves(rt: HostRuntime) {
    assert_eq!(&rt; Kpk::read(b"Ke1 Pe2 ke8 w"), Some(Kpk::initial()));
    expect_all(
        &rt,
        "Ka1 Pe2 kh8 w",
        &[
            ("Ka1-b1", "Kb1 Pe2 kh8 b"),
            ("Ka1-a2", "Ka2 Pe2 kh8 b"),
            ("Ka1-b2", "Kb2 Pe2 kh8 b"),
            ("Pe2-e3", "Ka1 Pe3 kh8 b"),
            ("Pe2-e4", "Ka1 Pe4 kh8 b"),
        ],
    );
    expect_all(
        &rt,
        "Ka1 Pe2 ke4 w",
        &[
            ("Ka1-b1", "Kb1 Pe2 ke4 b"),
            ("Ka1-a2", "Ka2 Pe2 ke4 b"),
            ("Ka1-b2", "Kb2 Pe2 ke4 b"),
            ("Pe2-e3", "Ka1 Pe3 ke4 b"),
        ],
    );
    expect_all(
        &rt,
        "Ka1 Pe2 ke3 w",
        &[
            ("Ka1-b1", "Kb1 Pe2 ke3 b"),
            ("Ka1-a2", "Ka2 Pe2 ke3 b"),
            ("Ka1-b2", "Kb2 Pe2 ke3 b"),
        ],
    );
    expect_all(
        &rt,
        "Kh8 Pe2 ke1 b",
        &[
            ("ke1-d1", "Kh8 Pe2 kd1 w"),
            ("ke1-f1", "Kh8 Pe2 kf1 w"),
            ("ke1-d2", "Kh8 Pe2 kd2 w"),
            ("ke1-e2", "Kh8 ke2 w"),
            ("ke1-f2", "Kh8 Pe2 kf2 w"),
        ],
    );
}

#[test]
fn kpk_positions(rt: HostRuntime) {
    let rows = [
        Row {
            text: "Kb6 Pa7 ka8 b",
            value: Value::Tie,
            remoteness: 0,
            moves: &[],
        },
        Row {
            text: "Kg6 Ba8 kg8 b",
            value: Value::Tie,
            remoteness: 0,
            moves: &[],
        },
        Row {
            text: "Kg6 Qa8 kg8 b",
            value: Value::Lose,
            remoteness: 0,
            moves: &[],
        },
        Row {
            text: "Kg6 Pa7 kg8 w",
            value: Value::Win,
            remoteness: 1,
            moves: &[
                ("Kg6-f5", "Kf5 Pa7 kg8 b"),
                ("Kg6-g5", "Kg5 Pa7 kg8 b"),
                ("Kg6-h5", "Kh5 Pa7 kg8 b"),
                ("Kg6-f6", "Kf6 Pa7 kg8 b"),
                ("Kg6-h6", "Kh6 Pa7 kg8 b"),
                ("Qa7-a8", "Kg6 Qa8 kg8 b"),
                ("Ra7-a8", "Kg6 Ra8 kg8 b"),
                ("Ba7-a8", "Kg6 Ba8 kg8 b"),
                ("Na7-a8", "Kg6 Na8 kg8 b"),
            ],
        },
    ];
    expect_rows::<Kpk>(&rt, &rows);
}
