//! Connect Four on 4 columns and 4 rows.
use crate::worked::{Row, expect_rows, made};
use gm_connect::connect::ConnectFour;
use gm_game::game::Game;
use gm_game::position::{Position, Value};
use gm_game::shown::Shown;
use std::alloc::{AllocError, Global};

type FourByFour = ConnectFour<4, 4>;

// Marks the positions of the next tier to which a position leads.
fn mark_results(p: Position, next: &mut Vec<bool>) {
    let names: [&[u8]; 4] = [b"1", b"2", b"3", b"4"];
    for name in names {
        if let Some((_, to)) = made::<FourByFour>(p, name) {
            if let Some(mark) = next.get_mut(to.index as usize) {
                *mark = true;
            }
        }
    }
}

// Returns how many positions of a tier are legal, and how many are reached, and marks those of the next tier to which these lead.
fn walk_tier(tier: u64, marks: &[bool], next: &mut Vec<bool>) -> (u32, u32) {
    let mut legal = 0u32;
    let mut reached = 0u32;
    for index in 0..marks.len() {
        let p = Position {
            tier,
            index: index as u64,
        };
        if FourByFour::is_legal(p) {
            legal = legal.saturating_add(1);
        }
        if marks[index] {
            reached = reached.saturating_add(1);
            mark_results(p, next);
        }
    }
    (legal, reached)
}

// Returns how many positions with up to seven pieces are legal, and how many of them play from the start reaches.
fn walk(alloc: Global) -> Result<(u32, u32), AllocError> {
    let mut marks = vec![in alloc; true; 1]?;
    let mut legal = 0u32;
    let mut reached = 0u32;
    for tier in 0..8 {
        let size = FourByFour::tier_size(tier + 1) as usize;
        let mut next = vec![in alloc; false; size]?;
        let found = walk_tier(tier, marks.as_slice(), &mut next);
        legal = legal.saturating_add(found.0);
        reached = reached.saturating_add(found.1);
        marks = next;
    }
    Ok((legal, reached))
}

#[test]
fn first_positions(rt: HostRuntime) {
    assert_eq!(&rt; walk(rt.alloc()), Ok((4975, 4309)));
}

#[test]
fn connect_positions(rt: HostRuntime) {
    let rows = [
        Row {
            text: "oxooxooxooxxxoxx",
            value: Value::Tie,
            remoteness: 0,
            moves: &[],
        },
        Row {
            text: "x..xoxoxxooxxooo",
            value: Value::Tie,
            remoteness: 2,
            moves: &[("2", "oo.oxoxooxxooxxx"), ("3", "o.ooxoxooxxooxxx")],
        },
        Row {
            text: "x.o.xxxooxxoxooo",
            value: Value::Win,
            remoteness: 1,
            moves: &[("2", "oox.oooxxooxoxxx"), ("4", "o.xooooxxooxoxxx")],
        },
        Row {
            text: "o..ox.xxo.oox.xo",
            value: Value::Lose,
            remoteness: 4,
            moves: &[("2", "x..xo.oox.xxooox"), ("3", "x.oxo.oox.xxo.ox")],
        },
        Row {
            text: "..xx.xoo.ooo.oxx",
            value: Value::Win,
            remoteness: 5,
            moves: &[("1", "..oo.oxx.xxxoxoo"), ("2", ".ooo.oxx.xxx.xoo")],
        },
    ];
    expect_rows::<FourByFour>(&rt, &rows);
    let hanging: [&[u8]; 2] = [b"........x.......", b"xxxxoooo........"];
    for text in hanging {
        assert!(&rt; FourByFour::read(text).is_none());
    }
}
