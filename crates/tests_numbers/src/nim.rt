//! Nim, whose theory is known: a position is lost if the numbers of its heaps, as binary numbers, have each digit an even number of times.
use crate::whole::{all_values, known};
use crate::worked::{Row, expect_rows};
use gm_game::game::Game;
use gm_game::position::{Position, Solved, Value};
use gm_numbers::nim::Nim;
use std::process::Abort;

// The heaps of a position, by its index.
fn heaps(index: u64) -> [u64; 4] {
    [index / 192 % 2, index / 48 % 4, index / 8 % 6, index % 8]
}

// Returns whether a position is lost by the theory of normal play.
fn is_balanced(index: u64) -> bool {
    let [a, b, c, d] = heaps(index);
    a ^ b ^ c ^ d == 0
}

// Returns whether a position is lost by the theory: in misère play as in normal play, but if no heap has two counters, the number of heaps is odd.
fn is_lost(index: u64, misere: bool) -> bool {
    let [a, b, c, d] = heaps(index);
    if misere && a < 2 && b < 2 && c < 2 && d < 2 {
        (a + b + c + d) % 2 == 1
    } else {
        is_balanced(index)
    }
}

// Fails if the lost positions are not exactly those that the theory names, or if the start has another value.
fn expect_theory<G: Game>(rt: &impl Abort, values: &[Option<Solved>], misere: bool, start: Solved) {
    for index in 0..384 {
        let found = known(values, Position { tier: 0, index });
        assert_eq!(rt;
            found.map(|x| x.value == Value::Lose),
            Some(is_lost(index, misere))
        );
    }
    assert_eq!(rt; known(values, G::initial()), Some(start));
}

fn lose_in(remoteness: u32) -> Solved {
    Solved {
        value: Value::Lose,
        remoteness,
    }
}

#[test]
fn xor_rule(rt: HostRuntime) {
    match all_values::<Nim<false>>(rt.alloc(), 1) {
        Ok(values) => expect_theory::<Nim<false>>(&rt, values.as_slice(), false, lose_in(16)),
        Err(_) => assert!(&rt; false),
    }
}

#[test]
fn xor_rule_misere(rt: HostRuntime) {
    match all_values::<Nim<true>>(rt.alloc(), 1) {
        Ok(values) => expect_theory::<Nim<true>>(&rt, values.as_slice(), true, lose_in(15)),
        Err(_) => assert!(&rt; false),
    }
}

#[test]
fn nim_positions(rt: HostRuntime) {
    let rows = [
        Row {
            text: "0 0 0 0",
            value: Value::Lose,
            remoteness: 0,
            moves: &[],
        },
        Row {
            text: "0 0 1 1",
            value: Value::Lose,
            remoteness: 2,
            moves: &[("3-1", "0 0 0 1"), ("4-1", "0 0 1 0")],
        },
        Row {
            text: "1 3 0 1",
            value: Value::Win,
            remoteness: 3,
            moves: &[
                ("1-1", "0 3 0 1"),
                ("2-1", "1 2 0 1"),
                ("2-2", "1 1 0 1"),
                ("2-3", "1 0 0 1"),
                ("4-1", "1 3 0 0"),
            ],
        },
    ];
    expect_rows::<Nim<false>>(&rt, &rows);
}

#[test]
fn misere_positions(rt: HostRuntime) {
    let rows = [
        Row {
            text: "0 0 0 0",
            value: Value::Win,
            remoteness: 0,
            moves: &[],
        },
        Row {
            text: "1 1 1 1",
            value: Value::Win,
            remoteness: 4,
            moves: &[
                ("1-1", "0 1 1 1"),
                ("2-1", "1 0 1 1"),
                ("3-1", "1 1 0 1"),
                ("4-1", "1 1 1 0"),
            ],
        },
        Row {
            text: "0 0 1 3",
            value: Value::Win,
            remoteness: 2,
            moves: &[
                ("3-1", "0 0 0 3"),
                ("4-1", "0 0 1 2"),
                ("4-2", "0 0 1 1"),
                ("4-3", "0 0 1 0"),
            ],
        },
    ];
    expect_rows::<Nim<true>>(&rt, &rows);
}
