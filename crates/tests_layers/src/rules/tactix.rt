//! Values, numbers of moves and texts of Tac Tix, and the numbers of moves of Hare and Hounds.
use crate::expect::{expect, expect_eq};
use crate::rules::asking::{check_ahead, move_from};
use gm_game::children::canonical_children;
use gm_game::game::Game;
use gm_game::position::Value;
use gm_game::shown::Shown;
use gm_hare::hare::Hare;
use gm_tactix::tactix::TacTix;

type Two = TacTix<2, false>;

#[test]
fn values_of_tactix_of_two(rt: HostRuntime) {
    check_ahead::<Two>(
        &rt,
        &[
            ("xxxx", 4, Some((Value::Lose, 4))),
            ("xxx.", 4, Some((Value::Win, 3))),
            ("x..x", 4, Some((Value::Lose, 2))),
            ("xx..", 4, Some((Value::Win, 1))),
        ],
    );
    check_ahead::<TacTix<2, true>>(
        &rt,
        &[
            ("xxxx", 4, Some((Value::Lose, 3))),
            ("....", 4, Some((Value::Win, 0))),
        ],
    );
}

// Returns the number of moves of the start, and that of its canonical children.
fn at_start<G: Shown>() -> (usize, usize) {
    let p = G::initial();
    (G::moves(p).len(), canonical_children::<G>(p).len())
}

#[test]
fn tactix_starts(rt: HostRuntime) {
    expect_eq(&rt, at_start::<Two>(), (8, 2));
    expect_eq(&rt, at_start::<TacTix<3, false>>(), (27, 7));
    expect_eq(&rt, at_start::<TacTix<4, false>>(), (64, 11));
    expect_eq(&rt, at_start::<TacTix<5, false>>(), (125, 24));
    // Any other side is treated as 1.
    expect_eq(&rt, at_start::<TacTix<0, false>>(), (1, 1));
    expect_eq(&rt, at_start::<TacTix<6, true>>(), (1, 1));
}

// Returns the number of results of the board with this text: one for each move.
fn number_of_results<G: Shown>(text: &str) -> Option<usize> {
    let p = G::read(text.as_bytes())?;
    if !G::is_legal(p) {
        return None;
    }
    let mut list = canonical_children::<G>(p);
    G::fill_results(p, &mut list);
    Some(list.len())
}

#[test]
fn results_of_five(rt: HostRuntime) {
    for (text, number) in [
        ("xxxxxxxxxxxxxxxxxxxxxxxxx", 125),
        ("xxxxx....................", 15),
        ("x....x....x....x....x....", 15),
        ("......xx.................", 3),
        (".........................", 0),
    ] {
        let found = number_of_results::<TacTix<5, false>>(text);
        expect_eq(&rt, (text, found), (text, Some(number)));
    }
}

#[test]
fn texts_of_tactix(rt: HostRuntime) {
    let start = Two::initial();
    expect(&rt, Two::is_legal(start));
    expect_eq(&rt, Two::show(start).as_slice(), b"xxxx");
    for text in ["xxxxx", "xxox"] {
        expect_eq(&rt, (text, Two::read(text.as_bytes())), (text, None));
    }
    // One counter is not a range, and a range goes up.
    for (text, is_move) in [
        ("a1", true),
        ("a1-a3", true),
        ("a1-c1", true),
        ("a1-a1", false),
        ("a3-a1", false),
    ] {
        let found = move_from::<TacTix<3, false>>("xxxxxxxxx", text).is_some();
        expect_eq(&rt, (text, found), (text, is_move));
    }
}

// The number of a hound's move is 16 times the number of the point that it leaves, plus that of the point to which it goes.
const MOVES_OF_HOUNDS: [(&str, u32); 7] = [
    ("L-M1", 2),
    ("T1-M1", 18),
    ("T1-T2", 20),
    ("T1-M2", 21),
    ("B1-M1", 50),
    ("B1-M2", 53),
    ("B1-B2", 54),
];

#[test]
fn move_numbers_of_hare(rt: HostRuntime) {
    let (start, text) = (Hare::initial(), "dd.d......h d");
    expect(&rt, Hare::is_legal(start));
    expect_eq(&rt, Hare::show(start).as_slice(), text.as_bytes());
    let numbers = MOVES_OF_HOUNDS.map(|(_, number)| number);
    expect_eq(&rt, Hare::moves(start).as_slice(), &numbers);
    for (name, number) in MOVES_OF_HOUNDS {
        let found = move_from::<Hare>(text, name);
        expect_eq(&rt, (name, found), (name, Some(number)));
    }
}
