//! Subsets, arrangements, ranks, groups and least images of boards.
use crate::expect::{expect, expect_eq};
use gm_board::arrangement::Arrangement;
use gm_board::cell::Cell;
use gm_board::group::is_group;
use gm_board::image::image;
use gm_board::leader::{leader_4, least_arrangement_by};
use gm_board::least::{least_arrangement, least_subset};
use gm_board::pascal::binomial;
use gm_board::radix::MixedRadix;
use gm_board::square::{
    SQUARE_1, SQUARE_2, SQUARE_3, SQUARE_4, SQUARE_5, least_on_square, square_cell_text,
};
use gm_board::subset::{rank_subset, unrank_subset};

// The turns and reflections of the square of side 4.
const SQUARE: [[u8; 16]; 8] = [
    [0, 1, 2, 3, 4, 5, 6, 7, 8, 9, 10, 11, 12, 13, 14, 15],
    [12, 8, 4, 0, 13, 9, 5, 1, 14, 10, 6, 2, 15, 11, 7, 3],
    [15, 14, 13, 12, 11, 10, 9, 8, 7, 6, 5, 4, 3, 2, 1, 0],
    [3, 7, 11, 15, 2, 6, 10, 14, 1, 5, 9, 13, 0, 4, 8, 12],
    [3, 2, 1, 0, 7, 6, 5, 4, 11, 10, 9, 8, 15, 14, 13, 12],
    [12, 13, 14, 15, 8, 9, 10, 11, 4, 5, 6, 7, 0, 1, 2, 3],
    [0, 4, 8, 12, 1, 5, 9, 13, 2, 6, 10, 14, 3, 7, 11, 15],
    [15, 11, 7, 3, 14, 10, 6, 2, 13, 9, 5, 1, 12, 8, 4, 0],
];

// The cells 0, 5, 10, 15 and the cells 3, 6, 9, 12: the two diagonals of that square.
const DIAGONAL: u32 = 0b1000_0100_0010_0001;

const OTHER_DIAGONAL: u32 = 0b0001_0010_0100_1000;

#[test]
fn binomials(rt: HostRuntime) {
    for (n, k, number) in [
        (16, 8, 12_870),
        (25, 12, 5_200_300),
        (32, 16, 601_080_390),
        (0, 0, 1),
        (3, 4, 0),
        (32, 1_000_000, 0),
    ] {
        expect(&rt, n <= 32);
        expect_eq(&rt, (n, k, binomial(n, k)), (n, k, number));
    }
}

// A subset, the numbers of its cells and of those of a board, and its rank. The first cells of a board have rank 0.
const SUBSETS: [(u32, u32, u32, u64); 5] = [
    (0, 0, 4, 0),
    (0b1011, 3, 4, 1),
    (DIAGONAL, 4, 16, 1495),
    (0b10_1001_0100, 4, 10, 169),
    (u32::MAX, 32, 32, 0),
];

#[test]
fn ranks_of_subsets(rt: HostRuntime) {
    for (subset, k, n, rank) in SUBSETS {
        expect_eq(&rt, (subset, rank_subset(subset)), (subset, rank));
        expect(&rt, n <= 32);
        expect(&rt, rank < binomial(n, k));
        expect_eq(&rt, unrank_subset(n, k, rank), subset);
    }
}

#[test]
fn two_diagonals(rt: HostRuntime) {
    let board = Arrangement {
        cells: 16,
        mine: 4,
        theirs: 4,
    };
    let index = board.index(DIAGONAL, OTHER_DIAGONAL);
    expect_eq(&rt, index, 740_194);
    expect_eq(&rt, board.masks(index), (DIAGONAL, OTHER_DIAGONAL));
}

#[test]
fn two_halves_of_a_ring(rt: HostRuntime) {
    let board = Arrangement {
        cells: 9,
        mine: 4,
        theirs: 4,
    };
    expect_eq(&rt, board.index(0b1111, 0b1111_0000), 0);
}

// The numbers of cells, of the mover's pieces and of the opponent's, and that of their arrangements.
#[test]
fn numbers_of_arrangements(rt: HostRuntime) {
    for (cells, mine, theirs, number) in [
        (16, 4, 4, 900_900),
        (9, 4, 4, 630),
        (3, 4, 0, 0),
        (3, 2, 2, 0),
        (0, 0, 0, 1),
    ] {
        let board = Arrangement {
            cells,
            mine,
            theirs,
        };
        expect_eq(&rt, (board, board.size()), (board, number));
    }
}

#[test]
fn mixed_radix(rt: HostRuntime) {
    let turns = MixedRadix {
        radices: [2, 165, 11],
    };
    expect_eq(&rt, turns.size(), 3630);
    let number = turns.encode(&[0, 1, 10]);
    expect_eq(&rt, number, 21);
    let [turn, hounds, hare] = turns.decode(number);
    expect_eq(&rt, (turn, hounds, hare), (0, 1, 10));
    expect_eq(&rt, turns.encode(&[1, 0, 0]), 1815);
    let none = MixedRadix {
        radices: [0, u64::MAX, u64::MAX],
    };
    expect_eq(&rt, none.size(), 0);
}

#[test]
fn groups(rt: HostRuntime) {
    let squares = [
        is_group(&SQUARE),
        is_group(&SQUARE_1),
        is_group(&SQUARE_2),
        is_group(&SQUARE_3),
        is_group(&SQUARE_4),
        is_group(&SQUARE_5),
    ];
    expect_eq(&rt, squares, [true; 6]);
    expect(&rt, is_group(&[[0, 1, 2], [1, 2, 0], [2, 0, 1]]));
    // A permutation may occur twice.
    expect(&rt, is_group(&[[0, 1], [0, 1]]));
    // A cell occurs twice.
    expect(&rt, !is_group(&[[0, 1], [1, 1]]));
    // A cell is past the last.
    expect(&rt, !is_group(&[[0, 1], [1, 2]]));
    // The identity is missing.
    expect(&rt, !is_group(&[[1, 0]]));
    // The turn by two cells is missing.
    expect(&rt, !is_group(&[[0, 1, 2], [1, 2, 0]]));
}

#[test]
fn images(rt: HostRuntime) {
    expect_eq(&rt, image(&SQUARE[0], 0b1001), 0b1001);
    expect_eq(&rt, image(&SQUARE[1], DIAGONAL), OTHER_DIAGONAL);
    expect_eq(&rt, image(&[2, 0, 1], 0b001), 0b010);
}

#[test]
fn least_subsets(rt: HostRuntime) {
    expect(&rt, is_group(&SQUARE));
    // The cells 1 and 7 are mapped to the cells 2 and 4, and 2, 8 and 14 to 1, 8 and 11.
    for (subset, least) in [
        (0b1000_0010, 0b1_0100),
        (0b0100_0001_0000_0100, 0b1001_0000_0010),
        (1 << 15, 1),
    ] {
        expect(&rt, subset < 1 << 16);
        let found = least_subset(&SQUARE, subset);
        expect_eq(&rt, (subset, found), (subset, least));
    }
}

#[test]
fn least_arrangements(rt: HostRuntime) {
    let diagonals = least_arrangement(&SQUARE, DIAGONAL, OTHER_DIAGONAL);
    expect_eq(&rt, diagonals, (OTHER_DIAGONAL, DIAGONAL));
    // The mover has the cells 11 and 15, the opponent 0 and 14.
    let least = least_arrangement(&SQUARE, 0b1000_1000_0000_0000, 0b0100_0000_0000_0001);
    expect_eq(&rt, least, (0b11, 0b1000_0000_0001_0000));
}

#[test]
fn least_on_squares(rt: HostRuntime) {
    // The cells 1 and 7 of the square of side 4 are mapped to the cells 2 and 4.
    expect_eq(&rt, least_on_square(4, 0b1000_0010), 0b1_0100);
    // The last corner is mapped to the first, and the center of side 3 to itself.
    expect_eq(&rt, least_on_square(5, 1 << 24), 1);
    expect_eq(&rt, least_on_square(3, 1 << 4), 1 << 4);
    expect_eq(&rt, least_on_square(2, 0b1010), 0b11);
    expect_eq(&rt, least_on_square(1, 1), 1);
}

#[test]
fn leaders_of_squares(rt: HostRuntime) {
    // Only one symmetry maps a piece on the rim next to a corner to the cell 1.
    for (leader, cell) in (0..).zip([1, 8, 14, 7, 2, 13, 4, 11]) {
        expect_eq(&rt, (cell, leader_4(1 << cell)), (cell, Some(leader)));
    }
    // A reflection leaves a corner, a diagonal and the empty square unchanged.
    for pieces in [1, DIAGONAL, 0] {
        expect_eq(&rt, (pieces, leader_4(pieces)), (pieces, None));
    }
    // The mover has the cell 2, the opponent 0 and 7. They are mapped to 1, and to 3 and 4.
    let least = match leader_4(0b100) {
        Some(leader) => least_arrangement_by(leader, 0b100, 0b1000_0001),
        None => (0, 0),
    };
    expect_eq(&rt, least, (0b10, 0b1_1000));
}

#[test]
fn texts_of_cells(rt: HostRuntime) {
    expect_eq(&rt, square_cell_text(4, 0), *b"a1");
    expect_eq(&rt, square_cell_text(4, 1), *b"a2");
    expect_eq(&rt, square_cell_text(3, 8), *b"c3");
}

#[test]
fn cells(rt: HostRuntime) {
    expect_eq(&rt, Cell::at(0b001, 0b010, 0), Cell::Mine);
    expect_eq(&rt, Cell::at(0b001, 0b010, 1), Cell::Theirs);
    expect_eq(&rt, Cell::at(0b001, 0b010, 2), Cell::Empty);
}
