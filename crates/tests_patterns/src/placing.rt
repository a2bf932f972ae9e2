//! Games of placing.
use crate::worked::{Row, expect_move, expect_start, expect_values};
use gm_game::position::Value;
use gm_placing::hex::{HexFour, HexThree};
use gm_placing::rows::{Notakto, TicTacToeFour, TicTacToeMisere};
use gm_placing::sim::Sim;

#[test]
fn misere_positions(rt: HostRuntime) {
    let rows: [Row; 6] = [
        (b"ox.xxoxoo", Value::Lose, 1),
        (b".ooo.x.xx", Value::Lose, 3),
        (b"oxooxoxox", Value::Tie, 0),
        (b"..ooxxxoo", Value::Tie, 2),
        (b"oo.oxxo.x", Value::Win, 0),
        (b"x..xox.oo", Value::Win, 2),
    ];
    expect_values::<TicTacToeMisere>(&rt, &rows);
    expect_move::<TicTacToeMisere>(&rt, b"oxoxxoxo.", b"c3", b"xoxooxoxo");
}

#[test]
fn tictactoe_four_positions(rt: HostRuntime) {
    let rows: [Row; 6] = [
        (b"....xxxoooooxox.", Value::Lose, 0),
        (b"....oxxxo.ooox..", Value::Lose, 2),
        (b"xxoxxoxoxxooooox", Value::Tie, 0),
        (b"..oxxoxoooxxxoox", Value::Tie, 2),
        (b"x.xxo.x.x.oo.o.o", Value::Win, 1),
        (b"....x..x.xooxooo", Value::Win, 3),
    ];
    expect_values::<TicTacToeFour>(&rt, &rows);
    expect_move::<TicTacToeFour>(&rt, b".xxooxxoxooxoxoo", b"a1", b"oooxxooxoxxoxoxx");
}

#[test]
fn notakto_positions(rt: HostRuntime) {
    let rows: [Row; 5] = [
        (b"xx..xxx..", Value::Lose, 1),
        (b"...x..x.x", Value::Lose, 3),
        (b".xx.x.xx.", Value::Win, 0),
        (b"..x..xxx.", Value::Win, 2),
        (b".........", Value::Win, 6),
    ];
    expect_values::<Notakto>(&rt, &rows);
    expect_move::<Notakto>(&rt, b"...x..x.x", b"b2", b"...xx.x.x");
}

#[test]
fn hex_three_positions(rt: HostRuntime) {
    let rows: [Row; 5] = [
        (b".........", Value::Win, 5),
        (b"x.oxxooo.", Value::Lose, 0),
        (b"xx..o.oxo", Value::Lose, 2),
        (b"xxo..oxoo", Value::Win, 1),
        (b".oxx.x.oo", Value::Win, 3),
    ];
    expect_values::<HexThree>(&rt, &rows);
    expect_move::<HexThree>(&rt, b"xxo..oxoo", b"b1", b"oooo.xxxx");
}

#[test]
fn hex_four_positions(rt: HostRuntime) {
    let rows: [Row; 4] = [
        (b"xooxo.xxoooox..x", Value::Lose, 0),
        (b"ox.xxxoo.o.o.xox", Value::Lose, 2),
        (b"ooxxo.ox.x.xxoo.", Value::Win, 1),
        (b"xxxooo.ooxx.o...", Value::Win, 3),
    ];
    expect_values::<HexFour>(&rt, &rows);
    expect_move::<HexFour>(&rt, b"ooxxo.ox.x.xxoo.", b"b2", b"xx.oxooxox.xooo.");
}

#[test]
fn sim_positions(rt: HostRuntime) {
    let rows: [Row; 4] = [
        (b"xo..xxxooooox.x", Value::Lose, 1),
        (b"...xxxox.oox.oo", Value::Lose, 3),
        (b".....x..xxoooxo", Value::Win, 0),
        (b"...o.x.oxxoooxx", Value::Win, 2),
    ];
    expect_values::<Sim>(&rt, &rows);
    expect_move::<Sim>(&rt, b"...............", b"16", b"....o..........");
    expect_move::<Sim>(&rt, b"xo..xxxooooox.x", b"46", b"ox..oooxxxxxooo");
}

#[test]
fn starts_of_placing(rt: HostRuntime) {
    expect_start::<TicTacToeMisere>(
        &rt,
        b"    1   2   3\na   . | . | .\n   ---+---+---\nb   . | . | .\n   ---+---+---\nc   . | . | .",
    );
    expect_start::<TicTacToeFour>(
        &rt,
        b"    1   2   3   4\na   . | . | . | .\n   ---+---+---+---\nb   . | . | . | .\n   ---+---+---+---\nc   . | . | . | .\n   ---+---+---+---\nd   . | . | . | .",
    );
    expect_start::<Notakto>(&rt, b"    1 2 3\na   . . .\nb   . . .\nc   . . .");
    expect_start::<HexThree>(&rt, b"    1 2 3\na   . . .\nb    . . .\nc     . . .");
    expect_start::<HexFour>(
        &rt,
        b"    1 2 3 4\na   . . . .\nb    . . . .\nc     . . . .\nd      . . . .",
    );
    expect_start::<Sim>(
        &rt,
        b"    2 3 4 5 6\n1   . . . . .\n2     . . . .\n3       . . .\n4         . .\n5           .",
    );
}
