//! Games of sliding and taking.
use crate::worked::{Row, expect_move, expect_start, expect_values};
use gm_game::position::Value;
use gm_sliding::clobber::Clobber;
use gm_sliding::hexapawn::{Hexapawn, HexapawnFour};
use gm_sliding::kono::Kono;
use gm_sliding::nine::{NineHoles, Picaria};
use gm_sliding::toads::Toads;

#[test]
fn hexapawn_positions(rt: HostRuntime) {
    let rows: [Row; 5] = [
        (b"ooo...xxx", Value::Lose, 6),
        (b"o....ox.o", Value::Lose, 0),
        (b"..o.oo..x", Value::Lose, 2),
        (b"oo...xxx.", Value::Win, 1),
        (b"..oooxx.x", Value::Win, 3),
    ];
    expect_values::<Hexapawn>(&rt, &rows);
    expect_move::<Hexapawn>(&rt, b"ooo...xxx", b"c1-b1", b"oo...oxxx");
    expect_move::<Hexapawn>(&rt, b"..oooxx.x", b"c1-b2", b"o..ooxx..");
}

#[test]
fn hexapawn_four_positions(rt: HostRuntime) {
    let rows: [Row; 4] = [
        (b".......xo...oo.x", Value::Lose, 0),
        (b"o...x..oo.ox..xx", Value::Lose, 2),
        (b"..o..o.x...o..x.", Value::Win, 1),
        (b"o........x.x.x.x", Value::Win, 3),
    ];
    expect_values::<HexapawnFour>(&rt, &rows);
    expect_move::<HexapawnFour>(&rt, b"o...x..oo.ox..xx", b"d4-c3", b".o..oo.xx..o...x");
}

#[test]
fn clobber_positions(rt: HostRuntime) {
    let rows: [Row; 4] = [
        (b"x.....o....o....", Value::Lose, 0),
        (b"..x..x.o.o....ox", Value::Lose, 2),
        (b"o..ox.x.........", Value::Win, 1),
        (b"xo.o.....xo..x.o", Value::Win, 3),
    ];
    expect_values::<Clobber>(&rt, &rows);
    expect_move::<Clobber>(&rt, b"o..ox.x.........", b"b1-a1", b"o..x..o.........");
}

#[test]
fn nine_holes_positions(rt: HostRuntime) {
    let rows: [Row; 4] = [
        (b".xxooo..x", Value::Lose, 0),
        (b"xoxxo...o", Value::Lose, 2),
        (b".x.ox...o", Value::Win, 1),
        (b".x.x.oo.o", Value::Win, 3),
    ];
    expect_values::<NineHoles>(&rt, &rows);
    expect_move::<NineHoles>(&rt, b"xoxxo...o", b"a3-b3", b"ox.oxo..x");
}

#[test]
fn picaria_positions(rt: HostRuntime) {
    let rows: [Row; 4] = [
        (b"oxx.o.x.o", Value::Lose, 0),
        (b".x.oo.x.o", Value::Lose, 2),
        (b".xx.o..oo", Value::Win, 1),
        (b".....xxoo", Value::Win, 3),
    ];
    expect_values::<Picaria>(&rt, &rows);
    expect_move::<Picaria>(&rt, b"..ooxx..o", b"a1", b"o.xxoo..x");
}

#[test]
fn toads_positions(rt: HostRuntime) {
    let rows: [Row; 4] = [
        (b"...xxoxxooo", Value::Lose, 0),
        (b".xoo.xxoxo.", Value::Lose, 2),
        (b"ooox..xxo.x", Value::Win, 1),
        (b"xxooo.o.xx.", Value::Win, 3),
    ];
    expect_values::<Toads>(&rt, &rows);
    expect_move::<Toads>(&rt, b"xxxx...oooo", b"d-e", b"xxxx..o.ooo");
    expect_move::<Toads>(&rt, b".xoo.xxoxo.", b"i-k", b"ox.xoo.xxo.");
}

#[test]
fn kono_positions(rt: HostRuntime) {
    let rows: [Row; 2] = [
        (b"xoo.............", Value::Lose, 0),
        (b"xxo............o", Value::Win, 1),
    ];
    expect_values::<Kono>(&rt, &rows);
    expect_move::<Kono>(&rt, b"ooooooooxxxxxxxx", b"d1-b1", b"xxxxoxxxoooo.ooo");
    expect_move::<Kono>(&rt, b"xxo............o", b"a1-a3", b".oo............x");
}

#[test]
fn starts_of_sliding(rt: HostRuntime) {
    expect_start::<Hexapawn>(&rt, b"    1 2 3\na   o o o\nb   . . .\nc   x x x");
    expect_start::<HexapawnFour>(
        &rt,
        b"    1 2 3 4\na   o o o o\nb   . . . .\nc   . . . .\nd   x x x x",
    );
    expect_start::<NineHoles>(
        &rt,
        b"    1   2   3\na   .---.---.\n    |   |   |\nb   .---.---.\n    |   |   |\nc   .---.---.",
    );
    expect_start::<Picaria>(&rt, b"    1 2 3\na   . . .\nb   . . .\nc   . . .");
    expect_start::<Clobber>(
        &rt,
        b"    1 2 3 4\na   x o x o\nb   o x o x\nc   x o x o\nd   o x o x",
    );
    expect_start::<Kono>(
        &rt,
        b"    1 2 3 4\na   o o o o\nb   o o o o\nc   x x x x\nd   x x x x",
    );
    expect_start::<Toads>(&rt, b"a b c d e f g h i j k\nx x x x . . . o o o o");
}
