//! Games of dominoes and pins.
use crate::worked::{Row, expect_move, expect_start, expect_values};
use gm_dominoes::cram::{CramFive, CramFour};
use gm_dominoes::domineering::{DomineeringFive, DomineeringFour};
use gm_dominoes::kayles::Kayles;
use gm_game::position::Value;

#[test]
fn domineering_four_positions(rt: HostRuntime) {
    let rows: [Row; 4] = [
        (b"x..xxxxxx.xxxxx.", Value::Lose, 0),
        (b"x.x.x.....xxxx.x", Value::Lose, 2),
        (b".xxxx.x.x...xx..", Value::Win, 1),
        (b"..xx..xx.xxxx...", Value::Win, 3),
    ];
    expect_values::<DomineeringFour>(&rt, &rows);
    expect_move::<DomineeringFour>(&rt, b"................", b"a1-b1", b"x...x...........");
}

#[test]
fn domineering_five_positions(rt: HostRuntime) {
    let rows: [Row; 4] = [
        (b".xxx.xxxxxxxxxxx..xx.xxxx", Value::Lose, 0),
        (b".xx.xxxx.xx.xx.x.....xxx.", Value::Lose, 2),
        (b"xxx.xx..xxxxxxxxxxxx....x", Value::Win, 1),
        (b"..xx.x.xx..xxxxxxx.xxx..x", Value::Win, 3),
    ];
    expect_values::<DomineeringFive>(&rt, &rows);
    expect_move::<DomineeringFive>(
        &rt,
        b"xxx.xx..xxxxxxxxxxxx....x",
        b"b2-b3",
        b"xxx.xxxxxxxxxxxxxxxx....x",
    );
}

#[test]
fn cram_four_positions(rt: HostRuntime) {
    let rows: [Row; 4] = [
        (b"x.x..x.xxxxxx.x.", Value::Lose, 0),
        (b"x..x....x.xx.xxx", Value::Lose, 2),
        (b"x.x.xx.x..xx.xxx", Value::Win, 1),
        (b"....x..x.x.xxx..", Value::Win, 3),
    ];
    expect_values::<CramFour>(&rt, &rows);
    expect_move::<CramFour>(&rt, b"x..x....x.xx.xxx", b"a2-a3", b"xxxx....x.xx.xxx");
}

#[test]
fn cram_five_positions(rt: HostRuntime) {
    let rows: [Row; 4] = [
        (b".xxxxxx.xxx.x.xxxxxxxxxx.", Value::Lose, 0),
        (b"xxxxx.xxx.....xxxxx..x.xx", Value::Lose, 2),
        (b"xxx.xxxxxx.x.x.xx..xxxxx.", Value::Win, 1),
        (b".xxxxxx...x...xx.xxxxxxx.", Value::Win, 3),
    ];
    expect_values::<CramFive>(&rt, &rows);
    expect_move::<CramFive>(
        &rt,
        b"xxx.xxxxxx.x.x.xx..xxxxx.",
        b"d3-d4",
        b"xxx.xxxxxx.x.x.xxxxxxxxx.",
    );
}

#[test]
fn kayles_positions(rt: HostRuntime) {
    let rows: [Row; 4] = [
        (b"............", Value::Lose, 0),
        (b".....x.....x", Value::Lose, 2),
        (b"......x.....", Value::Win, 1),
        (b".x..x.....x.", Value::Win, 3),
    ];
    expect_values::<Kayles>(&rt, &rows);
    expect_move::<Kayles>(&rt, b"xxxxxxxxxxxx", b"f-g", b"xxxxx..xxxxx");
    expect_move::<Kayles>(&rt, b".....x.....x", b"f", b"...........x");
}

#[test]
fn starts_of_dominoes(rt: HostRuntime) {
    expect_start::<DomineeringFour>(
        &rt,
        b"    1 2 3 4\na   . . . .\nb   . . . .\nc   . . . .\nd   . . . .",
    );
    expect_start::<DomineeringFive>(
        &rt,
        b"    1 2 3 4 5\na   . . . . .\nb   . . . . .\nc   . . . . .\nd   . . . . .\ne   . . . . .",
    );
    expect_start::<CramFour>(
        &rt,
        b"    1 2 3 4\na   . . . .\nb   . . . .\nc   . . . .\nd   . . . .",
    );
    expect_start::<CramFive>(
        &rt,
        b"    1 2 3 4 5\na   . . . . .\nb   . . . . .\nc   . . . . .\nd   . . . . .\ne   . . . . .",
    );
    expect_start::<Kayles>(&rt, b"a b c d e f g h i j k l\nx x x x x x x x x x x x");
}
