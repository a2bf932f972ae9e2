//! Values of Takeaway worked by hand: with 0, 4, 8 or 12 counters left, the player to move loses.
use crate::takeaway::{Takeaway, takeaway_is};
use gm_game::ahead::within;
use gm_game::game::Game;
use gm_game::position::{Position, Solved, Value};
use gm_game::shown::Shown;

// Returns the value with this many counters left, looking twelve moves ahead.
fn value(counters: u64) -> Option<Solved> {
    let p = Position {
        tier: 0,
        index: counters,
    };
    if Takeaway::is_legal(p) {
        within::<Takeaway>(p, 12)
    } else {
        None
    }
}

#[test]
fn every_fourth_number_loses(rt: HostRuntime) {
    for counters in 0..13 {
        let turns = (counters / 4) as u32;
        let by_hand = if counters % 4 == 0 {
            Solved {
                value: Value::Lose,
                remoteness: 2 * turns,
            }
        } else {
            Solved {
                value: Value::Win,
                remoteness: 2 * turns + 1,
            }
        };
        assert_eq!(rt; value(counters), Some(by_hand));
    }
    assert_eq!(rt; value(13), None);
}

#[test]
fn texts_are_numbers(rt: HostRuntime) {
    takeaway_is();
    let p = Takeaway::read(b"7");
    assert_eq!(rt; p, Some(Position { tier: 0, index: 7 }));
    assert_eq!(rt; Takeaway::read(b"13"), None);
}
