//! Worked positions and their values.
use gm_draw::drawn::draw;
use gm_draw::pictured::Pictured;
use gm_game::ahead::within;
use gm_game::game::laws;
use gm_game::position::{Solved, Value};
use gm_game::shown::Shown;
use std::process::Abort;

/// A position, its value and its remoteness.
pub(crate) type Row = (&'static [u8], Value, u32);

/// Fails if a position has another value.
pub(crate) fn expect_values<G: Shown>(rt: &impl Abort, rows: &[Row]) {
    for (text, value, remoteness) in rows {
        let found = match G::read(text) {
            Some(position) => within::<G>(position, *remoteness),
            None => None,
        };
        let wanted = Solved {
            value: *value,
            remoteness: *remoteness,
        };
        assert_eq!(rt; found, Some(wanted));
    }
}

/// Fails if a move of a position does not lead to another.
pub(crate) fn expect_move<G: Shown>(rt: &impl Abort, text: &[u8], name: &[u8], wanted: &[u8]) {
    let result = match G::read(text) {
        Some(position) => match G::read_move(position, name) {
            Some(number) => Some(G::play(position, number)),
            None => None,
        },
        None => None,
    };
    assert_eq!(rt; result, G::read(wanted));
    assert!(rt; result.is_some());
}

/// Fails if the start of a game is drawn otherwise.
pub(crate) fn expect_start<G: Pictured>(rt: &impl Abort, wanted: &[u8]) {
    laws::<G>();
    let drawing = draw::<G>(G::initial());
    assert!(rt; drawing.as_slice() == wanted);
}
