//! Worked positions, their values and their moves.
use gm_game::ahead::within;
use gm_game::position::{Position, Solved, Value};
use gm_game::shown::Shown;
use std::process::Abort;

/// A position: its text, its value and remoteness, and its moves in order, each with the text of the position to which it leads.
#[derive(Drop)]
pub(crate) struct Row {
    pub text: &'static str,
    pub value: Value,
    pub remoteness: u32,
    pub moves: &'static [(&'static str, &'static str)],
}

/// Returns the move of a position that has this text, and the position to which it leads.
pub(crate) fn made<G: Shown>(p: Position, text: &[u8]) -> Option<(u32, Position)> {
    if !G::is_legal(p) {
        return None;
    }
    match G::read_move(p, text) {
        Some(m) => Some((m, G::play(p, m))),
        None => None,
    }
}

/// Fails if the moves of a position are not these, in this order.
pub(crate) fn expect_moves<G: Shown>(
    rt: &impl Abort,
    p: Position,
    moves: &[(&'static str, &'static str)],
) {
    let mut last = None;
    for (name, result) in moves {
        let found = made::<G>(p, name.as_bytes());
        let (number, to) = (found.map(|x| x.0), found.map(|x| x.1));
        assert!(rt; number > last);
        assert_eq!(rt; to, G::read(result.as_bytes()));
        last = number;
    }
}

/// Fails if a position has another value, or other moves.
pub(crate) fn expect_rows<G: Shown>(rt: &impl Abort, rows: &[Row]) {
    for row in rows {
        let wanted = Solved {
            value: row.value,
            remoteness: row.remoteness,
        };
        match G::read(row.text.as_bytes()) {
            Some(p) => {
                assert_eq!(rt; within::<G>(p, row.remoteness), Some(wanted));
                assert_eq!(rt; G::moves(p).len(), row.moves.len());
                expect_moves::<G>(rt, p, row.moves);
            }
            None => assert!(rt; false),
        }
    }
}
