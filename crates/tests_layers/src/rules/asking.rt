//! Checks of a game's positions, tiers and texts, by rows of worked values.
use crate::countdowns::{Known, record};
use crate::expect::{expect, expect_eq};
use gm_game::ahead::within;
use gm_game::children::canonical_children;
use gm_game::game::Game;
use gm_game::position::{End, Position, Solved};
use gm_game::shown::Shown;
use std::process::Abort;

/// A tier and an index in it.
pub type At = (u64, u64);

/// Returns the position at a place.
pub fn on((tier, index): At) -> Position {
    Position { tier, index }
}

/// Returns the value that looking this many moves ahead finds for a position. It finds none if the position is not legal.
pub fn looked_ahead<G: Game>(p: Position, moves: u32) -> Option<Solved> {
    if G::is_legal(p) {
        within::<G>(p, moves)
    } else {
        None
    }
}

/// Checks the values that looking ahead finds. A row has the text of a board, the number of moves, and the value and remoteness.
pub fn check_ahead<G: Shown>(rt: &impl Abort, rows: &[(&str, u32, Option<Known>)]) {
    for (text, moves, found) in rows {
        let solved = match G::read(text.as_bytes()) {
            Some(p) => looked_ahead::<G>(p, *moves),
            None => None,
        };
        expect_eq(rt, (text, solved), (text, found.and_then(record)));
    }
}

/// A legal position that is canonical, its moves, the way in which it ends the game, and its canonical children.
pub type Row<'a> = (At, &'a [u32], Option<End>, &'a [At]);

/// Checks these positions.
pub fn check_positions<G: Game>(rt: &impl Abort, rows: &[Row<'_>]) {
    for (place, moves, end, children) in rows {
        let p = on(*place);
        expect(rt, G::is_legal(p));
        expect_eq(rt, (p, G::canonical(p)), (p, p));
        expect_eq(rt, (p, G::moves(p).as_slice()), (p, *moves));
        expect_eq(rt, (p, G::primitive(p)), (p, *end));
        let found = canonical_children::<G>(p);
        expect_eq(rt, (p, found.len()), (p, children.len()));
        for (child, place) in found.as_slice().iter().zip(*children) {
            expect_eq(rt, (p, *child), (p, on(*place)));
        }
    }
}

/// Checks the sizes, the ranks and the child tiers of tiers.
pub fn check_tiers<G: Game>(rt: &impl Abort, rows: &[(u64, u64, u64, &[u64])]) {
    for (tier, size, rank, below) in rows {
        let found = (tier, G::tier_size(*tier), G::tier_rank(*tier));
        expect_eq(rt, found, (tier, *size, *rank));
        expect_eq(rt, (tier, G::child_tiers(*tier).as_slice()), (tier, *below));
    }
}

/// Checks the canonical parents of canonical positions. A row has a position, a tier, and the parents in that tier.
pub fn check_parents<G: Game>(rt: &impl Abort, rows: &[(At, u64, &[u64])]) {
    for (place, above, parents) in rows {
        let c = on(*place);
        expect(rt, G::is_legal(c) && G::canonical(c) == c);
        expect_eq(rt, (c, G::parents(c, *above).as_slice()), (c, *parents));
    }
}

/// Checks the texts of legal positions, and that no position has any of the other texts.
pub fn check_texts<G: Shown>(rt: &impl Abort, rows: &[(At, &str)], others: &[&[u8]]) {
    for (place, text) in rows {
        let p = on(*place);
        expect(rt, G::is_legal(p));
        expect_eq(rt, G::show(p).as_slice(), text.as_bytes());
        expect_eq(rt, G::read(text.as_bytes()), Some(p));
    }
    for text in others {
        expect_eq(rt, (*text, G::read(text)), (*text, None));
    }
}

/// Returns the move that this text is read as at a legal position, with the position to which it leads, if the text is also that of
/// the move.
pub fn move_at<G: Shown>(p: Position, text: &[u8]) -> Option<(u32, Position)> {
    if !G::is_legal(p) {
        return None;
    }
    match G::read_move(p, text) {
        Some(m) => {
            if G::move_text(p, m).as_slice() == text {
                Some((m, G::play(p, m)))
            } else {
                None
            }
        }
        None => None,
    }
}

/// Returns the move with a text at the position with a text.
pub fn move_from<G: Shown>(position: &str, text: &str) -> Option<u32> {
    let p = G::read(position.as_bytes())?;
    Some(move_at::<G>(p, text.as_bytes())?.0)
}

/// Checks the texts of a position's moves. A row has a text, the move's number, and the position to which it leads. No move has any
/// of the other texts.
pub fn check_moves<G: Shown>(
    rt: &impl Abort,
    place: At,
    rows: &[(&str, u32, At)],
    others: &[&[u8]],
) {
    let p = on(place);
    for (text, m, child) in rows {
        let found = move_at::<G>(p, text.as_bytes());
        expect_eq(rt, (text, found), (text, Some((*m, on(*child)))));
    }
    expect(rt, G::is_legal(p));
    for text in others {
        expect_eq(rt, (*text, G::read_move(p, text)), (*text, None));
    }
}
