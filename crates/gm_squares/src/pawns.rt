//! Boards of king and pawn against king: White's man that is not its king, and the squares to which the pawn and the black king next to it can go.
ghost use Rattle.std.specs.Prelude.{◌≡◌, ◌<◌, ◌≤◌, true};
ghost use Rattle.gm_squares.specs.Kpk.{pawn_attacks as pawn_attacks_of, is_free as is_free_of, pawn_can as pawn_can_of, pawn_promotes as pawn_promotes_of, foe_can_beside_pawn as foe_can_of, can_move_with_pawn as can_move_of, tier_with, man_at_tier as man_at_tier_of, legal as legal_of, are_placed as are_placed_of};
ghost use Rattle.gm_squares.specs.laws.PawnFacts.{is_pawn_near as is_pawn_near_of};

use crate::attacks::{TAKEN, king_attacks};
use crate::men::{Men, is_legal, king_can};

/// White's man that is not its king.
#[derive(Clone, Copy, Debug, PartialEq, Eq)]
pub enum WhiteMan {
    /// It has been taken.
    Taken,
    Queen,
    Rook,
    Bishop,
    Knight,
    Pawn,
}

/// The board: which man White has besides its king, and the squares of the men.
#[derive(Clone, Copy, Debug, PartialEq, Eq)]
pub struct PawnBoard {
    pub kind: WhiteMan,
    pub men: Men,
}

// Tests whether a square is in the next row up and in a file next to another's.
fn is_pawn_near(from: u32, to: u32) -> bool
    requires from { from < 64 }
    requires to { to < 64 }
    ensures { result ≡ is_pawn_near_of from to }
{
    to / 8 == from / 8 + 1 && (to % 8 + 1 == from % 8 || to % 8 == from % 8 + 1)
}

/// Tests whether a pawn attacks one square from another.
#[tactic(auto, using(crate::specs::laws::PawnFacts::pawn_test))]
pub fn pawn_attacks(from: u32, to: u32) -> bool
    requires from { from < 64 }
    requires to { to < 64 }
    ensures { result ≡ pawn_attacks_of from to }
{
    is_pawn_near(from, to)
}

// Tests whether the men are on different squares of the board, and the kings apart.
fn are_placed(b: Men) -> bool
    ensures { result ≡ are_placed_of b }
{
    is_legal(
        false,
        Men {
            white_moves: false,
            ..b
        },
    )
}

// Tests whether a square is free of kings.
fn is_free(b: Men, square: u32) -> bool
    ensures { result ≡ is_free_of b square }
{
    square != b.king && square != b.foe
}

/// Tests whether the pawn can go from one square to another and stay a pawn.
#[tactic(auto, unfolding(crate::specs::Kpk::pawn_can))]
pub fn pawn_can(b: Men, from: u32, to: u32) -> bool
    requires { from < 64 }
    ensures { result ≡ pawn_can_of b from to }
{
    from == b.piece
        && (from / 8 != 6
            && (is_free(b, to)
                && (to == from + 8
                    || (from / 8 == 1 && (to == from + 16 && is_free(b, from + 8))))))
}

/// Tests whether the pawn can go from one square to another and become another man there.
#[tactic(auto, unfolding(crate::specs::Kpk::pawn_promotes))]
pub fn pawn_promotes(b: Men, from: u32, to: u32) -> bool
    requires { from < 64 }
    ensures { result ≡ pawn_promotes_of b from to }
{
    from == b.piece && (from / 8 == 6 && (to == from + 8 && is_free(b, to)))
}

// Tests whether the black king can go from one square to another.
#[tactic(auto, unfolding(crate::specs::Kpk::foe_can_beside_pawn))]
fn foe_can(b: Men, from: u32, to: u32) -> bool
    requires from { from < 64 }
    requires to { to < 64 }
    requires king { b.king < 64 }
    requires piece { b.piece < 64 }
    ensures { result ≡ foe_can_of b from to }
{
    from == b.foe
        && (king_attacks(from, to) && (!king_attacks(b.king, to) && !pawn_attacks(b.piece, to)))
}

/// Tests whether the move with this number could be made next to a pawn.
#[tactic(auto, unfolding(crate::specs::Kpk::can_move_with_pawn, crate::specs::Chess::man, crate::specs::Chess::from_square, crate::specs::Chess::to_square))]
pub fn can_move(b: Men, number: u32) -> bool
    requires king { b.king < 64 }
    requires piece { b.piece < 64 }
    requires foe { b.foe < 64 }
    ensures { result ≡ can_move_of b number }
{
    let man = number / 4096;
    let from = number / 64 % 64;
    let to = number % 64;
    if b.white_moves {
        (man == 0 && king_can(b, from, to))
            || ((man == 1 && pawn_can(b, from, to)) || (man >= 3 && pawn_promotes(b, from, to)))
    } else {
        man == 2 && foe_can(b, from, to)
    }
}

/// Tests whether a board is legal.
#[tactic(auto, using(crate::specs::laws::PawnFacts::placed_piece, crate::specs::laws::PawnFacts::placed_foe), unfolding(crate::specs::Kpk::legal_with))]
pub fn is_legal_board(board: PawnBoard) -> bool
    ensures { result ≡ legal_of board }
{
    let b = board.men;
    match board.kind {
        WhiteMan::Taken => b.piece == TAKEN && is_legal(false, b),
        WhiteMan::Queen => b.piece != TAKEN && is_legal(true, b),
        WhiteMan::Rook => b.piece != TAKEN && is_legal(false, b),
        WhiteMan::Pawn => {
            are_placed(b)
                && (0 < b.piece / 8
                    && (b.piece / 8 < 7 && !(b.white_moves && pawn_attacks(b.piece, b.foe))))
        }
        WhiteMan::Bishop | WhiteMan::Knight => {
            are_placed(b) && (!b.white_moves && b.piece / 8 == 7)
        }
    }
}

/// Returns the tier of the boards with a man.
#[tactic(auto, unfolding(crate::specs::Kpk::tier_with))]
pub fn tier_of(kind: WhiteMan) -> u64
    ensures { result ≡ tier_with kind }
{
    match kind {
        WhiteMan::Taken => 0,
        WhiteMan::Queen => 1,
        WhiteMan::Rook => 2,
        WhiteMan::Bishop => 3,
        WhiteMan::Knight => 4,
        WhiteMan::Pawn => 5,
    }
}

/// Returns the man of the boards of a tier.
#[tactic(auto, unfolding(crate::specs::Kpk::man_at_tier))]
pub fn man_at_tier(tier: u64) -> WhiteMan
    ensures { result ≡ man_at_tier_of tier }
{
    match tier {
        0 => WhiteMan::Taken,
        1 => WhiteMan::Queen,
        2 => WhiteMan::Rook,
        3 => WhiteMan::Bishop,
        4 => WhiteMan::Knight,
        _ => WhiteMan::Pawn,
    }
}
