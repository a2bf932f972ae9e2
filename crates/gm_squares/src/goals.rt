//! Masks of the squares to which each man can go, and of those from which it can have come. Each call takes constant time, without a loop.
ghost use Rattle.std.specs.Prelude.{◌≡◌, ℕ, ◌+◌, ◌*◌, ◌<◌, ◌==◌, true, false, if◌then◌else◌};
ghost use Rattle.gm_board.specs.Masks.{has_cell};
ghost use Rattle.gm_pieces.specs.inner.Marking.{leads_here};
ghost use Rattle.gm_squares.specs.Chess.{legal, ending, piece_attacks, king_can, piece_can, foe_can};

use crate::attacks::{TAKEN, king_reach, open_squares, piece_reach};
use crate::lines::square_mask;
use crate::men::Men;

// Returns the squares that the rook or queen attacks when the black king is away; none if it has been taken.
#[tactic(auto, using(crate::specs::laws::MenMasks::taken_reach))]
fn reach_past_foe(queen: bool, b: Men) -> u64
    ensures { (k : ℕ) → k < 64 → has_cell result k ≡ piece_attacks queen b.piece k b.king b.king }
{
    if b.piece < 64 {
        piece_reach(queen, b.piece, b.king, b.king)
    } else {
        0
    }
}

/// Returns the squares to which the white king can go.
#[tactic(auto, using(crate::specs::laws::MenMasks::king_goes))]
pub fn king_goals(b: Men) -> u64
    requires king { b.king < 64 }
    requires foe { b.foe < 64 }
    ensures { (k : ℕ) → k < 64 → has_cell result k ≡ king_can b b.king k }
{
    king_reach(b.king) & !king_reach(b.foe) & !square_mask(b.piece)
}

/// Returns the squares to which the rook or queen can go.
#[tactic(auto, using(crate::specs::laws::MenMasks::piece_goes, crate::specs::laws::MenMasks::taken_goes))]
pub fn piece_goals(queen: bool, b: Men) -> u64
    ensures { (k : ℕ) → k < 64 → has_cell result k ≡ piece_can queen b b.piece k }
{
    if b.piece < 64 {
        piece_reach(queen, b.piece, b.king, b.foe) & !square_mask(b.king) & !square_mask(b.foe)
    } else {
        0
    }
}

/// Returns the squares to which the black king can go.
#[tactic(auto, using(crate::specs::laws::MenMasks::foe_goes))]
pub fn foe_goals(queen: bool, b: Men) -> u64
    requires king { b.king < 64 }
    requires foe { b.foe < 64 }
    ensures { (k : ℕ) → k < 64 → has_cell result k ≡ foe_can queen b b.foe k }
{
    let guarded = reach_past_foe(queen, b) & !square_mask(b.piece);
    king_reach(b.foe) & !king_reach(b.king) & !guarded
}

/// Returns the squares from which the white king can have come by the last move.
#[tactic(auto, using(crate::specs::laws::MenFacts::king_below, crate::specs::laws::MenFacts::foe_below, crate::specs::laws::MenFacts::piece_below, crate::specs::laws::MenMasks::piece_not_foe))]
pub fn king_sources(queen: bool, d: Men) -> u64
    requires legal { legal queen d ≡ true }
    requires turn { d.white_moves ≡ false }
    ensures { (k : ℕ) → k < 64 → has_cell result k ≡ leads_here (ending queen) 1 d (d.king + 64 * k) }
{
    let others = square_mask(d.foe) | square_mask(d.piece) | king_reach(d.foe);
    let guarded = open_squares(queen, d.piece, d.foe);
    king_reach(d.king) & !others & !guarded
}

/// Returns the squares from which the rook or queen can have come by the last move.
#[tactic(auto, using(crate::specs::laws::MenFacts::king_below, crate::specs::laws::MenFacts::foe_below, crate::specs::laws::MenFacts::piece_below))]
pub fn piece_sources(queen: bool, d: Men) -> u64
    requires legal { legal queen d ≡ true }
    requires turn { d.white_moves ≡ false }
    ensures { (k : ℕ) → k < 64 → has_cell result k ≡ leads_here (ending queen) 1 d (4096 + d.piece + 64 * k) }
{
    let others = square_mask(d.king) | square_mask(d.foe);
    let checking = piece_reach(queen, d.foe, d.king, d.king);
    piece_reach(queen, d.piece, d.king, d.foe) & !others & !checking
}

// Returns the square of the rook or queen before the last move: if it has been taken, that of the black king.
fn stood(d: Men) -> u32
    ensures { result ≡ (if d.piece == TAKEN then d.foe else d.piece) }
{
    if d.piece == TAKEN { d.foe } else { d.piece }
}

/// Returns the squares from which the black king can have come by the last move.
#[tactic(auto, using(crate::specs::laws::MenFacts::king_below, crate::specs::laws::MenFacts::foe_below))]
pub fn foe_sources(queen: bool, d: Men) -> u64
    requires legal { legal queen d ≡ true }
    requires turn { d.white_moves ≡ true }
    ensures { (k : ℕ) → k < 64 → has_cell result k ≡ leads_here (ending queen) 1 d (8192 + d.foe + 64 * k) }
{
    let others = square_mask(d.king) | square_mask(stood(d)) | king_reach(d.king);
    king_reach(d.foe) & !others
}
