//! Texts of boards and moves of king and pawn against king.
ghost use Rattle.std.specs.Prelude.{◌≡◌, ◌+◌, ◌<◌, ◌≤◌, ◌/◌, ◌%◌, ℕ, slice_index, if◌then◌else◌};
ghost use Rattle.gm_squares.specs.Kpk.{letter, man_of_letter, step_letter, step_text as step_text_of, told};

use crate::men_text::board_in as men_in;
use crate::pawns::{PawnBoard, WhiteMan, man_at_tier};
use crate::text::{byte_at, push_square};
use arrayvec::ArrayVec;
use gm_game::shown::Line;

/// Returns the letter of White's man.
#[tactic(auto, unfolding(crate::specs::Kpk::letter))]
pub fn letter_of(kind: WhiteMan) -> u8
    ensures { result ≡ letter kind }
{
    match kind {
        WhiteMan::Queen => b'Q',
        WhiteMan::Rook => b'R',
        WhiteMan::Bishop => b'B',
        WhiteMan::Knight => b'N',
        WhiteMan::Pawn | WhiteMan::Taken => b'P',
    }
}

// Returns the man with a letter.
fn man_with(byte: u8) -> WhiteMan
    ensures { result ≡ man_of_letter byte }
{
    match byte {
        b'Q' => WhiteMan::Queen,
        b'R' => WhiteMan::Rook,
        b'B' => WhiteMan::Bishop,
        b'N' => WhiteMan::Knight,
        _ => WhiteMan::Pawn,
    }
}

/// Returns the board with this text, if there is one. Any bytes may be given.
#[tactic(auto, unfolding(crate::specs::Kpk::told))]
pub fn board_in(text: &[u8]) -> PawnBoard
    ensures { result ≡ told text.now }
{
    PawnBoard {
        kind: if text.len() == 13 {
            man_with(byte_at(text, 4))
        } else {
            WhiteMan::Taken
        },
        men: men_in(text),
    }
}

// Returns the letter before a move of a man: its own, or that of the man which the pawn becomes.
#[tactic(auto, unfolding(crate::specs::Kpk::step_letter))]
fn step_byte(tier: u64, man: u32) -> u8
    ensures { result ≡ step_letter tier man }
{
    match man {
        0 => b'K',
        1 => letter_of(man_at_tier(tier)),
        2 => b'k',
        _ => letter_of(man_at_tier(u64::from(man - 2))),
    }
}

/// Returns the text of a move.
#[tactic(auto, unfolding(crate::specs::Kpk::step_text, crate::specs::Chess::man, crate::specs::Chess::from_square, crate::specs::Chess::to_square))]
pub fn step_text(tier: u64, number: u32) -> Line
    ensures { result.items ≡ step_text_of tier number }
{
    let man = [step_byte(tier, number / 4096)];
    let mut line = ArrayVec::new();
    push_square(&mut line, &man, number / 64 % 64);
    push_square(&mut line, b"-", number % 64);
    line
}
