//! Nim with heaps of 1, 3, 5 and 7 counters (docs/GAMES.md, Nim).
ghost use Rattle.std.specs.Prelude.{◌≡◌, ◌<◌, ◌≤◌};
ghost use Rattle.gm_numbers.specs.Nim.{nim, nim_rules, nim_text, nim_move, sizes as sizes_of, weight as weight_of, heap_of};
ghost use Rattle.gm_numbers.specs.laws.NimLaws.{tables};

use crate::digits::{digit, digit_in, digits_text, pair_text};
use gm_game::game::Game;
use gm_game::limits::NAME;
use gm_game::position::End;
use gm_game::shown::{Line, Shown};
use gm_pieces::on_numbers::OnNumbers;
use gm_pieces::small_rules::SmallRules;

/// The rules of Nim, in the misère game if `MISERE`.
#[derive(Drop)]
pub struct NimRules<const MISERE: bool>;

/// Nim with heaps of 1, 3, 5 and 7 counters: the player who takes the last counter wins, or loses if `MISERE`.
pub type Nim<const MISERE: bool> = OnNumbers<NimRules<MISERE>>;

// Returns how many sizes a heap can have.
#[tactic(auto, unfolding(crate::specs::Nim::sizes))]
fn sizes(heap: u64) -> u64
    requires { heap < 4 }
    ensures value { result ≡ sizes_of heap }
    ensures some { 0 < result }
    ensures few { result ≤ 8 }
{
    2 * heap + 2
}

// Returns the weight of a heap's digit.
#[tactic(auto, unfolding(crate::specs::Nim::weight))]
fn weight(heap: u64) -> u64
    ensures value { result ≡ weight_of heap }
    ensures some { 0 < result }
    ensures small { result ≤ 192 }
{
    match heap {
        0 => 192,
        1 => 48,
        2 => 8,
        _ => 1,
    }
}

// Returns how many counters a heap has.
#[tactic(auto, unfolding(crate::specs::Nim::heap_of))]
fn heap(board: u64, heap: u64) -> u64
    requires { heap < 4 }
    ensures value { result ≡ heap_of board heap }
    ensures small { result < 8 }
{
    digit(weight(heap), sizes(heap), board)
}

impl<const MISERE: bool> SmallRules for NimRules<MISERE> {
    ghost game = { nim MISERE };

    fn name() -> [u8; NAME] {
        if MISERE {
            *b"nim-misere\0\0\0\0\0\0"
        } else {
            *b"nim\0\0\0\0\0\0\0\0\0\0\0\0\0"
        }
    }

    fn size() -> u64 {
        384
    }

    fn bound() -> u32 {
        32
    }

    fn start() -> u64 {
        383
    }

    fn is_legal_board(board: u64) -> bool {
        board < Self::size()
    }

    fn end_by_last_move(_board: u64) -> Option<End> {
        None
    }

    fn end_if_no_move() -> End {
        if MISERE { End::Win } else { End::Lose }
    }

    #[tactic(auto, unfolding(crate::specs::Nim::can_move))]
    fn can_move(board: u64, number: u64) -> bool {
        let taken = number % 8;
        0 < taken && taken <= heap(board, number / 8)
    }

    #[tactic(auto, unfolding(crate::specs::Nim::moved))]
    fn moved(board: u64, number: u64) -> u64 {
        board.saturating_sub(number % 8 * weight(number / 8))
    }

    #[tactic(auto, unfolding(crate::specs::Nim::can_have_led_here))]
    fn can_have_led_here(board: u64, number: u64) -> bool {
        let taken = number % 8;
        0 < taken && heap(board, number / 8) + taken < sizes(number / 8)
    }

    #[tactic(auto, unfolding(crate::specs::Nim::undo))]
    fn undo(board: u64, number: u64) -> u64 {
        board + number % 8 * weight(number / 8)
    }

    #[tactic(auto, unfolding(crate::specs::Nim::board_text))]
    fn board_text(board: u64) -> Line {
        digits_text(
            heap(board, 0),
            heap(board, 1),
            heap(board, 2),
            heap(board, 3),
        )
    }

    #[tactic(auto, unfolding(crate::specs::Nim::number_in))]
    fn board_in(text: &[u8]) -> u64 {
        digit_in(text, 0) * 192 + digit_in(text, 2) * 48 + digit_in(text, 4) * 8 + digit_in(text, 6)
    }

    #[tactic(auto, unfolding(crate::specs::Nim::step_text))]
    fn move_text(number: u64) -> Line {
        pair_text(number / 8 + 1, number % 8)
    }

    ghost tables = { tables MISERE };
}

/// Nim implements the rules and notation in `specs/`.
pub fn nim_is<const MISERE: bool>()
    ensures rules { ⟦<Nim<MISERE> as Game>⟧.rules ≡ nim_rules MISERE }
    ensures shown { ⟦<Nim<MISERE> as Shown>⟧.shown ≡ nim_text }
    ensures move_shown { ⟦<Nim<MISERE> as Shown>⟧.move_shown ≡ nim_move }
{}
