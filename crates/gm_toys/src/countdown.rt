//! Countdown and Chain: a number that goes down by one or two, or by one.
ghost use Rattle.std.specs.Prelude.{◌≡◌, ◌≤◌};
ghost use Rattle.std.proofs.Common.{rules};
ghost use Rattle.gm_toys.specs.Subtraction.{number_text, step_text};
ghost use Rattle.gm_toys.specs.laws.SubtractionLaws.{subtraction_readable};
ghost use Rattle.gm_toys.specs.Countdown.{countdown};
ghost use Rattle.gm_toys.specs.laws.DownLaws.{name_of, most_of, counts_down, down_lawful};

use crate::subtraction::{moves_down, numbers_above, read_number, read_step, show_number};
use arrayvec::ArrayVec;
use gm_game::game::Game;
use gm_game::limits::{CHILD_TIERS, MOVES, NAME, PARENTS};
use gm_game::position::{End, Position};
use gm_game::shown::{Line, Shown};

/// Counts down from `N` by one or two, or by one without `TWO`; the player to move at zero has lost. The rules are in docs/GAMES.md.
#[derive(Drop)]
pub struct CountsDown<const TWO: bool, const N: u32>;

/// Counts down from `N` by one or two.
pub type Countdown<const N: u32> = CountsDown<true, N>;

// Returns how many may be taken at a time.
fn most(two: bool) -> u32
    ensures value { result ≡ most_of two }
    ensures few { result ≤ 2 }
{
    if two { 2 } else { 1 }
}

impl<const TWO: bool, const N: u32> Game for CountsDown<TWO, N> {
    ghost rules = { counts_down TWO N };

    ghost lawful = { down_lawful TWO N (Prim.search rules) };

    fn name() -> [u8; NAME] {
        if TWO {
            *b"countdown\0\0\0\0\0\0\0"
        } else {
            *b"chain\0\0\0\0\0\0\0\0\0\0\0"
        }
    }

    fn initial() -> Position {
        Position {
            tier: 0,
            index: u64::from(N),
        }
    }

    fn tier_size(tier: u64) -> u64 {
        if tier == 0 { u64::from(N) + 1 } else { 0 }
    }

    fn is_legal(p: Position) -> bool {
        p.tier == 0 && p.index <= u64::from(N)
    }

    fn primitive(p: Position) -> Option<End> {
        if p.index == 0 { Some(End::Lose) } else { None }
    }

    fn moves(p: Position) -> ArrayVec<u32, MOVES> {
        moves_down(most(TWO), p.index)
    }

    fn play(p: Position, m: u32) -> Position {
        Position {
            tier: p.tier,
            index: p.index - u64::from(m),
        }
    }

    fn canonical(p: Position) -> Position {
        p
    }

    fn parents(c: Position, tier: u64) -> ArrayVec<u64, PARENTS> {
        if tier == 0 {
            numbers_above(most(TWO), u64::from(N), c.index)
        } else {
            ArrayVec::new()
        }
    }

    fn child_tiers(_tier: u64) -> ArrayVec<u64, CHILD_TIERS> {
        ArrayVec::new()
    }

    fn tier_rank(_tier: u64) -> u64 {
        0
    }
}

impl<const TWO: bool, const N: u32> Shown for CountsDown<TWO, N> {
    ghost shown = { number_text };

    ghost move_shown = { step_text };

    ghost readable = { subtraction_readable (name_of TWO) (most_of TWO) N (Prim.search rules) };

    fn show(p: Position) -> Line {
        show_number(p.index)
    }

    fn read(text: &[u8]) -> Option<Position> {
        let index = read_number(u64::from(N), text)?;
        Some(Position { tier: 0, index })
    }

    fn move_text(_p: Position, m: u32) -> Line {
        show_number(u64::from(m))
    }

    fn read_move(p: Position, text: &[u8]) -> Option<u32> {
        read_step(most(TWO), p.index, text)
    }
}

/// Countdown's rules and texts are those that `specs/` states.
pub fn countdown_is<const N: u32>()
    ensures rules { ⟦<Countdown<N> as Game>⟧.rules ≡ countdown N }
    ensures shown { ⟦<Countdown<N> as Shown>⟧.shown ≡ number_text }
    ensures move_shown { ⟦<Countdown<N> as Shown>⟧.move_shown ≡ step_text }
{}
