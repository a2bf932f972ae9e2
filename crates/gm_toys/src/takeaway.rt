//! Takeaway: twelve counters, one to three are taken at a time, and the player who takes the last one wins.
ghost use Rattle.std.specs.Prelude.{◌≡◌, refl};
ghost use Rattle.std.proofs.Common.{rules};
ghost use Rattle.gm_toys.specs.Subtraction.{number_text, step_text};
ghost use Rattle.gm_toys.specs.laws.SubtractionLaws.{subtraction_lawful, subtraction_readable};
ghost use Rattle.gm_toys.specs.Takeaway.{takeaway, takeaway_name};

use crate::subtraction::{moves_down, numbers_above, read_number, read_step, show_number};
use arrayvec::ArrayVec;
use gm_game::game::Game;
use gm_game::limits::{CHILD_TIERS, MOVES, NAME, PARENTS};
use gm_game::position::{End, Position};
use gm_game::shown::{Line, Shown};

/// How many counters there are at the start.
const COUNTERS: u64 = 12;

/// The most that may be taken at a time.
const MOST: u32 = 3;

/// Takeaway: a position is the number of counters left, and a move the number of counters taken.
#[derive(Drop)]
pub struct Takeaway;

impl Game for Takeaway {
    ghost rules = { takeaway };

    ghost lawful = { subtraction_lawful takeaway_name 3 12 refl refl (Prim.search rules) (Prim.search rules) (Prim.search rules) };

    fn name() -> [u8; NAME] {
        *b"takeaway\0\0\0\0\0\0\0\0"
    }

    fn initial() -> Position {
        Position {
            tier: 0,
            index: COUNTERS,
        }
    }

    fn tier_size(tier: u64) -> u64 {
        if tier == 0 { COUNTERS + 1 } else { 0 }
    }

    fn is_legal(p: Position) -> bool {
        p.tier == 0 && p.index <= COUNTERS
    }

    fn primitive(p: Position) -> Option<End> {
        if p.index == 0 { Some(End::Lose) } else { None }
    }

    fn moves(p: Position) -> ArrayVec<u32, MOVES> {
        moves_down(MOST, p.index)
    }

    fn play(p: Position, m: u32) -> Position {
        Position {
            tier: p.tier,
            index: p.index - u64::from(m),
        }
    }

    fn canonical(p: Position) -> Position {
        p
    }

    fn parents(c: Position, tier: u64) -> ArrayVec<u64, PARENTS> {
        if tier == 0 {
            numbers_above(MOST, COUNTERS, c.index)
        } else {
            ArrayVec::new()
        }
    }

    fn child_tiers(_tier: u64) -> ArrayVec<u64, CHILD_TIERS> {
        ArrayVec::new()
    }

    fn tier_rank(_tier: u64) -> u64 {
        0
    }
}

impl Shown for Takeaway {
    ghost shown = { number_text };

    ghost move_shown = { step_text };

    ghost readable = { subtraction_readable takeaway_name 3 12 (Prim.search rules) };

    fn show(p: Position) -> Line {
        show_number(p.index)
    }

    fn read(text: &[u8]) -> Option<Position> {
        let index = read_number(COUNTERS, text)?;
        Some(Position { tier: 0, index })
    }

    fn move_text(_p: Position, m: u32) -> Line {
        show_number(u64::from(m))
    }

    fn read_move(p: Position, text: &[u8]) -> Option<u32> {
        read_step(MOST, p.index, text)
    }
}

/// Takeaway's rules and texts are those that `specs/` states.
pub fn takeaway_is()
    ensures rules { ⟦<Takeaway as Game>⟧.rules ≡ takeaway }
    ensures shown { ⟦<Takeaway as Shown>⟧.shown ≡ number_text }
    ensures move_shown { ⟦<Takeaway as Shown>⟧.move_shown ≡ step_text }
{}
