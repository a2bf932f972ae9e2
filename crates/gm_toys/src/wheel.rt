//! Wheel: ten numbers, and moves between them that can go round forever.
ghost use Rattle.std.specs.Prelude.{◌≡◌, ◌↔◌, ◌<◌, ◌≤◌, length};
ghost use Rattle.gm_toys.specs.Lower.{ℕ, Some, IsTrue, Contains, decimal};
ghost use Rattle.gm_toys.specs.Subtraction.{number_text};
ghost use Rattle.gm_toys.specs.Wheel.{wheel, wheel_targets, wheel_sources, target_text};
ghost use Rattle.gm_toys.specs.laws.WheelLaws.{wheel_lawful, wheel_readable};

use crate::subtraction::{read_number, show_number};
use arrayvec::ArrayVec;
use gm_game::game::Game;
use gm_game::limits::{CHILD_TIERS, MOVES, NAME, PARENTS};
use gm_game::position::{End, Position};
use gm_game::shown::{Line, Shown};

/// How many numbers there are.
const SIZE: u64 = 10;

/// The greatest number, which the game starts from.
const START: u64 = 9;

/// Ten numbers with moves between them, some of which go round forever: a game with every value. The rules are in docs/GAMES.md.
#[derive(Drop)]
pub struct Wheel;

// Returns the targets of the moves from a number.
fn targets(index: u64) -> &'static [u32]
    ensures value { result.now ≡ wheel_targets index }
    ensures few { length result.now ≤ 2 }
{
    match index {
        1 => &[0, 2],
        2 => &[1, 3],
        3 => &[4],
        4 => &[3],
        6 => &[0, 5],
        7 => &[6],
        8 => &[3, 6],
        9 => &[1, 7],
        _ => &[],
    }
}

// Returns the numbers from which a move leads to this one.
fn sources(index: u64) -> &'static [u64]
    ensures value { result.now ≡ wheel_sources index }
    ensures few { length result.now ≤ 3 }
{
    match index {
        0 => &[1, 6],
        1 => &[2, 9],
        2 => &[1],
        3 => &[2, 4, 8],
        4 => &[3],
        5 => &[6],
        6 => &[7, 8],
        7 => &[9],
        _ => &[],
    }
}

// Returns whether a move leads from the one number to the other.
fn is_target(index: u64, number: u32) -> bool
    ensures { IsTrue result ↔ Contains (wheel_targets index) number }
{
    targets(index).contains(&number)
}

// Returns the move from a number with this text.
#[tactic(auto, using(crate::specs::laws::WheelLaws::target_in))]
fn read_target(index: u64, text: &[u8]) -> Option<u32>
    requires { index < 10 }
    ensures { (m : ℕ) → (result ≡ Some m) ↔ (Contains (wheel_targets index) m × (decimal m ≡ text.now)) }
{
    let target = read_number(START, text)? as u32;
    if is_target(index, target) {
        Some(target)
    } else {
        None
    }
}

impl Game for Wheel {
    ghost rules = { wheel };

    ghost lawful = { wheel_lawful };

    fn name() -> [u8; NAME] {
        *b"wheel\0\0\0\0\0\0\0\0\0\0\0"
    }

    fn initial() -> Position {
        Position {
            tier: 0,
            index: START,
        }
    }

    fn tier_size(tier: u64) -> u64 {
        if tier == 0 { SIZE } else { 0 }
    }

    fn is_legal(p: Position) -> bool {
        p.tier == 0 && p.index < SIZE
    }

    fn primitive(p: Position) -> Option<End> {
        match p.index {
            0 => Some(End::Tie),
            5 => Some(End::Lose),
            _ => None,
        }
    }

    fn moves(p: Position) -> ArrayVec<u32, MOVES> {
        let mut list = ArrayVec::new();
        let _fits = list.try_extend_from_slice(targets(p.index));
        list
    }

    fn play(p: Position, m: u32) -> Position {
        Position {
            tier: p.tier,
            index: u64::from(m),
        }
    }

    fn canonical(p: Position) -> Position {
        p
    }

    fn parents(c: Position, tier: u64) -> ArrayVec<u64, PARENTS> {
        let mut list = ArrayVec::new();
        if tier == 0 {
            let _fits = list.try_extend_from_slice(sources(c.index));
        }
        list
    }

    fn child_tiers(_tier: u64) -> ArrayVec<u64, CHILD_TIERS> {
        ArrayVec::new()
    }

    fn tier_rank(_tier: u64) -> u64 {
        0
    }
}

impl Shown for Wheel {
    ghost shown = { number_text };

    ghost move_shown = { target_text };

    ghost readable = { wheel_readable };

    fn show(p: Position) -> Line {
        show_number(p.index)
    }

    fn read(text: &[u8]) -> Option<Position> {
        let index = read_number(START, text)?;
        Some(Position { tier: 0, index })
    }

    fn move_text(_p: Position, m: u32) -> Line {
        show_number(u64::from(m))
    }

    fn read_move(p: Position, text: &[u8]) -> Option<u32> {
        read_target(p.index, text)
    }
}

/// Wheel's rules and texts are those that `specs/` states.
pub fn wheel_is()
    ensures rules { ⟦<Wheel as Game>⟧.rules ≡ wheel }
    ensures shown { ⟦<Wheel as Shown>⟧.shown ≡ number_text }
    ensures move_shown { ⟦<Wheel as Shown>⟧.move_shown ≡ target_text }
{}
