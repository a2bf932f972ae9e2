//! Stairs: tiers of one position each, and from each tier one move to the tier below.
ghost use Rattle.std.specs.Prelude.{◌≡◌};
ghost use Rattle.std.proofs.Common.{rules};
ghost use Rattle.gm_toys.specs.Subtraction.{step_text};
ghost use Rattle.gm_toys.specs.Stairs.{stairs, tier_text};
ghost use Rattle.gm_toys.specs.laws.StairsLaws.{stairs_lawful, stairs_readable};

use crate::subtraction::{moves_down, read_number, read_step, show_number};
use arrayvec::ArrayVec;
use gm_game::game::Game;
use gm_game::limits::{CHILD_TIERS, MOVES, NAME, PARENTS};
use gm_game::position::{End, Position};
use gm_game::shown::{Line, Shown};

/// How many tiers a move goes down.
const STEP: u32 = 1;

/// Goes down from tier `N`, one tier a move; the player to move at tier 0 has lost. The rules are in docs/GAMES.md.
#[derive(Drop)]
pub struct Stairs<const N: u32>;

impl<const N: u32> Game for Stairs<N> {
    ghost rules = { stairs N };

    ghost lawful = { stairs_lawful N (Prim.search rules) };

    fn name() -> [u8; NAME] {
        *b"stairs\0\0\0\0\0\0\0\0\0\0"
    }

    fn initial() -> Position {
        Position {
            tier: u64::from(N),
            index: 0,
        }
    }

    fn tier_size(tier: u64) -> u64 {
        if tier <= u64::from(N) { 1 } else { 0 }
    }

    fn is_legal(p: Position) -> bool {
        p.tier <= u64::from(N) && p.index == 0
    }

    fn primitive(p: Position) -> Option<End> {
        if p.tier == 0 { Some(End::Lose) } else { None }
    }

    fn moves(p: Position) -> ArrayVec<u32, MOVES> {
        moves_down(STEP, p.tier)
    }

    #[tactic(auto, using(crate::specs::laws::SubtractionLaws::range_in))]
    fn play(p: Position, m: u32) -> Position {
        Position {
            tier: p.tier - u64::from(m),
            index: p.index,
        }
    }

    fn canonical(p: Position) -> Position {
        p
    }

    fn parents(c: Position, tier: u64) -> ArrayVec<u64, PARENTS> {
        let mut list = ArrayVec::new();
        if tier == c.tier + 1 && tier <= u64::from(N) {
            list.push(0);
        }
        list
    }

    fn child_tiers(tier: u64) -> ArrayVec<u64, CHILD_TIERS> {
        let mut list = ArrayVec::new();
        if 0 < tier && tier <= u64::from(N) {
            list.push(tier - 1);
        }
        list
    }

    fn tier_rank(tier: u64) -> u64 {
        tier
    }
}

impl<const N: u32> Shown for Stairs<N> {
    ghost shown = { tier_text };

    ghost move_shown = { step_text };

    ghost readable = { stairs_readable N (Prim.search rules) };

    fn show(p: Position) -> Line {
        show_number(p.tier)
    }

    fn read(text: &[u8]) -> Option<Position> {
        let tier = read_number(u64::from(N), text)?;
        Some(Position { tier, index: 0 })
    }

    fn move_text(_p: Position, m: u32) -> Line {
        show_number(u64::from(m))
    }

    fn read_move(p: Position, text: &[u8]) -> Option<u32> {
        read_step(STEP, p.tier, text)
    }
}

/// Stairs' rules and texts are those that `specs/` states.
pub fn stairs_is<const N: u32>()
    ensures rules { ⟦<Stairs<N> as Game>⟧.rules ≡ stairs N }
    ensures shown { ⟦<Stairs<N> as Shown>⟧.shown ≡ tier_text }
    ensures move_shown { ⟦<Stairs<N> as Shown>⟧.move_shown ≡ step_text }
{}
