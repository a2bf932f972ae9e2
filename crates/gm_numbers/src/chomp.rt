//! Chomp on a bar of 7 columns and 4 rows (docs/GAMES.md, Chomp).
ghost use Rattle.std.specs.Prelude.{◌≡◌, ◌<◌, ◌≤◌, ℕ};
ghost use Rattle.std.specs.List.{range_with_len};
ghost use Rattle.gm_numbers.specs.Chomp.{chomp, chomp_rules, chomp_text, chomp_move, weight as weight_of, row_of, legal, has_square as has_square_of, left_of, bitten as bitten_of, board_text as board_text_of, step_text};
ghost use Rattle.gm_numbers.specs.laws.ChompLaws.{lawful, numbered, symmetric, readable};

use crate::digits::{digit, digit_in, digits_text, pair_text};
use arrayvec::ArrayVec;
use gm_game::game::Game;
use gm_game::limits::{CHILD_TIERS, NAME};
use gm_game::position::{End, Position};
use gm_game::shown::{Line, Shown};
use gm_pieces::candidates::{Candidates, Run};
use gm_pieces::lists::MoveLists;
use gm_pieces::on_boards::OnBoards;
use gm_pieces::rules::MoveRules;

/// How many squares the whole bar has, and how many a row has.
const SQUARES: u64 = 28;

const COLUMNS: u64 = 7;

/// The rules of Chomp.
#[derive(Drop)]
pub struct ChompRules;

/// Chomp. A board is four digits of radix 8: the lengths of the rows.
pub type Chomp = OnBoards<ChompRules>;

// Returns the weight of a row's digit.
#[tactic(auto, unfolding(crate::specs::Chomp::weight))]
fn weight(row: u64) -> u64
    ensures value { result ≡ weight_of row }
    ensures some { 0 < result }
{
    match row {
        0 => 512,
        1 => 64,
        2 => 8,
        _ => 1,
    }
}

// Returns how many squares a row has.
#[tactic(auto, unfolding(crate::specs::Chomp::row_of))]
fn length(bar: u64, row: u64) -> u64
    ensures value { result ≡ row_of bar row }
    ensures small { result < 8 }
{
    digit(weight(row), 8, bar)
}

// Returns whether a square is there.
#[tactic(auto, unfolding(crate::specs::Chomp::has_square))]
fn has_square(bar: u64, square: u64) -> bool
    ensures { result ≡ has_square_of bar square }
{
    square % COLUMNS < length(bar, square / COLUMNS)
}

// Returns how many squares of a row are left after a bite at a square.
#[tactic(auto, unfolding(crate::specs::Chomp::left_of))]
fn left(bar: u64, square: u64, row: u64) -> u64
    ensures value { result ≡ left_of bar square row }
    ensures small { result < 8 }
{
    let length = length(bar, row);
    if row < square / COLUMNS {
        length
    } else {
        length.min(square % COLUMNS)
    }
}

// Returns the bar after a bite at a square.
#[tactic(auto, unfolding(crate::specs::Chomp::bitten))]
fn bitten(bar: u64, square: u64) -> u64
    ensures { result ≡ bitten_of bar square }
{
    512 * left(bar, square, 0)
        + 64 * left(bar, square, 1)
        + 8 * left(bar, square, 2)
        + left(bar, square, 3)
}

// Returns whether a number is a bar: no row is longer than the one above it.
#[tactic(auto, unfolding(crate::specs::Chomp::legal))]
fn is_bar(bar: u64) -> bool
    ensures { result ≡ legal bar }
{
    bar < 4096
        && (length(bar, 1) <= length(bar, 0)
            && (length(bar, 2) <= length(bar, 1) && length(bar, 3) <= length(bar, 2)))
}

// Returns the numbers below a length of a row, ascending.
#[tactic(auto, using(gm_board::specs::laws::Lists::range_more))]
fn shorter(length: u64) -> ArrayVec<u64, CHILD_TIERS>
    requires { length < 8 }
    ensures { result.items ≡ range_with_len 0 length }
{
    let mut list = ArrayVec::new();
    for less in 0..length {
        list.push(less);
    }
    list
}

impl MoveRules for ChompRules {
    ghost Cells = { ℕ };

    ghost Symmetry = { ℕ };

    ghost game = { chomp };

    type Board = u64;

    ghost cells = { λ b. b };

    ghost text = { board_text_of };

    ghost step_text = { λ t m. step_text m };

    fn name() -> [u8; NAME] {
        *b"chomp\0\0\0\0\0\0\0\0\0\0\0"
    }

    fn initial() -> Position {
        Position {
            tier: 7,
            index: 511,
        }
    }

    #[tactic(auto, unfolding(crate::specs::Chomp::size_at))]
    fn tier_size(tier: u64) -> u64 {
        if tier < 8 { 512 } else { 0 }
    }

    #[tactic(auto, unfolding(crate::specs::Chomp::child_tiers_of))]
    fn child_tiers(tier: u64) -> ArrayVec<u64, CHILD_TIERS> {
        if tier < 8 {
            shorter(tier)
        } else {
            ArrayVec::new()
        }
    }

    fn tier_rank(tier: u64) -> u64 {
        tier
    }

    fn move_number_bound(_tier: u64) -> u32 {
        14336
    }

    fn board(tier: u64, index: u64) -> u64 {
        512 * tier + index
    }

    fn is_legal_board(board: u64) -> bool {
        is_bar(board)
    }

    fn tier(board: u64) -> u64 {
        board / 512
    }

    fn index(board: u64) -> u64 {
        board % 512
    }

    fn least_index(board: u64) -> u64 {
        board % 512
    }

    fn end_by_last_move(_board: u64) -> Option<End> {
        None
    }

    fn end_if_no_move(_board: u64) -> End {
        End::Win
    }

    #[tactic(auto, unfolding(crate::specs::Chomp::can_move))]
    fn can_move(board: u64, number: u32) -> bool {
        let number = u64::from(number);
        number / SQUARES == board % 512 && has_square(board, number % SQUARES)
    }

    fn candidates(board: u64) -> Candidates {
        Candidates::one(Run {
            first: 28 * (board % 512) as u32,
            step: 1,
            count: 28,
        })
    }

    #[tactic(auto, unfolding(crate::specs::Chomp::moved))]
    fn moved(board: u64, number: u32) -> u64 {
        bitten(board, u64::from(number) % SQUARES)
    }

    #[tactic(auto, unfolding(crate::specs::Chomp::can_have_led_here))]
    fn can_have_led_here(tier: u64, board: u64, number: u32) -> bool {
        if tier >= 8 {
            return false;
        }
        let number = u64::from(number);
        let before = 512 * tier + number / SQUARES;
        let square = number % SQUARES;
        is_bar(before) && (has_square(before, square) && bitten(before, square) == board)
    }

    #[tactic(auto, using(crate::specs::laws::ChompLaws::tier_before))]
    fn undo(tier: u64, _board: u64, number: u32) -> u64 {
        512 * tier + u64::from(number) / SQUARES
    }

    #[tactic(auto, unfolding(crate::specs::Chomp::board_text))]
    fn board_text(board: u64) -> Line {
        digits_text(
            length(board, 0),
            length(board, 1),
            length(board, 2),
            length(board, 3),
        )
    }

    #[tactic(auto, using(crate::specs::laws::ChompLaws::told), unfolding(crate::specs::Chomp::number_in))]
    fn board_in(bytes: &[u8]) -> u64 {
        digit_in(bytes, 0) * 512
            + digit_in(bytes, 2) * 64
            + digit_in(bytes, 4) * 8
            + digit_in(bytes, 6)
    }

    #[tactic(auto, unfolding(crate::specs::Chomp::step_text))]
    fn move_text(_board: u64, number: u32) -> Line {
        let square = u64::from(number) % SQUARES;
        pair_text(square / COLUMNS + 1, square % COLUMNS + 1)
    }

    ghost lawful = { lawful };

    ghost numbered = { numbered };

    ghost symmetric = { symmetric };

    ghost readable = { readable };
}

impl MoveLists for ChompRules {}

/// Chomp implements the rules and notation in `specs/`.
pub fn chomp_is()
    ensures rules { ⟦<Chomp as Game>⟧.rules ≡ chomp_rules }
    ensures shown { ⟦<Chomp as Shown>⟧.shown ≡ chomp_text }
    ensures move_shown { ⟦<Chomp as Shown>⟧.move_shown ≡ chomp_move }
{}
