//! Dodgem on three by three, with two cars a side (docs/GAMES.md, Dodgem).
ghost use Rattle.std.specs.Prelude.{◌≡◌, ◌<◌};
ghost use Rattle.gm_dodgem.specs.Dodgem.{dodgem, dodgem_rules, holds as holds_of, crew_of as crew_of_cars, driven as driven_of, is_crew as is_crew_of, across as across_of, leads as leads_of, is_clear as is_clear_of, cell_byte as cell_byte_of, marked_or as picked_of, crew_in as crew_in_of, dodgem_text, dodgem_move};
ghost use Rattle.gm_dodgem.specs.laws.DodgemLaws.{tables};

use arrayvec::ArrayVec;
use gm_board::square::square_cell_text;
use gm_game::game::Game;
use gm_game::limits::NAME;
use gm_game::position::End;
use gm_game::shown::{Line, Shown};
use gm_game::text::push_text;
use gm_pieces::on_numbers::OnNumbers;
use gm_pieces::small_rules::SmallRules;
use gm_pieces::text::has_mark;

/// A car that is off the board.
const OFF: u64 = 9;

/// The rules of Dodgem.
#[derive(Drop)]
pub struct DodgemRules;

/// Dodgem. A board is four digits: the cells of the mover's two cars, and those of the other side's.
pub type Dodgem = OnNumbers<DodgemRules>;

// Returns whether a crew has a car on a cell.
#[tactic(auto, unfolding(crate::specs::Dodgem::holds))]
fn holds(crew: u64, cell: u64) -> bool
    ensures { result ≡ holds_of crew cell }
{
    crew / 10 == cell || crew % 10 == cell
}

// Returns the crew of two cars.
#[tactic(auto, unfolding(crate::specs::Dodgem::crew_of))]
fn crew_of(one: u64, other: u64) -> u64
    requires one { one < 10 }
    requires other { other < 10 }
    ensures value { result ≡ crew_of_cars one other }
    ensures small { result < 100 }
{
    if one < other {
        10 * one + other
    } else {
        10 * other + one
    }
}

// Returns the crew after its car has gone from one cell to another.
#[tactic(auto, unfolding(crate::specs::Dodgem::driven))]
fn driven(crew: u64, from: u64, to: u64) -> u64
    requires crew { crew < 100 }
    requires to { to < 10 }
    ensures value { result ≡ driven_of crew from to }
    ensures small { result < 100 }
{
    if crew / 10 == from {
        crew_of(to, crew % 10)
    } else {
        crew_of(crew / 10, to)
    }
}

// Returns whether this is the number of a crew.
#[tactic(auto, unfolding(crate::specs::Dodgem::is_crew))]
fn is_crew(crew: u64) -> bool
    ensures { result ≡ is_crew_of crew }
{
    crew / 10 < crew % 10 || crew == 99
}

// Returns a cell as the other side sees it.
#[tactic(auto, unfolding(crate::specs::Dodgem::across))]
fn across(cell: u64) -> u64
    requires { cell < 10 }
    ensures { result ≡ across_of cell }
{
    3 * (cell % 3) + cell / 3
}

// Returns whether a car can go from one cell to another, or off the board.
#[tactic(auto, unfolding(crate::specs::Dodgem::leads))]
fn leads(from: u64, to: u64) -> bool
    requires from { from < 10 }
    requires to { to < 10 }
    ensures { result ≡ leads_of from to }
{
    if to == OFF {
        from % 3 == 2
    } else {
        (from + 1 == to && from % 3 != 2) || (from + 3 == to || to + 3 == from)
    }
}

// Returns whether the other side's crew leaves a cell free.
#[tactic(auto, unfolding(crate::specs::Dodgem::is_clear))]
fn is_clear(theirs: u64, cell: u64) -> bool
    requires { cell < 10 }
    ensures { result ≡ is_clear_of theirs cell }
{
    cell == OFF || !holds(theirs, across(cell))
}

// Returns the byte of a cell.
#[tactic(auto, unfolding(crate::specs::Dodgem::cell_byte))]
fn cell_byte(board: u64, cell: u64) -> u8
    requires { cell < 9 }
    ensures { result ≡ cell_byte_of board cell }
{
    if holds(board / 100, cell) {
        b'x'
    } else if holds(board % 100, across(cell)) {
        b'o'
    } else {
        b'.'
    }
}

// Returns the cell if the byte of the place is the mark, else `rest`.
#[tactic(auto, unfolding(crate::specs::Dodgem::marked_or))]
fn picked(text: &[u8], mark: u8, place: u32, cell: u64, rest: u64) -> u64
    requires cell { cell < 10 }
    requires rest { rest < 10 }
    requires mark { 0 < mark }
    ensures value { result ≡ picked_of text.now mark place cell rest }
    ensures small { result < 10 }
{
    if has_mark(text, mark, place) {
        cell
    } else {
        rest
    }
}

// Returns the crew with this mark in a text: the first and the last cell that have it.
#[tactic(auto, unfolding(crate::specs::Dodgem::crew_in))]
fn crew_in(text: &[u8], mark: u8, places: &[u32; 9]) -> u64
    requires { 0 < mark }
    ensures value { result ≡ crew_in_of text.now mark places.now }
    ensures small { result < 100 }
{
    let first = picked(text, mark, places[8], 8, OFF);
    let first = picked(text, mark, places[7], 7, first);
    let first = picked(text, mark, places[6], 6, first);
    let first = picked(text, mark, places[5], 5, first);
    let first = picked(text, mark, places[4], 4, first);
    let first = picked(text, mark, places[3], 3, first);
    let first = picked(text, mark, places[2], 2, first);
    let first = picked(text, mark, places[1], 1, first);
    let first = picked(text, mark, places[0], 0, first);
    let last = picked(text, mark, places[0], 0, OFF);
    let last = picked(text, mark, places[1], 1, last);
    let last = picked(text, mark, places[2], 2, last);
    let last = picked(text, mark, places[3], 3, last);
    let last = picked(text, mark, places[4], 4, last);
    let last = picked(text, mark, places[5], 5, last);
    let last = picked(text, mark, places[6], 6, last);
    let last = picked(text, mark, places[7], 7, last);
    let last = picked(text, mark, places[8], 8, last);
    if first == last {
        10 * first + 9
    } else {
        10 * first + last
    }
}

impl SmallRules for DodgemRules {
    ghost game = { dodgem };

    fn name() -> [u8; NAME] {
        *b"dodgem\0\0\0\0\0\0\0\0\0\0"
    }

    fn size() -> u64 {
        9900
    }

    fn bound() -> u32 {
        90
    }

    fn start() -> u64 {
        3636
    }

    #[tactic(auto, unfolding(crate::specs::Dodgem::legal))]
    fn is_legal_board(board: u64) -> bool {
        board < Self::size()
            && (is_crew(board / 100)
                && (is_crew(board % 100)
                    && (is_clear(board % 100, board / 1000)
                        && is_clear(board % 100, board / 100 % 10))))
    }

    #[tactic(auto, unfolding(crate::specs::Dodgem::end_by_last_move))]
    fn end_by_last_move(board: u64) -> Option<End> {
        if board % 100 == 99 {
            Some(End::Lose)
        } else {
            None
        }
    }

    fn end_if_no_move() -> End {
        End::Win
    }

    #[tactic(auto, unfolding(crate::specs::Dodgem::can_move))]
    fn can_move(board: u64, number: u64) -> bool {
        let from = number / 10;
        let to = number % 10;
        holds(board / 100, from)
            && (leads(from, to)
                && (is_clear(board % 100, to) && (to == OFF || !holds(board / 100, to))))
    }

    #[tactic(auto, unfolding(crate::specs::Dodgem::moved))]
    fn moved(board: u64, number: u64) -> u64 {
        board % 100 * 100 + driven(board / 100, number / 10, number % 10)
    }

    #[tactic(auto, unfolding(crate::specs::Dodgem::can_have_led_here))]
    fn can_have_led_here(board: u64, number: u64) -> bool {
        let from = number / 10;
        let to = number % 10;
        holds(board % 100, to)
            && (leads(from, to) && (is_clear(board / 100, from) && !holds(board % 100, from)))
    }

    #[tactic(auto, unfolding(crate::specs::Dodgem::undo))]
    fn undo(board: u64, number: u64) -> u64 {
        driven(board % 100, number % 10, number / 10) * 100 + board / 100
    }

    #[tactic(auto, unfolding(crate::specs::Dodgem::board_text))]
    fn board_text(board: u64) -> Line {
        let cells = [
            cell_byte(board, 0),
            cell_byte(board, 1),
            cell_byte(board, 2),
            cell_byte(board, 3),
            cell_byte(board, 4),
            cell_byte(board, 5),
            cell_byte(board, 6),
            cell_byte(board, 7),
            cell_byte(board, 8),
        ];
        let mut line = ArrayVec::new();
        push_text(&mut line, &cells);
        line
    }

    #[tactic(auto, unfolding(crate::specs::Dodgem::number_in))]
    fn board_in(text: &[u8]) -> u64 {
        crew_in(text, b'x', &[0, 1, 2, 3, 4, 5, 6, 7, 8]) * 100
            + crew_in(text, b'o', &[0, 3, 6, 1, 4, 7, 2, 5, 8])
    }

    #[tactic(auto, unfolding(crate::specs::Dodgem::step_text))]
    fn move_text(number: u64) -> Line {
        let mut line = ArrayVec::new();
        push_text(&mut line, &square_cell_text(3, (number / 10) as u32));
        let to = number % 10;
        if to != OFF {
            push_text(&mut line, b"-");
            push_text(&mut line, &square_cell_text(3, to as u32));
        }
        line
    }

    ghost tables = { tables };
}

/// Dodgem implements the rules and notation in `specs/`.
pub fn dodgem_is()
    ensures rules { ⟦<Dodgem as Game>⟧.rules ≡ dodgem_rules }
    ensures shown { ⟦<Dodgem as Shown>⟧.shown ≡ dodgem_text }
    ensures move_shown { ⟦<Dodgem as Shown>⟧.move_shown ≡ dodgem_move }
{}
