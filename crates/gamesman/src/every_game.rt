//! The lines of the page of all games: those that the engine solves, those with the most to see first.
ghost use Rattle.std.specs.Prelude.{◌≡◌, ◌++◌, OnOk};
ghost use Rattle.std.specs.List.{flat_map};
ghost use Rattle.gamesman.specs.Engines.{game_line, line_games, row_games, board_games, chase_games, tactix_games, taking_games, number_games, engine_games};

use gm_connect::connect::ConnectFour;
use gm_dao::dao::Dao;
use gm_dodgem::dodgem::Dodgem;
use gm_dominoes::cram::CramFour;
use gm_dominoes::domineering::DomineeringFour;
use gm_dominoes::kayles::Kayles;
use gm_hare::hare::Hare;
use gm_morris::games::{Achi, ThreeMens, TicTacToe};
use gm_mutorere::mutorere::MuTorere;
use gm_numbers::chomp::Chomp;
use gm_numbers::nim::Nim;
use gm_page::page::push_game;
use gm_placing::hex::HexThree;
use gm_placing::rows::{Notakto, TicTacToeMisere};
use gm_pong::pong::Pong;
use gm_sliding::hexapawn::Hexapawn;
use gm_sliding::nine::{NineHoles, Picaria};
use gm_sliding::toads::Toads;
use gm_squares::chess::{Kqk, Krk};
use gm_squares::kpk::Kpk;
use gm_tactix::tactix::TacTix;
use gm_toys::countdown::Countdown;
use gm_toys::takeaway::Takeaway;
use gm_toys::wheel::Wheel;
use gm_ways::shisima::Shisima;
use gm_ways::tapatan::Tapatan;
use std::alloc::{AllocError, Global};

/// Appends the lines of all games that the engine solves.
pub fn push_games(alloc: Global, page: &mut Vec<u8>) -> Result<(), AllocError>
    ensures { OnOk result (page.new.items ≡ page.old.items ++ flat_map game_line engine_games) }
{
    push_lines(alloc, page)?;
    push_rows(alloc, page)?;
    push_boards(alloc, page)?;
    push_chases(alloc, page)?;
    push_tactix(alloc, page)?;
    push_takings(alloc, page)?;
    push_numbers(alloc, page)
}

// Appends the lines of the games on squares in which a row wins.
fn push_lines(alloc: Global, page: &mut Vec<u8>) -> Result<(), AllocError>
    ensures { OnOk result (page.new.items ≡ page.old.items ++ flat_map game_line line_games) }
{
    push_game::<TicTacToe>(alloc, page)?;
    push_game::<Dao>(alloc, page)?;
    push_game::<Achi>(alloc, page)?;
    push_game::<ThreeMens>(alloc, page)
}

// Appends the lines of the other games of rows.
fn push_rows(alloc: Global, page: &mut Vec<u8>) -> Result<(), AllocError>
    ensures { OnOk result (page.new.items ≡ page.old.items ++ flat_map game_line row_games) }
{
    push_game::<ConnectFour<4, 4>>(alloc, page)?;
    push_game::<NineHoles>(alloc, page)?;
    push_game::<Picaria>(alloc, page)?;
    push_game::<TicTacToeMisere>(alloc, page)?;
    push_game::<Notakto>(alloc, page)
}

// Appends the lines of the other games on boards.
fn push_boards(alloc: Global, page: &mut Vec<u8>) -> Result<(), AllocError>
    ensures { OnOk result (page.new.items ≡ page.old.items ++ flat_map game_line board_games) }
{
    push_game::<MuTorere>(alloc, page)?;
    push_game::<Hare>(alloc, page)?;
    push_game::<Shisima>(alloc, page)?;
    push_game::<Pong>(alloc, page)?;
    push_game::<Tapatan>(alloc, page)?;
    push_game::<Dodgem>(alloc, page)?;
    push_game::<Krk>(alloc, page)?;
    push_game::<Kqk>(alloc, page)
}

// Appends the lines of the games in which men are chased or joined.
fn push_chases(alloc: Global, page: &mut Vec<u8>) -> Result<(), AllocError>
    ensures { OnOk result (page.new.items ≡ page.old.items ++ flat_map game_line chase_games) }
{
    push_game::<Kpk>(alloc, page)?;
    push_game::<Hexapawn>(alloc, page)?;
    push_game::<Toads>(alloc, page)?;
    push_game::<HexThree>(alloc, page)
}

// Appends the lines of Tac Tix.
fn push_tactix(alloc: Global, page: &mut Vec<u8>) -> Result<(), AllocError>
    ensures { OnOk result (page.new.items ≡ page.old.items ++ flat_map game_line tactix_games) }
{
    push_game::<TacTix<4, false>>(alloc, page)?;
    push_game::<TacTix<4, true>>(alloc, page)?;
    push_game::<TacTix<3, false>>(alloc, page)?;
    push_game::<TacTix<3, true>>(alloc, page)?;
    push_game::<TacTix<2, false>>(alloc, page)?;
    push_game::<TacTix<2, true>>(alloc, page)?;
    push_game::<TacTix<1, false>>(alloc, page)?;
    push_game::<TacTix<1, true>>(alloc, page)
}

// Appends the lines of the other games of taking and of filling.
fn push_takings(alloc: Global, page: &mut Vec<u8>) -> Result<(), AllocError>
    ensures { OnOk result (page.new.items ≡ page.old.items ++ flat_map game_line taking_games) }
{
    push_game::<DomineeringFour>(alloc, page)?;
    push_game::<CramFour>(alloc, page)?;
    push_game::<Kayles>(alloc, page)?;
    push_game::<Nim<false>>(alloc, page)?;
    push_game::<Nim<true>>(alloc, page)?;
    push_game::<Chomp>(alloc, page)
}

// Appends the lines of the games on numbers.
fn push_numbers(alloc: Global, page: &mut Vec<u8>) -> Result<(), AllocError>
    ensures { OnOk result (page.new.items ≡ page.old.items ++ flat_map game_line number_games) }
{
    push_game::<Countdown<10>>(alloc, page)?;
    push_game::<Takeaway>(alloc, page)?;
    push_game::<Wheel>(alloc, page)
}
