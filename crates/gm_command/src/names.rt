//! The games of the program and their names.
ghost use Rattle.std.specs.Prelude.{◌≡◌};
ghost use Rattle.gm_command.specs.Names.{game_among, game_of_name};

use std::alloc::{AllocError, Global};
use strsim::jaro;

/// A game of the program.
#[derive(Clone, Copy, Debug, PartialEq, Eq)]
pub enum GameName {
    Countdown,
    Wheel,
    TacTix1,
    TacTix2,
    TacTix3,
    TacTix4,
    TacTix5,
    TacTix1Misere,
    TacTix2Misere,
    TacTix3Misere,
    TacTix4Misere,
    TacTix5Misere,
    TicTacToe,
    ThreeMens,
    Achi,
    MuTorere,
    Dao,
    Hare,
    PongHauKi,
    Shisima,
    Takeaway,
    Tapatan,
    Dodgem,
    Krk,
    Kqk,
    FoxHounds,
    TicTacToeMisere,
    TicTacToe4,
    Notakto,
    Hex3,
    Hex4,
    Sim,
    Hexapawn,
    Hexapawn4,
    NineHoles,
    Picaria,
    Clobber,
    Toads,
    Kono,
    Domineering4,
    Domineering5,
    Cram4,
    Cram5,
    Kayles,
    Kpk,
    Connect4x4,
    Connect5x4,
    Connect4x5,
    Connect4x6,
    Connect5x5,
    Connect6x4,
    Nim,
    NimMisere,
    Chomp,
}

/// Calls a macro with all games: each has its name, its variant and its type. First come those that `list` prints, in its order,
/// which doesn't change, since scripts read it. Those that were added later, in a second group, are printed by `list --all` after
/// them. Further words of the call are passed on in brackets.
#[macro_export]
macro_rules! with_games {
    ($each:ident $($words:tt)*) => {
        $each! {
            [$($words)*]
            {
                "countdown" => Countdown: gm_toys::countdown::Countdown<10>,
                "wheel" => Wheel: gm_toys::wheel::Wheel,
                "tactix-1" => TacTix1: gm_tactix::tactix::TacTix<1, false>,
                "tactix-2" => TacTix2: gm_tactix::tactix::TacTix<2, false>,
                "tactix-3" => TacTix3: gm_tactix::tactix::TacTix<3, false>,
                "tactix-4" => TacTix4: gm_tactix::tactix::TacTix<4, false>,
                "tactix-5" => TacTix5: gm_tactix::tactix::TacTix<5, false>,
                "tactix-1-misere" => TacTix1Misere: gm_tactix::tactix::TacTix<1, true>,
                "tactix-2-misere" => TacTix2Misere: gm_tactix::tactix::TacTix<2, true>,
                "tactix-3-misere" => TacTix3Misere: gm_tactix::tactix::TacTix<3, true>,
                "tactix-4-misere" => TacTix4Misere: gm_tactix::tactix::TacTix<4, true>,
                "tactix-5-misere" => TacTix5Misere: gm_tactix::tactix::TacTix<5, true>,
                "tictactoe" => TicTacToe: gm_morris::games::TicTacToe,
                "threemens" => ThreeMens: gm_morris::games::ThreeMens,
                "achi" => Achi: gm_morris::games::Achi,
                "mutorere" => MuTorere: gm_mutorere::mutorere::MuTorere,
                "dao" => Dao: gm_dao::dao::Dao,
                "hare" => Hare: gm_hare::hare::Hare,
            }
            {
                "ponghauki" => PongHauKi: gm_pong::pong::Pong,
                "shisima" => Shisima: gm_ways::shisima::Shisima,
                "takeaway" => Takeaway: gm_toys::takeaway::Takeaway,
                "tapatan" => Tapatan: gm_ways::tapatan::Tapatan,
                "dodgem" => Dodgem: gm_dodgem::dodgem::Dodgem,
                "krk" => Krk: gm_squares::chess::Krk,
                "kqk" => Kqk: gm_squares::chess::Kqk,
                "foxhounds" => FoxHounds: gm_squares::foxhounds::FoxHounds,
                "tictactoe-misere" => TicTacToeMisere: gm_placing::rows::TicTacToeMisere,
                "tictactoe-4" => TicTacToe4: gm_placing::rows::TicTacToeFour,
                "notakto" => Notakto: gm_placing::rows::Notakto,
                "hex-3" => Hex3: gm_placing::hex::HexThree,
                "hex-4" => Hex4: gm_placing::hex::HexFour,
                "sim" => Sim: gm_placing::sim::Sim,
                "hexapawn" => Hexapawn: gm_sliding::hexapawn::Hexapawn,
                "hexapawn-4" => Hexapawn4: gm_sliding::hexapawn::HexapawnFour,
                "nineholes" => NineHoles: gm_sliding::nine::NineHoles,
                "picaria" => Picaria: gm_sliding::nine::Picaria,
                "clobber" => Clobber: gm_sliding::clobber::Clobber,
                "toads" => Toads: gm_sliding::toads::Toads,
                "kono" => Kono: gm_sliding::kono::Kono,
                "domineering-4" => Domineering4: gm_dominoes::domineering::DomineeringFour,
                "domineering-5" => Domineering5: gm_dominoes::domineering::DomineeringFive,
                "cram-4" => Cram4: gm_dominoes::cram::CramFour,
                "cram-5" => Cram5: gm_dominoes::cram::CramFive,
                "kayles" => Kayles: gm_dominoes::kayles::Kayles,
                "kpk" => Kpk: gm_squares::kpk::Kpk,
                "connect4-4x4" => Connect4x4: gm_connect::connect::ConnectFour<4, 4>,
                "connect4-5x4" => Connect5x4: gm_connect::connect::ConnectFour<5, 4>,
                "connect4-4x5" => Connect4x5: gm_connect::connect::ConnectFour<4, 5>,
                "connect4-4x6" => Connect4x6: gm_connect::connect::ConnectFour<4, 6>,
                "connect4-5x5" => Connect5x5: gm_connect::connect::ConnectFour<5, 5>,
                "connect4-6x4" => Connect6x4: gm_connect::connect::ConnectFour<6, 4>,
                "nim" => Nim: gm_numbers::nim::Nim<false>,
                "nim-misere" => NimMisere: gm_numbers::nim::Nim<true>,
                "chomp" => Chomp: gm_numbers::chomp::Chomp,
            }
        }
    };
}

// Calls a macro with the first or with the later games.
macro_rules! group {
    ([first $each:ident] $first:tt $later:tt) => { $each! $first };
    ([later $each:ident] $first:tt $later:tt) => { $each! $later };
}

// Writes the array of games with their names.
macro_rules! named {
    ($($name:literal => $game:ident: $type:ty,)*) => { [$(($name, GameName::$game)),*] };
}

// Writes the text with a line for each name.
macro_rules! lines {
    ($($name:literal => $game:ident: $type:ty,)*) => { concat!($($name, "\n"),*) };
}

// Writes the number of games.
macro_rules! count {
    ($($name:literal => $game:ident: $type:ty,)*) => { 0 $(+ one!($game))* };
}

// Writes 1 for a game.
macro_rules! one {
    ($game:ident) => { 1 };
}

// Writes the match that reads a name of the first or of the later games, with what is returned for any other name.
macro_rules! read {
    ([first $text:ident $other:expr] { $($name:literal => $game:ident: $type:ty,)* } $later:tt) => {
        match $text {
            $($name => Some(GameName::$game),)*
            _ => $other,
        }
    };
    ([later $text:ident $other:expr] $first:tt { $($name:literal => $game:ident: $type:ty,)* }) => {
        match $text {
            $($name => Some(GameName::$game),)*
            _ => $other,
        }
    };
}

// How many games the two groups have.
const FIRST: usize = with_games!(group first count);

const LATER: usize = with_games!(group later count);

/// The games that `list` prints, with their names.
pub const GAMES: [(&str, GameName); FIRST] = with_games!(group first named);

/// The games that only `list --all` prints, with their names.
pub const LATER_GAMES: [(&str, GameName); LATER] = with_games!(group later named);

/// The names that `list` prints, one in each line.
pub const LISTED: &str = with_games!(group first lines);

/// The names that only `list --all` prints, one in each line.
pub const LISTED_LATER: &str = with_games!(group later lines);

/// Returns the game of this name, if there is one.
pub fn game_named(name: &str) -> Option<GameName>
    ensures { result ≡ game_of_name name.now }
{
    with_games!(read first name later_named(name))
}

// Returns the game of this name that only `list --all` prints, if there is one.
fn later_named(name: &str) -> Option<GameName>
    ensures { result ≡ game_among LATER_GAMES name.now }
{
    with_games!(read later name None)
}

/// The likeness above which a name is taken for a misspelled one. The command line uses the same limit for its commands.
const ALIKE: f64 = 0.7;

// Returns this name if it is more like the text than the best name before it, and else that one.
fn better<'a>(
    alloc: Global,
    text: &str,
    name: &'a str,
    best: Option<(f64, &'a str)>,
) -> Result<Option<(f64, &'a str)>, AllocError> {
    let likeness = jaro(alloc, text, name)?;
    match best {
        Some((before, _)) if likeness <= before => Ok(best),
        None if likeness <= ALIKE => Ok(None),
        _ => Ok(Some((likeness, name))),
    }
}

/// Returns the name of the game that is most like this text, if one is much like it.
pub fn nearest_name(alloc: Global, text: &str) -> Result<Option<&'static str>, AllocError> {
    let mut best = None;
    for (name, _) in GAMES.iter().chain(LATER_GAMES.iter()) {
        best = better(alloc, text, name, best)?;
    }
    match best {
        Some((_, name)) => Ok(Some(name)),
        None => Ok(None),
    }
}
