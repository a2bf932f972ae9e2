//! The replies for the game with a number. Each game has a line in `reply_of` and one in specs/Games.antt.
ghost use Rattle.std.specs.Prelude.{◌≡◌};
ghost use Rattle.gm_engine.specs.Games.{IsFor, IsNoGame};
ghost use Rattle.gm_engine.specs.Records.{AreTrueTiers, bytes_of};
ghost use Rattle.gm_engine.specs.Replies.{AreGiven, IsReply, IsAskAnswered, IsText, IsOrder, IsSolved, IsSolvedGame, IsChecked, refused};

use crate::replies::{REFUSED, reply};
use crate::request::Request;
use crate::width::Width;
use gm_connect::connect::ConnectFour;
use gm_dao::dao::Dao;
use gm_dodgem::dodgem::Dodgem;
use gm_dominoes::cram::CramFour;
use gm_dominoes::domineering::DomineeringFour;
use gm_dominoes::kayles::Kayles;
use gm_hare::hare::Hare;
use gm_morris::games::{Achi, ThreeMens, TicTacToe};
use gm_mutorere::mutorere::MuTorere;
use gm_numbers::chomp::Chomp;
use gm_numbers::nim::Nim;
use gm_placing::hex::HexThree;
use gm_placing::rows::{Notakto, TicTacToeMisere};
use gm_pong::pong::Pong;
use gm_sliding::hexapawn::Hexapawn;
use gm_sliding::nine::{NineHoles, Picaria};
use gm_sliding::toads::Toads;
use gm_squares::chess::{Kqk, Krk};
use gm_squares::kpk::Kpk;
use gm_tactix::tactix::TacTix;
use gm_toys::countdown::Countdown;
use gm_toys::takeaway::Takeaway;
use gm_toys::wheel::Wheel;
use gm_ways::shisima::Shisima;
use gm_ways::tapatan::Tapatan;
use std::alloc::Global;

// Returns the reply of the game with this number, or `none` if there is no such game.
fn reply_of(game: u32, request: Request<'_>, order: &mut [u64], out: &mut [u8], none: u64) -> u64
    requires { IsFor game (λ g. AreGiven g request) }
    ensures reply { IsFor game (λ g. IsReply g request.entry order.old order.new out.old out.new result) }
    ensures none { IsNoGame game → result ≡ none }
{
    match game {
        0 => reply::<Countdown<10>>(Width::Byte, request, order, out),
        1 => reply::<Wheel>(Width::Byte, request, order, out),
        2 => reply::<TacTix<1, false>>(Width::Byte, request, order, out),
        3 => reply::<TacTix<2, false>>(Width::Byte, request, order, out),
        4 => reply::<TacTix<3, false>>(Width::Byte, request, order, out),
        5 => reply::<TacTix<4, false>>(Width::Byte, request, order, out),
        6 => reply::<TacTix<1, true>>(Width::Byte, request, order, out),
        7 => reply::<TacTix<2, true>>(Width::Byte, request, order, out),
        8 => reply::<TacTix<3, true>>(Width::Byte, request, order, out),
        9 => reply::<TacTix<4, true>>(Width::Byte, request, order, out),
        10 => reply::<TicTacToe>(Width::Byte, request, order, out),
        11 => reply::<ThreeMens>(Width::Byte, request, order, out),
        12 => reply::<Achi>(Width::Byte, request, order, out),
        13 => reply::<MuTorere>(Width::Byte, request, order, out),
        14 => reply::<Dao>(Width::Byte, request, order, out),
        15 => reply::<Hare>(Width::Byte, request, order, out),
        16 => reply::<Pong>(Width::Byte, request, order, out),
        17 => reply::<Shisima>(Width::Byte, request, order, out),
        18 => reply::<Takeaway>(Width::Byte, request, order, out),
        19 => reply::<Tapatan>(Width::Byte, request, order, out),
        20 => reply::<Dodgem>(Width::Byte, request, order, out),
        21 => reply::<Krk>(Width::Word, request, order, out),
        22 => reply::<Kqk>(Width::Byte, request, order, out),
        23 => reply::<TicTacToeMisere>(Width::Byte, request, order, out),
        24 => reply::<Notakto>(Width::Byte, request, order, out),
        25 => reply::<HexThree>(Width::Byte, request, order, out),
        26 => reply::<Hexapawn>(Width::Byte, request, order, out),
        27 => reply::<NineHoles>(Width::Byte, request, order, out),
        28 => reply::<Picaria>(Width::Byte, request, order, out),
        29 => reply::<Toads>(Width::Byte, request, order, out),
        30 => reply::<DomineeringFour>(Width::Byte, request, order, out),
        31 => reply::<CramFour>(Width::Byte, request, order, out),
        32 => reply::<Kayles>(Width::Byte, request, order, out),
        33 => reply::<Kpk>(Width::Word, request, order, out),
        34 => reply::<ConnectFour<4, 4>>(Width::Byte, request, order, out),
        35 => reply::<Nim<false>>(Width::Byte, request, order, out),
        36 => reply::<Nim<true>>(Width::Byte, request, order, out),
        37 => reply::<Chomp>(Width::Byte, request, order, out),
        _ => none,
    }
}

/// Returns the number of bytes of each record of a game, or 0 if there is no such game.
pub fn width(game: u32) -> u64
    ensures width { IsFor game (λ g. result ≡ bytes_of g.width) }
    ensures none { IsNoGame game → result ≡ 0 }
{
    reply_of(game, Request::Width, &mut [], &mut [], 0)
}

/// Returns the number of indexes of a tier, or 0 if there is no such game.
pub fn size(game: u32, tier: u64) -> u64
    ensures size { IsFor game (λ g. result ≡ g.rules.tier_size tier) }
    ensures none { IsNoGame game → result ≡ 0 }
{
    reply_of(game, Request::Size { tier }, &mut [], &mut [], 0)
}

/// Writes the tiers of a game, child tiers first. Returns their number, or a refusal.
pub fn order(alloc: Global, game: u32, out: &mut [u64]) -> u64
    ensures order { IsFor game (λ g. IsOrder g out.old out.new result) }
    ensures none { IsNoGame game → result ≡ refused }
{
    reply_of(game, Request::Order { alloc }, out, &mut [], REFUSED)
}

/// Solves a whole game. Writes its tiers, child tiers first, and their records, one tier after another. Returns the number of
/// tiers, or a refusal.
pub fn solve_game(alloc: Global, game: u32, order: &mut [u64], out: &mut [u8]) -> u64
    ensures solved { IsFor game (λ g. IsSolvedGame g order.old out.old order.new out.new result) }
    ensures none { IsNoGame game → result ≡ refused }
{
    reply_of(game, Request::Game { alloc }, order, out, REFUSED)
}

/// Solves a tier from the records of these tiers, and writes its records. Returns the number of deliveries, or a refusal.
pub fn solve(
    alloc: Global,
    game: u32,
    solved: &[u64],
    records: &[u8],
    tier: u64,
    out: &mut [u8],
) -> u64
    requires known { IsFor game (λ g. AreTrueTiers g.rules g.width solved.now records.now) }
    ensures solved { IsFor game (λ g. IsSolved g solved.now tier out.old out.new result) }
    ensures none { IsNoGame game → result ≡ refused }
{
    let request = Request::Tier {
        alloc,
        solved,
        records,
        tier,
    };
    reply_of(game, request, &mut [], out, REFUSED)
}

/// Tests whether these bytes are the records of these tiers. Returns 0, or a refusal.
pub fn check(alloc: Global, game: u32, tiers: &[u64], records: &[u8]) -> u64
    ensures checked { IsFor game (λ g. IsChecked g tiers.now records.now result) }
    ensures none { IsNoGame game → result ≡ refused }
{
    let request = Request::Check {
        alloc,
        tiers,
        records,
    };
    reply_of(game, request, &mut [], &mut [], REFUSED)
}

/// Answers lines from the records of these tiers, in the words of `gamesman ask`. Returns the number of bytes written, or a
/// refusal.
pub fn ask(
    alloc: Global,
    game: u32,
    solved: &[u64],
    records: &[u8],
    asked: u32,
    lines: &[u8],
    out: &mut [u8],
) -> u64
    requires known { IsFor game (λ g. AreTrueTiers g.rules g.width solved.now records.now) }
    ensures answered { IsFor game (λ g. IsAskAnswered g asked solved.now lines.now out.old out.new result) }
    ensures none { IsNoGame game → result ≡ refused }
{
    let request = Request::Lines {
        alloc,
        solved,
        records,
        asked,
        lines,
    };
    reply_of(game, request, &mut [], out, REFUSED)
}

/// Writes the text of the canonical position with this index of a tier. Returns the number of bytes written, or a refusal.
pub fn text(game: u32, tier: u64, index: u64, out: &mut [u8]) -> u64
    ensures text { IsFor game (λ g. IsText g tier index out.old out.new result) }
    ensures none { IsNoGame game → result ≡ refused }
{
    reply_of(game, Request::Text { tier, index }, &mut [], out, REFUSED)
}
