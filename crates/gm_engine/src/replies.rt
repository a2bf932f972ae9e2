//! The answers of the exports, for any game: a number, or a refusal with its reason.
ghost use Rattle.std.specs.Prelude.{◌≡◌, ◌+◌, ◌<◌, ◌^◌, IfOk, IfErr, OnOk};
ghost use Rattle.gm_engine.specs.Games.{played};
ghost use Rattle.gm_engine.specs.Records.{AreTrueTiers};
ghost use Rattle.gm_engine.specs.Replies.{AreGiven, IsReply, IsAskAnswered, refusal_number, refused};

use crate::engine::{ask_lines, check_tiers, put_order, put_text, solve_game, solve_next};
use crate::refusal::Refusal;
use crate::request::Request;
use crate::width::Width;
use gm_game::game::Game;
use gm_game::shown::Shown;
use std::alloc::Global;

/// The first number that is a refusal. It is the answer if there is no such game.
pub const REFUSED: u64 = 0xffff_ffff_ffff_ff00;

// Returns the number, or that of the refusal.
fn number_or(done: Result<u64, Refusal>) -> u64
    ensures ok { IfOk done (λ n. result ≡ n) }
    ensures refused { IfErr done (λ e. result ≡ refused + refusal_number e) }
{
    match done {
        Ok(number) => number,
        Err(refusal) => REFUSED + u64::from(refusal.number()),
    }
}

// Returns the count, or the number of the refusal.
fn count_or(done: Result<usize, Refusal>) -> u64
    ensures ok { IfOk done (λ n. result ≡ n) }
    ensures refused { IfErr done (λ e. result ≡ refused + refusal_number e) }
{
    match done {
        Ok(count) => count as u64,
        Err(refusal) => REFUSED + u64::from(refusal.number()),
    }
}

// Returns 0, or the number of the refusal.
fn status_of(done: Result<(), Refusal>) -> u64
    ensures ok { OnOk done (result ≡ 0) }
    ensures refused { IfErr done (λ e. result ≡ refused + refusal_number e) }
{
    match done {
        Ok(()) => 0,
        Err(refusal) => REFUSED + u64::from(refusal.number()),
    }
}

// Answers lines.
fn lines_reply<G: Shown>(
    width: Width,
    alloc: Global,
    solved: &[u64],
    records: &[u8],
    asked: u32,
    lines: &[u8],
    out: &mut [u8],
) -> u64
    requires { AreTrueTiers G.Game.rules width solved.now records.now }
    ensures { IsAskAnswered (played width G.Game.rules G.shown G.move_shown) asked solved.now lines.now out.old out.new result }
{
    count_or(ask_lines::<G>(alloc, width, solved, records, asked, lines, out))
}

/// Returns the reply to a request about a game whose records are kept so. Writes tiers to `order`, and records and texts to `out`.
pub fn reply<G: Shown>(width: Width, request: Request<'_>, order: &mut [u64], out: &mut [u8]) -> u64
    requires { AreGiven (played width G.Game.rules G.shown G.move_shown) request }
    ensures { IsReply (played width G.Game.rules G.shown G.move_shown) request.entry order.old order.new out.old out.new result }
{
    match request {
        Request::Width => width.bytes(),
        Request::Size { tier } => G::tier_size(tier),
        Request::Order { alloc } => count_or(put_order::<G>(alloc, order)),
        Request::Game { alloc } => count_or(solve_game::<G>(alloc, width, order, out)),
        Request::Tier {
            alloc,
            solved,
            records,
            tier,
        } => number_or(solve_next::<G>(alloc, width, solved, records, tier, out)),
        Request::Check {
            alloc,
            tiers,
            records,
        } => status_of(check_tiers::<G>(alloc, width, tiers, records)),
        Request::Lines {
            alloc,
            solved,
            records,
            asked,
            lines,
        } => lines_reply::<G>(width, alloc, solved, records, asked, lines, out),
        Request::Text { tier, index } => count_or(put_text::<G>(tier, index, out)),
    }
}
