//! The solver for a host such as a web page: exports that keep no state. The host keeps the records of the solved tiers in memory
//! of its own, each in as many bytes as `web_width` returns for the game.
//!
//! `web_solve_game` and `web_solve` write records, and `web_check` tests bytes from elsewhere. `web_solve` and `web_ask` require
//! bytes that one of these three has written or accepted for the same tiers of the same game, unchanged since.
#![tactic(auto)]

ghost use Rattle.std.specs.Prelude.{◌≡◌};
ghost use Rattle.gm_engine.specs.Games.{IsFor, IsNoGame};
ghost use Rattle.gm_engine.specs.Records.{AreTrueTiers, bytes_of};
ghost use Rattle.gm_engine.specs.Replies.{IsAskAnswered, IsText, IsOrder, IsSolved, IsSolvedGame, IsChecked, refused};

use gm_engine::games;
use std::alloc::Global;

/// Returns the number of bytes of each record of a game, or 0 if there is no such game.
#[unsafe(no_mangle)]
pub extern "C" fn web_width(game: u32) -> u64
    ensures width { IsFor game (λ g. result ≡ bytes_of g.width) }
    ensures none { IsNoGame game → result ≡ 0 }
{
    games::width(game)
}

/// Returns the number of indexes of a tier, or 0 if there is no such game.
#[unsafe(no_mangle)]
pub extern "C" fn web_size(game: u32, tier: u64) -> u64
    ensures size { IsFor game (λ g. result ≡ g.rules.tier_size tier) }
    ensures none { IsNoGame game → result ≡ 0 }
{
    games::size(game, tier)
}

/// Writes the tiers of a game, child tiers first. Returns their number, or a refusal.
#[unsafe(no_mangle)]
pub extern "C" fn web_order(alloc: Global, game: u32, out: &mut [u64]) -> u64
    ensures order { IsFor game (λ g. IsOrder g out.old out.new result) }
    ensures none { IsNoGame game → result ≡ refused }
{
    games::order(alloc, game, out)
}

/// Solves a whole game. Writes its tiers, child tiers first, and their records, one tier after another. Returns the number of
/// tiers, or a refusal.
#[unsafe(no_mangle)]
pub extern "C" fn web_solve_game(alloc: Global, game: u32, order: &mut [u64], out: &mut [u8]) -> u64
    ensures solved { IsFor game (λ g. IsSolvedGame g order.old out.old order.new out.new result) }
    ensures none { IsNoGame game → result ≡ refused }
{
    games::solve_game(alloc, game, order, out)
}

/// Solves a tier from the records of these tiers, and writes its records. Returns the number of deliveries, or a refusal.
#[unsafe(no_mangle)]
pub extern "C" fn web_solve(
    alloc: Global,
    game: u32,
    solved: &[u64],
    records: &[u8],
    tier: u64,
    out: &mut [u8],
) -> u64
    requires known { IsFor game (λ g. AreTrueTiers g.rules g.width solved.now records.now) }
    ensures solved { IsFor game (λ g. IsSolved g solved.now tier out.old out.new result) }
    ensures none { IsNoGame game → result ≡ refused }
{
    games::solve(alloc, game, solved, records, tier, out)
}

/// Tests whether these bytes are the records of these tiers. Returns 0, or a refusal.
#[unsafe(no_mangle)]
pub extern "C" fn web_check(alloc: Global, game: u32, tiers: &[u64], records: &[u8]) -> u64
    ensures checked { IsFor game (λ g. IsChecked g tiers.now records.now result) }
    ensures none { IsNoGame game → result ≡ refused }
{
    games::check(alloc, game, tiers, records)
}

/// Answers lines from the records of these tiers, in the words of `gamesman ask`. Returns the number of bytes written, or a
/// refusal.
#[unsafe(no_mangle)]
pub extern "C" fn web_ask(
    alloc: Global,
    game: u32,
    solved: &[u64],
    records: &[u8],
    asked: u32,
    lines: &[u8],
    out: &mut [u8],
) -> u64
    requires known { IsFor game (λ g. AreTrueTiers g.rules g.width solved.now records.now) }
    ensures answered { IsFor game (λ g. IsAskAnswered g asked solved.now lines.now out.old out.new result) }
    ensures none { IsNoGame game → result ≡ refused }
{
    games::ask(alloc, game, solved, records, asked, lines, out)
}

/// Writes the text of the canonical position with this index of a tier. Returns the number of bytes written, or a refusal.
#[unsafe(no_mangle)]
pub extern "C" fn web_text(game: u32, tier: u64, index: u64, out: &mut [u8]) -> u64
    ensures text { IsFor game (λ g. IsText g tier index out.old out.new result) }
    ensures none { IsNoGame game → result ≡ refused }
{
    games::text(game, tier, index, out)
}
