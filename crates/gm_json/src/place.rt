//! The position that a line asks about: by its text, or by its tier and its index.
ghost use Rattle.std.specs.Prelude.{◌≡◌, ◌↔◌, ◌<◌, ◌==◌, Some, true, length, position, IfSome};
ghost use Rattle.gm_game.specs.declared.position.Position.{Position};
ghost use Rattle.gm_json.specs.Places.{IsAskedAs, IsPlaceLine};

use gm_game::game::Game;
use gm_game::position::Position;
use gm_game::shown::Shown;
use gm_game::text::read_decimal;

/// Returns the position that a line asks about: the legal one with this text or, if there is none, the legal one whose tier and index the line names
/// (`@TIER INDEX`).
pub(crate) fn asked_about<G: Shown>(line: &[u8]) -> Option<Position>
    ensures { (p : Position) → (result ≡ Some p) ↔ IsAskedAs G.Game.rules G.shown G.move_shown line.now p }
{
    match G::read(line) {
        Some(p) => Some(p),
        None => legal_at::<G>(line),
    }
}

// Returns the legal position whose tier and index the line names.
fn legal_at<G: Game>(line: &[u8]) -> Option<Position>
    ensures { (p : Position) → (result ≡ Some p) ↔ (IsPlaceLine line.now p × (G.rules.is_legal p ≡ true)) }
{
    let p = place_of(line)?;
    if G::is_legal(p) { Some(p) } else { None }
}

// Returns the tier and the index that the line names, both in decimal without leading zeros.
fn place_of(line: &[u8]) -> Option<Position>
    ensures { (p : Position) → (result ≡ Some p) ↔ IsPlaceLine line.now p }
{
    let words = line.strip_prefix(b"@")?;
    let space = first_space(words)?;
    let tier = read_decimal(&words[..space])?;
    let index = read_decimal(&words[space + 1..])?;
    Some(Position { tier, index })
}

// Returns the index of the first space.
fn first_space(text: &[u8]) -> Option<usize>
    ensures value { result ≡ position (λ b. b == 32) text.now }
    ensures within { IfSome result (λ k. k < length text.now) }
{
    text.iter().position(|byte| *byte == b' ')
}
