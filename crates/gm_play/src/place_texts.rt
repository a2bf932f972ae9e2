//! The texts of positions with their values, and of the tiers and indexes of positions.
ghost use Rattle.std.specs.Prelude.{◌≡◌, true, IfOk};
ghost use Rattle.std.specs.Fmt.{decimal};
ghost use Rattle.gm_play.specs.PlaceTexts.{place_row, place_word, IsPositionText};

use crate::known::Known;
use crate::places::Located;
use crate::texts::push_field;
use crate::why::push_five;
use gm_game::shown::{Line, Shown};
use gm_game::text::{push_decimal, value_text};
use std::alloc::{AllocError, Global};

/// Returns the row of a position: its text and its true value, separated by a tab.
pub fn position_text<G: Shown>(alloc: Global, known: &Known<'_, G>) -> Result<Vec<u8>, AllocError>
    ensures { IfOk result (λ v. IsPositionText G.Game.rules G.shown known.now.position v.items) }
{
    let mut row = Vec::new(alloc);
    push_field(&mut row, G::show(known.position).as_slice(), b"\t")?;
    push_field(&mut row, value_text(known.value()).as_slice(), b"\n")?;
    Ok(row)
}

/// Returns the row that locates a position: its tier, its index, `canonical` or `not canonical`, and the index and the text of its
/// canonical position, separated by tabs. Reads no table.
pub fn place_text<G: Shown>(alloc: Global, l: Located) -> Result<Vec<u8>, AllocError>
    requires { G.Game.rules.is_legal l.canonical ≡ true }
    ensures { IfOk result (λ v. v.items ≡ place_row G.shown l) }
{
    let mut row = Vec::new(alloc);
    push_five(
        &mut row,
        number_text(l.position.tier).as_slice(),
        number_text(l.position.index).as_slice(),
        word_of(l),
        number_text(l.canonical.index).as_slice(),
        G::show(l.canonical).as_slice(),
    )?;
    Ok(row)
}

fn number_text(number: u64) -> Line
    ensures { result.items ≡ decimal number }
{
    let mut line = Line::new();
    push_decimal(&mut line, number);
    line
}

// Returns `canonical` or `not canonical`.
fn word_of(l: Located) -> &'static [u8]
    ensures { result.now ≡ place_word l }
{
    if l.position.tier == l.canonical.tier && l.position.index == l.canonical.index {
        b"canonical"
    } else {
        b"not canonical"
    }
}
