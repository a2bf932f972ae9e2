//! Found positions as rows of text.
ghost use Rattle.std.specs.Prelude.{◌≡◌, ◌++◌, true, codes, IfOk, OnOk, is_some};
ghost use Rattle.std.specs.Fmt.{decimal};
ghost use Rattle.std.specs.List.{All, flat_map};
ghost use Rattle.gm_play.specs.BestMoves.{IsBestMove};
ghost use Rattle.gm_find.specs.Founds.{IsFound};
ghost use Rattle.gm_find.specs.Rows.{best_text as best_text_spec, row_end, found_row, IsFoundText};

use crate::choice::find_some;
use crate::found::Found;
use crate::reached::Reached;
use crate::sought::{Choice, Sought};
use crate::tries::Tries;
use gm_game::position::Position;
use gm_game::shown::{Line, Shown};
use gm_game::text::{push_decimal, push_text, value_text};
use gm_play::known_tiers::KnownTiers;
use gm_play::texts::push_field;
use std::alloc::{AllocError, Global};

/// Returns the rows of the canonical positions that are sought: the position, its value, its best move (none at an end) and the number of its moves, with a tab
/// between them, and then its tries, if they are counted: its own, the least along its solution, and their sum. They come tier by tier in the order given and
/// by ascending index: the first of them, or a random choice. If a set of reached positions is given, only positions in it count.
pub fn find_text<G: Shown>(
    alloc: Global,
    known: &KnownTiers<'_, G>,
    sought: Sought,
    reached: Option<&Reached<G>>,
    choice: Choice,
) -> Result<Vec<u8>, AllocError>
    ensures { IfOk result (λ v. IsFoundText G.Game.rules G.shown G.move_shown sought (is_some reached.entry) choice known.now.tiers.now v.items) }
{
    let found = find_some(alloc, known, sought, reached, choice)?;
    found_rows::<G>(alloc, found.as_slice())
}

/// Returns the rows of found positions, as `find_text` has them.
pub fn found_rows<G: Shown>(alloc: Global, found: &[Found]) -> Result<Vec<u8>, AllocError>
    requires { All (IsFound G.Game.rules) found.now }
    ensures { IfOk result (λ v. v.items ≡ flat_map (found_row G.shown G.move_shown) found.now) }
{
    let mut rows = Vec::new(alloc);
    for x in found {
        push_found::<G>(&mut rows, x)?;
    }
    Ok(rows)
}

/// Appends the row of a found position.
pub fn push_found<G: Shown>(rows: &mut Vec<u8>, x: &Found) -> Result<(), AllocError>
    requires { IsFound G.Game.rules x.now }
    ensures { OnOk result (rows.new.items ≡ rows.old.items ++ found_row G.shown G.move_shown x.now) }
{
    let x = *x;
    let mut number = Line::new();
    push_decimal(&mut number, x.moves as u64);
    push_field(rows, G::show(x.position).as_slice(), b"\t")?;
    push_field(rows, value_text(x.value).as_slice(), b"\t")?;
    push_field(rows, best_text::<G>(x.position, x.best).as_slice(), b"\t")?;
    rows.extend_from_slice(number.as_slice())?;
    push_row_end(rows, x.tries)
}

// Appends the end of a row: the tries, if they are counted.
fn push_row_end(rows: &mut Vec<u8>, tries: Option<Tries>) -> Result<(), AllocError>
    ensures { OnOk result (rows.new.items ≡ rows.old.items ++ row_end tries) }
{
    match tries {
        Some(x) => {
            push_count(rows, x.own as u64)?;
            push_count(rows, x.least as u64)?;
            push_count(rows, x.total)?;
            rows.extend_from_slice(b"\n")
        }
        None => rows.extend_from_slice(b"\n"),
    }
}

// Appends a tab and a number.
fn push_count(rows: &mut Vec<u8>, number: u64) -> Result<(), AllocError>
    ensures { OnOk result (rows.new.items ≡ rows.old.items ++ (codes "\t" ++ decimal number)) }
{
    let mut text = Line::new();
    push_text(&mut text, b"\t");
    push_decimal(&mut text, number);
    rows.extend_from_slice(text.as_slice())
}

/// Returns the text of a best move; none at an end.
pub fn best_text<G: Shown>(p: Position, best: Option<u32>) -> Line
    requires legal { G.Game.rules.is_legal p ≡ true }
    requires best { IsBestMove G.Game.rules p best }
    ensures { result.items ≡ best_text_spec G.move_shown p best }
{
    match best {
        Some(m) => G::move_text(p, m),
        None => Line::new(),
    }
}
