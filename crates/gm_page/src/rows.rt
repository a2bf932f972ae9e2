//! The rows of a page, each of which describes one position.
ghost use Rattle.std.specs.Prelude.{◌≡◌, ◌≤◌, ◌++◌, List, length, map, take, slice_get, IfOk, OnOk, IfSome};
ghost use Rattle.std.specs.List.{All, flat_map};
ghost use Rattle.serde_json.specs.Data.{Data};
ghost use Rattle.serde_json.specs.View.{view};
ghost use Rattle.gm_play.specs.Reached.{IsReached};
ghost use Rattle.gm_play.specs.declared.move_values.MoveValue.{MoveValue};
ghost use Rattle.gm_play.specs.PlayTexts.{IsMoveOf};
ghost use Rattle.gm_page.specs.Rows.{AreRows, IsRow, move_cells, group_tree};
ghost use Rattle.gm_page.specs.Scripts.{script_line};

use crate::listing::Listing;
use crate::words::push_script_line;
use gm_game::position::Solved;
use gm_game::shown::Shown;
use gm_game::text::value_text;
use gm_json::words::text_value;
use gm_play::known::Known;
use gm_play::move_values::{MoveValue, move_values};
use serde_json::{Value as Json, push};
use std::alloc::{AllocError, Global};

/// Appends the rows of the listed positions, in their order.
pub(crate) fn push_rows<G: Shown>(
    alloc: Global,
    start: &Known<'_, G>,
    list: &Listing,
    page: &mut Vec<u8>,
) -> Result<(), AllocError>
    requires { All (IsReached G.Game.rules start.now.position.tier) list.now }
    ensures { OnOk result ((rows : List Data) × AreRows G.Game.rules G.shown G.move_shown list.now list.now rows
        × (page.new.items ≡ page.old.items ++ flat_map script_line rows)) }
{
    for p in list.positions() {
        push_row(alloc, &start.at(*p), list, page)?;
    }
    Ok(())
}

// Appends the row of a position.
fn push_row<G: Shown>(
    alloc: Global,
    known: &Known<'_, G>,
    list: &Listing,
    page: &mut Vec<u8>,
) -> Result<(), AllocError>
    ensures { OnOk result ((tree : Data) × IsRow G.Game.rules G.shown G.move_shown list.now known.now.position tree
        × (page.new.items ≡ page.old.items ++ script_line tree)) }
{
    let value = known.value();
    let moves = move_values(known);
    let mut cells = Vec::new(alloc);
    push(
        &mut cells,
        text_value(alloc, G::show(known.position).as_slice())?,
    )?;
    push(&mut cells, text_value(alloc, value_text(value).as_slice())?)?;
    let mut rest = moves.as_slice();
    while let Some(x) = rest.first() {
        let worth = x.worth;
        let (run, others) = rest.split_at(run_length(rest, worth));
        push(&mut cells, group_value(alloc, list, known, worth, run)?)?;
        rest = others;
    }
    push_script_line(alloc, page, Json::Array(cells))
}

// Returns the number of moves at the beginning of the list that have this worth.
fn run_length(moves: &[MoveValue], worth: Solved) -> usize
    ensures within { result ≤ length moves.now }
    ensures same { All (λ (x : MoveValue). x.worth ≡ worth) (take result moves.now) }
    ensures ends { IfSome (slice_get moves.now result) (λ (x : MoveValue). x.worth ≡ worth → ⊥) }
{
    let mut count = 0;
    while count < moves.len() && moves[count].worth == worth {
        count += 1;
    }
    count
}

// Returns a group of moves of this worth.
fn group_value<G: Shown>(
    alloc: Global,
    list: &Listing,
    known: &Known<'_, G>,
    worth: Solved,
    run: &[MoveValue],
) -> Result<Json, AllocError>
    requires { All (IsMoveOf G.Game.rules known.now.position) run.now }
    ensures { IfOk result (λ v. view v ≡ group_tree G.shown G.move_shown list.now known.now.position (record { worth = worth; moves = run.now })) }
{
    let mut cells = Vec::new(alloc);
    push(&mut cells, text_value(alloc, value_text(worth).as_slice())?)?;
    for x in run {
        push_move(alloc, list, known, x, &mut cells)?;
    }
    Ok(Json::Array(cells))
}

// Appends a move, and the number of its result's row if the page has it.
fn push_move<G: Shown>(
    alloc: Global,
    list: &Listing,
    known: &Known<'_, G>,
    x: &MoveValue,
    cells: &mut Vec<Json>,
) -> Result<(), AllocError>
    requires { IsMoveOf G.Game.rules known.now.position x.now }
    ensures { OnOk result (map view cells.new.items ≡ map view cells.old.items ++ move_cells G.shown G.move_shown list.now known.now.position x.now) }
{
    push(
        cells,
        text_value(alloc, G::move_text(known.position, x.number).as_slice())?,
    )?;
    if let Some(place) = list.place(x.position) {
        push(cells, Json::from(place as u64))?;
    }
    Ok(())
}
