//! Pages: explorers of the positions that play reaches from a position. With the engine they solve the game in the browser.
ghost use Rattle.std.specs.Prelude.{◌≡◌, ◌<◌, ◌≤◌, ◌++◌, true, List, length, IfOk, OnOk, ◌^◌};
ghost use Rattle.std.specs.List.{list_all};
ghost use Rattle.serde_json.specs.Data.{Data};
ghost use Rattle.gm_game.specs.declared.position.Position.{Position};
ghost use Rattle.gm_game.specs.declared.position.Solved.{Solved};
ghost use Rattle.gm_page.specs.Heads.{head_tree};
ghost use Rattle.gm_page.specs.Pages.{page_front, page_back, game_tree, script_lines, IsPage};
ghost use Rattle.gm_page.specs.Rows.{Group, row_tree};
ghost use Rattle.gm_page.specs.Scripts.{opens_none, script_line, IsReadBack};

use crate::engine::BETWEEN;
use crate::front::{OPENING, PARTS, STYLE};
use crate::head::push_head;
use crate::listing::{is_whole, listing_of};
use crate::rows::push_rows;
use crate::viewer_asking::ASKING;
use crate::viewer_boards::BOARDS;
use crate::viewer_choosing::CHOOSING;
use crate::viewer_drawing::DRAWING;
use crate::viewer_playing::PLAYING;
use gm_draw::pictured::Pictured;
use gm_game::game::laws;
use gm_game::position::Position;
use gm_play::known::Known;
use std::alloc::{AllocError, Global};

/// Returns the page of a position, as one HTML file: the viewer, and in it a line that describes the game, a row for each position
/// of its `listing_of`, and the engine of these digits, if there are any. The whole page is built in memory. With the engine, a
/// browser that can run it solves the game; else the page shows its rows.
///
/// A row is a JSON array: the position's text, its value, and its moves, the best first, in groups of equal worth. A move has its
/// text and the number of its result's row, from 0, if the page has that row.
pub fn page_text<G: Pictured>(
    alloc: Global,
    start: &Known<'_, G>,
    limit: usize,
    digits: &[u8],
) -> Result<Vec<u8>, AllocError>
    requires { 1 ≤ limit }
    ensures { IfOk result (λ v. IsPage G.Game.rules G.shown G.move_shown G.picture (G.shown start.now.position)
        limit digits.now v.items) }
{
    let list = listing_of(alloc, start, limit)?;
    let whole = is_whole::<G>(&list);
    let mut page = Vec::new(alloc);
    push_front(&mut page)?;
    push_head::<G>(alloc, &mut page, G::show(start.position).as_slice(), whole)?;
    push_rows(alloc, start, &list, &mut page)?;
    push_back(&mut page, digits)?;
    Ok(page)
}

/// Appends the first part of a page, up to its lines.
#[tactic(auto, unfolding(crate::specs::Pages::page_front))]
pub fn push_front(page: &mut Vec<u8>) -> Result<(), AllocError>
    ensures { OnOk result (page.new.items ≡ page.old.items ++ page_front) }
{
    page.extend_from_slice(OPENING)?;
    page.extend_from_slice(STYLE)?;
    page.extend_from_slice(PARTS)
}

/// Appends the line of a game in the page of all games.
pub fn push_game<G: Pictured>(alloc: Global, page: &mut Vec<u8>) -> Result<(), AllocError>
    ensures { OnOk result (page.new.items
        ≡ page.old.items ++ script_line (game_tree G.Game.rules G.shown G.picture)) }
{
    laws::<G>();
    push_head::<G>(alloc, page, G::show(G::initial()).as_slice(), false)
}

/// Appends the last part of a page: the element of the engine with these digits, and the script.
pub fn push_back(page: &mut Vec<u8>, digits: &[u8]) -> Result<(), AllocError>
    ensures { OnOk result (page.new.items ≡ page.old.items ++ page_back digits.now) }
{
    page.extend_from_slice(BETWEEN)?;
    page.extend_from_slice(digits)?;
    page.extend_from_slice(ASKING)?;
    page.extend_from_slice(BOARDS)?;
    page.extend_from_slice(PLAYING)?;
    page.extend_from_slice(CHOOSING)?;
    page.extend_from_slice(DRAWING)?;
    Ok(())
}

/// Has no effect; its contract states that no byte of a page's lines opens a tag, and that each line, read as JSON, is the tree
/// that it was written from.
pub fn lines_are_read<G: Pictured>(list: &[Position], start: &[u8], whole: bool)
    ensures closed { (head : Data) (rows : List Data) → list_all opens_none (script_lines head rows) ≡ true }
    ensures head { IsReadBack (head_tree G.Game.rules.name G.picture start.now whole) }
    ensures rows { length list.now < 2 ^ 64 → (p : Position) (s : Solved) (groups : List Group)
        → IsReadBack (row_tree G.shown G.move_shown list.now p s groups) }
{}
