//! Sheets: puzzles of one or more games, and their solutions at the end.
ghost use Rattle.std.specs.Prelude.{◌≡◌, ◌++◌, true, IfOk, OnOk, is_some};
ghost use Rattle.std.specs.List.{All, AllZip, flat_map};
ghost use Rattle.gm_draw.specs.GameSpecs.{game_spec};
ghost use Rattle.gm_caption.specs.Captions.{texts_of};
ghost use Rattle.gm_find.specs.Founds.{IsFound};
ghost use Rattle.gm_page.specs.Puzzles.{puzzle_item, unfolding_item, IsKnownFound, IsPuzzleFor, IsFoundSheet, IsFirstMove, marked_item, aside, men_words, shared, sides_words, legend, legend_of, item_of, items_of, answer_of, list_heading, puzzle_lists, listed_sheet as listed_sheet_spec, IsPuzzle, moves_key, IsSheetOrder};

use crate::parts::{LIST_BACK, LIST_FRONT, LIST_LEGENDS, LIST_PUZZLES, LIST_SOLUTIONS};
use crate::show::{diagram_text, svg_text};
use crate::solution::solution_text;
use gm_caption::caption::{Caption, Labels, push_under};
use gm_draw::drawn::mover;
use gm_draw::look::Look;
use gm_draw::markup::push_escaped;
use gm_draw::pictured::{Pictured, Style};
use gm_find::choice::find_some;
use gm_find::found::Found;
use gm_find::reached::Reached;
use gm_find::sought::{Choice, Sought};
use gm_game::game::{Game, laws};
use gm_game::position::{Solved, Value};
use gm_game::shown::Line;
use gm_play::known::Known;
use gm_play::known_tiers::KnownTiers;
use gm_table::tables::Tables;
use std::alloc::{AllocError, Global};

/// What a sheet has of one position. Its number is its place on the sheet.
#[derive(Drop)]
pub struct Puzzle {
    /// The title of its game.
    pub game: &'static [u8],
    /// The side to move.
    pub side: &'static [u8],
    pub solved: Solved,
    /// Its diagram.
    pub diagram: Vec<u8>,
    /// Its solution.
    pub solution: Vec<u8>,
    /// The diagram beside its solution, on which the best move is marked. It is empty on a sheet without such diagrams.
    pub first_move: Vec<u8>,
    /// The text of its position.
    pub text: Line,
}

/// What the diagrams of a sheet show.
#[derive(Clone, Copy, Debug, PartialEq, Eq)]
pub struct SheetLook {
    /// Whether a diagram has the value.
    pub valued: bool,
    /// Whether each solution has a diagram on which the best move is marked.
    pub arrow: bool,
}

impl Puzzle {
    /// Returns a puzzle with nothing in it.
    pub fn blank(alloc: Global) -> Puzzle {
        Puzzle {
            game: b"",
            side: b"",
            solved: Solved {
                value: Value::Draw,
                remoteness: 0,
            },
            diagram: Vec::new(alloc),
            solution: Vec::new(alloc),
            first_move: Vec::new(alloc),
            text: Line::new(),
        }
    }
}

/// Returns the puzzle of a position.
pub fn puzzle_of<G: Pictured>(
    alloc: Global,
    known: &Known<'_, G>,
    look: SheetLook,
) -> Result<Puzzle, AllocError>
    ensures { IfOk result (IsPuzzle (game_spec G.Game.rules G.shown G.move_shown G.picture) look (G.shown known.now.position)) }
{
    let found = found_at(known);
    let diagram = diagram_text(alloc, known, look.valued)?;
    let first_move = first_move_text(alloc, known, look.arrow)?;
    let solution = solution_text(alloc, known, found)?;
    Ok(Puzzle {
        game: G::picture().title,
        side: mover::<G>(found.position),
        solved: found.value,
        diagram,
        solution,
        first_move,
        text: G::show(found.position),
    })
}

// Returns the diagram on which the best move of a position is marked, on request, and otherwise nothing.
fn first_move_text<G: Pictured>(
    alloc: Global,
    known: &Known<'_, G>,
    arrow: bool,
) -> Result<Vec<u8>, AllocError>
    ensures { IfOk result (λ v. IsFirstMove (game_spec G.Game.rules G.shown G.move_shown G.picture) arrow (G.shown known.now.position) v.items) }
{
    if !arrow {
        return Ok(Vec::new(alloc));
    }
    let look = Look {
        valued: false,
        figures: false,
    };
    svg_text(alloc, known, look, true)
}

// Returns the answer for a position, without tries.
fn found_at<G: Game>(known: &Known<'_, G>) -> Found
    ensures position { result.position ≡ known.now.position }
    ensures found { IsFound G.rules result }
{
    Found {
        position: known.position,
        value: known.value(),
        best: known.best_move(),
        moves: G::moves(known.position).len(),
        tries: None,
    }
}

// Appends the item of a puzzle.
#[tactic(auto, unfolding(crate::specs::Puzzles::puzzle_item))]
fn push_item(
    item: &mut Vec<u8>,
    diagram: &[u8],
    caption: Caption<'_>,
    labels: Labels<'_>,
    solution: &[u8],
    text: &[u8],
) -> Result<(), AllocError>
    ensures { OnOk result (item.new.items ≡ item.old.items
        ++ puzzle_item diagram.now caption.entry (texts_of labels.entry) solution.now text.now) }
{
    item.extend_from_slice(b"<li><h3>")?;
    push_escaped(item, labels.game)?;
    item.extend_from_slice(b"</h3>\n")?;
    item.extend_from_slice(diagram)?;
    push_under(item, caption, labels)?;
    push_unfolding(item, solution, text)?;
    item.extend_from_slice(b"</li>\n")
}

// Appends a solution and a text to unfold.
#[tactic(auto, unfolding(crate::specs::Puzzles::unfolding_item))]
fn push_unfolding(item: &mut Vec<u8>, solution: &[u8], text: &[u8]) -> Result<(), AllocError>
    ensures { OnOk result (item.new.items ≡ item.old.items ++ unfolding_item solution.now text.now) }
{
    item.extend_from_slice(b"<details><summary>Solution</summary><p>")?;
    item.extend_from_slice(solution)?;
    item.extend_from_slice(b"</p>\n<p><code>")?;
    push_escaped(item, text)?;
    item.extend_from_slice(b"</code></p></details>")
}

// Appends the item of a solution, with the diagram beside it if there is one.
#[tactic(auto, unfolding(crate::specs::Puzzles::answer_item))]
fn push_answer(sheet: &mut Vec<u8>, p: &Puzzle) -> Result<(), AllocError>
    ensures { OnOk result (sheet.new.items ≡ sheet.old.items ++ answer_of p.now) }
{
    sheet.extend_from_slice(b"<li>")?;
    push_first_move(sheet, p.first_move.as_slice())?;
    sheet.extend_from_slice(p.solution.as_slice())?;
    sheet.extend_from_slice(b"</li>\n")
}

// Appends the diagram beside a solution, if there is one.
fn push_first_move(sheet: &mut Vec<u8>, first_move: &[u8]) -> Result<(), AllocError>
    ensures { OnOk result (sheet.new.items ≡ sheet.old.items ++ marked_item first_move.now) }
{
    if first_move.is_empty() {
        Ok(())
    } else {
        push_aside(sheet, first_move)
    }
}

// Appends a diagram beside a solution.
#[tactic(auto, unfolding(crate::specs::Puzzles::aside))]
fn push_aside(sheet: &mut Vec<u8>, first_move: &[u8]) -> Result<(), AllocError>
    ensures { OnOk result (sheet.new.items ≡ sheet.old.items ++ aside first_move.now) }
{
    sheet.extend_from_slice(b"<div style=\"width:9rem\">")?;
    sheet.extend_from_slice(first_move)?;
    sheet.extend_from_slice(b"</div>")?;
    Ok(())
}

// Returns the words on whose men of a look are.
fn men_words(style: Style) -> &'static [u8]
    ensures { result.now ≡ men_words style }
{
    match style {
        Style::Row => b"One of the numbers is the position.",
        Style::Counters => b"The men belong to both sides.",
        Style::Crosses => b"Crosses belong to the side to move, x; noughts to the other, o.",
        Style::Stones | Style::Discs => {
            b"Black men belong to the side to move, x; white men, with a ring, to the other, o."
        }
        Style::Letters => {
            b"White men with a d are the hounds; the black man with an h is the hare."
        }
        Style::Chess | Style::Figures => {
            b"White men with capitals belong to White; black men with small letters to Black."
        }
        Style::Hounds => b"The white man with an f is the fox; black men with an h are the hounds.",
        Style::Digits => b"Each digit is the number left in a heap or row.",
    }
}

// Returns the same where this side moves first. Men of a side without a name of its own belong to both.
fn sides_words(style: Style, side: &[u8]) -> &'static [u8]
    ensures { result.now ≡ sides_words style side.now }
{
    if side == b"player".as_slice() {
        men_words(shared(style))
    } else {
        men_words(style)
    }
}

// Returns the look whose words report that the men belong to both sides.
fn shared(style: Style) -> Style
    ensures { result ≡ shared style }
{
    match style {
        Style::Row => Style::Row,
        Style::Digits => Style::Digits,
        _ => Style::Counters,
    }
}

/// Appends the line of a game on who is who.
pub fn push_legend<G: Pictured>(legends: &mut Vec<u8>) -> Result<(), AllocError>
    ensures { OnOk result (legends.new.items ≡ legends.old.items ++ legend_of (game_spec G.Game.rules G.shown G.move_shown G.picture)) }
{
    laws::<G>();
    let picture = G::picture();
    push_sides(
        legends,
        picture.title,
        picture.style,
        mover::<G>(G::initial()),
    )
}

// Appends a title and who is who.
#[tactic(auto, unfolding(crate::specs::Puzzles::legend))]
fn push_sides(
    legends: &mut Vec<u8>,
    title: &[u8],
    style: Style,
    side: &[u8],
) -> Result<(), AllocError>
    ensures { OnOk result (legends.new.items ≡ legends.old.items ++ legend title.now style side.now) }
{
    legends.extend_from_slice(b"<p><b>")?;
    push_escaped(legends, title)?;
    legends.extend_from_slice(b"</b>: ")?;
    legends.extend_from_slice(sides_words(style, side))?;
    legends.extend_from_slice(b"</p>\n")
}

/// Returns the sheet of canonical positions that match a search, under the title of the game. The whole sheet is built in memory.
///
/// A solution is the best move, the number of moves, and the line of best play, of at most 40 moves. The positions come in the
/// order of `find`: the first of them, or a random choice. If a set of reached positions is given, only positions in it are taken.
pub fn found_sheet<G: Pictured>(
    alloc: Global,
    known: &KnownTiers<'_, G>,
    sought: Sought,
    reached: Option<&Reached<G>>,
    choice: Choice,
) -> Result<Vec<u8>, AllocError>
    ensures { IfOk result (λ v. IsFoundSheet (game_spec G.Game.rules G.shown G.move_shown G.picture)
        sought (is_some reached.entry) choice known.now.tiers.now v.items) }
{
    let found = find_some(alloc, known, sought, reached, choice)?;
    let puzzles = puzzles_of(alloc, known.tables, found.as_slice())?;
    let mut legends = Vec::new(alloc);
    push_legend::<G>(&mut legends)?;
    let title = G::picture().title;
    let caption = Caption::BothSides;
    listed_sheet(
        alloc,
        title,
        legends.as_slice(),
        caption,
        puzzles.as_slice(),
    )
}

// Returns the puzzles of found positions, in their order.
fn puzzles_of<G: Pictured>(
    alloc: Global,
    tables: &Tables<G>,
    found: &[Found],
) -> Result<Vec<Puzzle>, AllocError>
    requires { All (IsKnownFound G.Game.rules tables.now) found.now }
    ensures { IfOk result (λ v. AllZip (IsPuzzleFor (game_spec G.Game.rules G.shown G.move_shown G.picture)) found.now v.items) }
{
    let look = SheetLook {
        valued: true,
        arrow: false,
    };
    let mut puzzles = Vec::new(alloc);
    for x in found {
        let known = Known {
            tables,
            position: x.position,
        };
        puzzles.push(puzzle_of(alloc, &known, look)?)?;
    }
    Ok(puzzles)
}

/// Puts puzzles in rising order of the numbers of moves to the end, draws last, if this is asked for. Those with one number of moves keep
/// their order.
pub fn put_in_order(puzzles: &mut Vec<Puzzle>, rising: bool) -> Result<(), AllocError>
    ensures { OnOk result (IsSheetOrder rising puzzles.old.items puzzles.new.items) }
{
    if rising {
        puzzles.sort_by_key(|p| moves_of(p.solved))
    } else {
        Ok(())
    }
}

// Returns the sort key of a value: the number of moves to the end, or a number above all of these if there is no end.
fn moves_of(solved: Solved) -> u64
    ensures { result ≡ moves_key solved }
{
    match solved.value {
        Value::Draw => 1 << 32,
        Value::Win | Value::Lose | Value::Tie => u64::from(solved.remoteness),
    }
}

/// Returns the sheet of puzzles in their order, under a title, with these lines on who is who.
pub fn listed_sheet(
    alloc: Global,
    title: &[u8],
    legends: &[u8],
    caption: Caption<'_>,
    puzzles: &[Puzzle],
) -> Result<Vec<u8>, AllocError>
    ensures { IfOk result (λ v. v.items ≡ listed_sheet_spec title.now legends.now caption.entry puzzles.now) }
{
    let mut sheet = Vec::new(alloc);
    push_heading(&mut sheet, title, legends)?;
    push_lists(&mut sheet, caption, puzzles)?;
    Ok(sheet)
}

// Appends the text before the puzzles.
#[tactic(auto, unfolding(crate::specs::Puzzles::list_heading))]
fn push_heading(sheet: &mut Vec<u8>, title: &[u8], legends: &[u8]) -> Result<(), AllocError>
    ensures { OnOk result (sheet.new.items ≡ sheet.old.items ++ list_heading title.now legends.now) }
{
    sheet.extend_from_slice(LIST_FRONT)?;
    push_escaped(sheet, title)?;
    sheet.extend_from_slice(LIST_LEGENDS)?;
    sheet.extend_from_slice(legends)?;
    sheet.extend_from_slice(LIST_PUZZLES)
}

// Appends the puzzles, and their solutions.
#[tactic(auto, unfolding(crate::specs::Puzzles::puzzle_lists))]
fn push_lists(
    sheet: &mut Vec<u8>,
    caption: Caption<'_>,
    puzzles: &[Puzzle],
) -> Result<(), AllocError>
    ensures { OnOk result (sheet.new.items ≡ sheet.old.items ++ puzzle_lists caption.entry puzzles.now) }
{
    push_items(sheet, caption, puzzles)?;
    sheet.extend_from_slice(LIST_SOLUTIONS)?;
    push_answers(sheet, puzzles)?;
    sheet.extend_from_slice(LIST_BACK)
}

// Appends the items of puzzles, numbered from 1.
fn push_items(
    sheet: &mut Vec<u8>,
    caption: Caption<'_>,
    puzzles: &[Puzzle],
) -> Result<(), AllocError>
    ensures { OnOk result (sheet.new.items ≡ sheet.old.items ++ items_of caption.entry 0 puzzles.now) }
{
    for k in 0..puzzles.len() {
        push_item_of(sheet, caption, k as u64 + 1, &puzzles[k])?;
    }
    Ok(())
}

// Appends the item of a puzzle with this number.
fn push_item_of(
    sheet: &mut Vec<u8>,
    caption: Caption<'_>,
    number: u64,
    p: &Puzzle,
) -> Result<(), AllocError>
    ensures { OnOk result (sheet.new.items ≡ sheet.old.items ++ item_of caption.entry number p.now) }
{
    let labels = Labels {
        game: p.game,
        side: p.side,
        solved: p.solved,
        number,
    };
    push_item(
        sheet,
        p.diagram.as_slice(),
        caption,
        labels,
        p.solution.as_slice(),
        p.text.as_slice(),
    )
}

// Appends the items of their solutions.
fn push_answers(sheet: &mut Vec<u8>, puzzles: &[Puzzle]) -> Result<(), AllocError>
    ensures { OnOk result (sheet.new.items ≡ sheet.old.items ++ flat_map answer_of puzzles.now) }
{
    for p in puzzles {
        push_answer(sheet, p)?;
    }
    Ok(())
}
