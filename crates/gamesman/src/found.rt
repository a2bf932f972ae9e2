//! Printing the positions that a search finds.
ghost use Rattle.std.specs.Prelude.{◌≡◌, ◌⊎◌, ◌++◌, ℕ, List, [], ◌∷◌, IfOk, OnOk, IfErr, MatchOption, is_some};
ghost use Rattle.std.specs.List.{All, Contains, flat_map};
ghost use Rattle.gm_tiers.specs.Orders.{IsOrderFrom};
ghost use Rattle.gm_build.specs.Work.{HoldsExactly};
ghost use Rattle.gm_find.specs.Founds.{AreChosen, IsFound};
ghost use Rattle.gm_find.specs.declared.found.Found.{Found};
ghost use Rattle.gm_find.specs.declared.sought.Choice.TheVariants.{First};
ghost use Rattle.gm_command.specs.declared.requests.Report.TheVariants.{Lines};
ghost use Rattle.gamesman.specs.Games.{spec};
ghost use Rattle.gamesman.specs.Outputs.{IsOutputFault};
ghost use Rattle.gamesman.specs.Told.{IsMemoryFault};
ghost use Rattle.gamesman.specs.Searches.{first_of, IsUnsearched};
ghost use Rattle.gamesman.specs.Finds.{board_row, AreLinesOf, AreTiersFor, IsToldByTier, IsTierTold, AreFoundBy};

use crate::fault::Fault;
use crate::output::{put, put_text};
use crate::run::DONE;
use crate::search::reached_from_start;
use gm_build::build::Built;
use gm_command::requests::{LineForm, PositionSearch, Report};
use gm_draw::drawn::draw;
use gm_draw::pictured::Pictured;
use gm_find::choice::find_some;
use gm_find::found::{Found, find};
use gm_find::reached::Reached;
use gm_find::rows::{found_rows, push_found};
use gm_find::sought::Choice;
use gm_game::game::Game;
use gm_json::find::found_lines;
use gm_page::puzzles::found_sheet;
use gm_play::known_tiers::KnownTiers;
use std::alloc::{AllocError, Global};
use std::io::Write;
use std::slice::from_ref;

// A search of the tables of a game.
#[derive(Drop)]
struct Search<'t, 'r, G: Game> {
    alloc: Global,
    known: KnownTiers<'t, G>,
    asked: PositionSearch,
    // The positions that play reaches, if the search is limited to them.
    reached: Option<&'r Reached<G>>,
    ghost is_limited: { is_some reached ≡ asked.reached },
}

/// Writes the positions that a search finds, and notes whether there is a line of any. They are written tier by tier as they are found, except that a sheet and
/// positions that are chosen by chance, sorted or apart are written when all are found.
pub fn write_found<G: Pictured, O: Write>(
    alloc: Global,
    built: &Built<G>,
    asked: PositionSearch,
    any: &mut bool,
    output: &mut O,
) -> Result<u8, Fault>
    requires order { IsOrderFrom G.Game.rules (first_of G.Game.rules asked.tier) built.now.order }
    requires held { HoldsExactly built.now.tables built.now.order }
    ensures { AreFoundBy (spec G.Pictured) asked (IsUnsearched G.Game.rules asked.tier) (O.contents output.old) (O.contents output.new) result }
{
    let reached = reached_from_start(alloc, asked.reached)?;
    let known = KnownTiers {
        tables: &built.tables,
        tiers: tiers_of(&asked.tier, built.order.tiers()),
    };
    let search = Search {
        alloc,
        known,
        asked,
        reached: reached.as_ref(),
    };
    let done = search.write(any, output);
    drop(search);
    drop(reached);
    done
}

// Returns the tiers that are searched: the named one, or all of this order.
fn tiers_of<'a>(tier: &'a Option<u64>, order: &'a [u64]) -> &'a [u64]
    ensures { MatchOption tier.now (result.now ≡ order.now) (λ t. result.now ≡ t ∷ []) }
{
    match tier {
        Some(tier) => from_ref(tier),
        None => order,
    }
}

// Tests whether there are lines.
fn has_lines(lines: &Result<Vec<u8>, AllocError>) -> bool {
    match lines {
        Ok(text) => !text.is_empty(),
        Err(_) => false,
    }
}

impl<G: Pictured> Search<'_, '_, G> {
    // Writes the found positions.
    fn write<O: Write>(&self, any: &mut bool, output: &mut O) -> Result<u8, Fault>
        requires { AreTiersFor G.Game.rules self.now.asked.tier self.now.known.tiers.now }
        ensures { AreFoundBy (spec G.Pictured) self.now.asked (IsUnsearched G.Game.rules self.now.asked.tier)
            (O.contents output.old) (O.contents output.new) result }
    {
        let asked = self.asked;
        match asked.report {
            Report::Sheet => {
                let sheet = found_sheet(
                    self.alloc,
                    &self.known,
                    asked.sought,
                    self.reached,
                    asked.choice,
                );
                put_text(output, sheet)
            }
            Report::Lines(form) => match asked.choice {
                Choice::First(limit) => self.write_by_tier(form, limit, any, output),
                Choice::Random { .. } | Choice::Sorted { .. } | Choice::Apart { .. } => {
                    let lines = self.lines_at_once(form);
                    *any = has_lines(&lines);
                    put_text(output, lines)
                }
            },
        }
    }

    // Writes the found positions of one tier after another, up to the limit.
    fn write_by_tier<O: Write>(
        &self,
        form: LineForm,
        limit: usize,
        any: &mut bool,
        output: &mut O,
    ) -> Result<u8, Fault>
        requires tiers { AreTiersFor G.Game.rules self.now.asked.tier self.now.known.tiers.now }
        requires lines { self.now.asked.report ≡ Lines form }
        requires first { self.now.asked.choice ≡ First limit }
        ensures { IsToldByTier (spec G.Pictured) self.now.asked (IsUnsearched G.Game.rules self.now.asked.tier)
            (O.contents output.old) (O.contents output.new) result }
    {
        let mut left = limit;
        for tier in self.known.tiers {
            let many = self.write_tier(*tier, form, left, output)?;
            *any |= many > 0;
            left = left.saturating_sub(many);
            if left == 0 {
                return Ok(DONE);
            }
        }
        Ok(DONE)
    }

    // Writes the found positions of one of the tiers, up to this limit, and returns their number.
    fn write_tier<O: Write>(
        &self,
        tier: u64,
        form: LineForm,
        left: usize,
        output: &mut O,
    ) -> Result<usize, Fault>
        requires { Contains self.now.known.tiers.now tier }
        ensures told { IsTierTold (spec G.Pictured) self.now.asked form tier left (O.contents output.old) (O.contents output.new) result }
        ensures fault { IfErr result (λ fault. IsOutputFault fault ⊎ IsMemoryFault fault) }
    {
        let known = KnownTiers {
            tables: self.known.tables,
            tiers: &[tier],
        };
        let found = find(self.alloc, &known, self.asked.sought, self.reached, left)?;
        let lines = lines_of::<G>(self.alloc, found.as_slice(), form)?;
        put(output, lines.as_slice())?;
        Ok(found.len())
    }

    // Returns the lines of the chosen positions.
    fn lines_at_once(&self, form: LineForm) -> Result<Vec<u8>, AllocError>
        ensures { IfOk result (λ v. (xs : List Found) × AreChosen G.Game.rules self.now.asked.sought self.now.asked.reached self.now.asked.choice
            self.now.known.tiers.now xs × AreLinesOf (spec G.Pictured) form xs v.items) }
    {
        let asked = self.asked;
        let found = find_some(
            self.alloc,
            &self.known,
            asked.sought,
            self.reached,
            asked.choice,
        )?;
        lines_of::<G>(self.alloc, found.as_slice(), form)
    }
}

// Returns a line of this form for each found position.
fn lines_of<G: Pictured>(
    alloc: Global,
    found: &[Found],
    form: LineForm,
) -> Result<Vec<u8>, AllocError>
    requires { All (IsFound G.Game.rules) found.now }
    ensures { IfOk result (λ v. AreLinesOf (spec G.Pictured) form found.now v.items) }
{
    match form {
        LineForm::Rows => found_rows::<G>(alloc, found),
        LineForm::Json => found_lines::<G>(alloc, found),
        LineForm::Boards => board_rows::<G>(alloc, found),
    }
}

// Returns a row for each found position, below its board.
fn board_rows<G: Pictured>(alloc: Global, found: &[Found]) -> Result<Vec<u8>, AllocError>
    requires { All (IsFound G.Game.rules) found.now }
    ensures { IfOk result (λ v. v.items ≡ flat_map (board_row (spec G.Pictured)) found.now) }
{
    let mut rows = Vec::new(alloc);
    for x in found {
        push_below::<G>(&mut rows, x)?;
    }
    Ok(rows)
}

// Appends the row of a found position, below its board.
fn push_below<G: Pictured>(rows: &mut Vec<u8>, x: &Found) -> Result<(), AllocError>
    requires { IsFound G.Game.rules x.now }
    ensures { OnOk result (rows.new.items ≡ rows.old.items ++ board_row (spec G.Pictured) x.now) }
{
    rows.extend_from_slice(draw::<G>(x.position).as_slice())?;
    rows.extend_from_slice(b"\n")?;
    push_found::<G>(rows, x)
}
