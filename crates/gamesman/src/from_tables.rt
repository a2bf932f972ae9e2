//! The commands that are answered from tables: the tables are built once, and then one function writes the answer.
ghost use Rattle.gm_tiers.specs.Orders.{IsOrderFrom};
ghost use Rattle.gm_build.specs.Work.{HoldsExactly, IsSomeWork};
ghost use Rattle.std.specs.Prelude.{◌≡◌, true};
ghost use Rattle.gamesman.specs.Games.{spec};
ghost use Rattle.gamesman.specs.inner.Needed.{IsNeeded};
ghost use Rattle.gamesman.specs.Answers.{IsAnsweredFromTables};
ghost use Rattle.gamesman.specs.Finds.{AreFoundBy};
ghost use Rattle.gamesman.specs.Searches.{first_of, IsUnsearched};

use crate::analyse::analysis_lines;
use crate::explore::{placed_text, text_for};
use crate::fault::Fault;
use crate::filter::answer_input;
use crate::found::write_found;
use crate::host::Host;
use crate::needs::{Needs, needs_of};
use crate::output::{put, put_text};
use crate::play::play;
use crate::search::{counts_of, longest_of};
use crate::solve::report_for;
use crate::tables::BuildOptions;
use gm_build::build::Built;
use gm_command::requests::{PositionSearch, Report, TableCommand, Telling};
use gm_draw::pictured::Pictured;
use gm_game::position::Position;
use gm_page::page::page_text;
use gm_play::known::Known;
use std::alloc::Global;
use std::io::{Read, Write};

// What a terminal gets if a search finds no position.
const NOTHING_FOUND: &[u8] = b"gamesman: no position is like this\n";

/// Answers a command from tables. What it needs is read first, and then the tables are built.
pub fn answer_from_tables<G: Pictured + Send + Sync, R: Host, I: Read, O: Write, E: Write + Send>(
    rt: &R,
    command: TableCommand<'_>,
    options: BuildOptions<'_>,
    input: &mut I,
    output: &mut O,
    errors: &mut E,
) -> Result<u8, Fault>
    ensures { IsAnsweredFromTables (spec G.Pictured) command.entry (I.remaining input.old) (O.contents output.old) (O.contents output.new) result }
{
    let needs = match needs_of::<G, R>(rt, command) {
        Ok(needs) => needs,
        Err(fault) => return Err(fault),
    };
    let built = match options.build::<G, R, E>(rt, needs.tier, errors) {
        Ok(built) => built,
        Err(fault) => return Err(fault),
    };
    let written = write_answer(
        rt.alloc(),
        &built,
        command,
        &needs,
        input,
        output,
        errors,
        options.progress,
    );
    drop(built);
    drop(needs);
    written
}

// Writes the answer to a command from its tables.
fn write_answer<G: Pictured, I: Read, O: Write, E: Write>(
    alloc: Global,
    built: &Built<G>,
    command: TableCommand<'_>,
    needs: &Needs,
    input: &mut I,
    output: &mut O,
    errors: &mut E,
    progress: Telling,
) -> Result<u8, Fault>
    requires needed { IsNeeded (spec G.Pictured) command needs.now }
    requires order { IsOrderFrom G.Game.rules needs.now.tier built.now.order }
    requires held { HoldsExactly built.now.tables built.now.order }
    requires work { IsSomeWork G.Game.rules built.now.order built.now.work }
    ensures { IsAnsweredFromTables (spec G.Pictured) command.entry (I.remaining input.old) (O.contents output.old) (O.contents output.new) result }
{
    match command {
        TableCommand::Solve { json } => put_text(output, report_for(alloc, built.work, json)),
        TableCommand::Explore { question, .. } => {
            let known = known_at(built, needs.position);
            put_text(output, text_for(alloc, &known, question))
        }
        TableCommand::Filter { question } => answer_input(alloc, built, question, input, output),
        TableCommand::Page(asked) => {
            let known = known_at(built, needs.position);
            let limit = asked.limit.max(1);
            put_text(
                output,
                page_text(alloc, &known, limit, needs.engine.as_slice()),
            )
        }
        TableCommand::At { json, .. } => {
            let known = known_at(built, needs.position);
            put_text(output, placed_text(alloc, &known, json))
        }
        TableCommand::Find(search) => find(alloc, built, search, output, errors, progress),
        TableCommand::Counts(asked) => put_text(output, counts_of(alloc, built, asked)),
        TableCommand::Longest {
            reached,
            limit,
            json,
        } => put_text(output, longest_of(alloc, built, reached, limit, json)),
        TableCommand::Analyse => put_text(output, analysis_lines(alloc, built)),
        TableCommand::Play(asked) => {
            let known = known_at(built, needs.position);
            play(&known, asked, input, output)
        }
    }
}

// Writes the positions that a search finds. A terminal gets a line if it lists none.
fn find<G: Pictured, O: Write, E: Write>(
    alloc: Global,
    built: &Built<G>,
    asked: PositionSearch,
    output: &mut O,
    errors: &mut E,
    progress: Telling,
) -> Result<u8, Fault>
    requires order { IsOrderFrom G.Game.rules (first_of G.Game.rules asked.tier) built.now.order }
    requires held { HoldsExactly built.now.tables built.now.order }
    ensures { AreFoundBy (spec G.Pictured) asked (IsUnsearched G.Game.rules asked.tier) (O.contents output.old) (O.contents output.new) result }
{
    let mut any = asked.report == Report::Sheet;
    let written = write_found(alloc, built, asked, &mut any, output);
    note_nothing(any, written.is_ok(), progress, errors);
    written
}

// Writes at a terminal that a search has found nothing, if that is so.
fn note_nothing<E: Write>(any: bool, done: bool, progress: Telling, errors: &mut E) {
    if !any && done && progress == Telling::Terminal {
        let _ = put(errors, NOTHING_FOUND);
    }
}

// Returns a position with the tables of all tiers that its tier reaches.
fn known_at<G: Pictured>(built: &Built<G>, position: Position) -> Known<'_, G>
    requires legal { G.Game.rules.is_legal position ≡ true }
    requires order { IsOrderFrom G.Game.rules position.tier built.now.order }
    requires held { HoldsExactly built.now.tables built.now.order }
    ensures { result.position ≡ position }
{
    Known {
        tables: &built.tables,
        position,
    }
}
