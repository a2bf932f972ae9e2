//! The games by their names.
ghost use Rattle.std.specs.Prelude.{◌≡◌, length};
ghost use Rattle.gamesman.specs.Games.{spec, spec_of};
ghost use Rattle.gamesman.specs.Answers.{IsAnswered, IsAnsweredIn};
ghost use Rattle.gamesman.specs.inner.Services.{done_of};
ghost use Rattle.gamesman.specs.Listed.{IsFilledBy};

use crate::check::check_folder;
use crate::fault::Fault;
use crate::from_tables::answer_from_tables;
use crate::host::Host;
use crate::list::ListLine;
use crate::located::locate;
use crate::naming::write_naming;
use crate::service::{Ended, Service, answer_asked};
use crate::sheet::{Parts, fill};
use crate::tables::BuildOptions;
use gm_command::names::GameName;
use gm_command::requests::GameCommand;
use gm_command::with_games;
use gm_draw::pictured::Pictured;
use gm_page::puzzles::SheetLook;
use std::io::{Read, Write};

// Returns how a command ended that goes on with no other game.
fn done(answered: Result<u8, Fault>) -> Result<Ended, Fault>
    ensures { result ≡ done_of answered }
{
    match answered {
        Ok(status) => Ok(Ended::Done(status)),
        Err(fault) => Err(fault),
    }
}

// Answers a command about a game, `ask` up to a line that names a game.
fn answer<G: Pictured + Send + Sync, R: Host, I: Read, O: Write, E: Write + Send>(
    rt: &R,
    command: GameCommand<'_>,
    options: BuildOptions<'_>,
    service: &mut Service,
    input: &mut I,
    output: &mut O,
    errors: &mut E,
) -> Result<Ended, Fault>
    ensures answered { IsAnsweredIn (spec G.Pictured) command.entry service.old service.new
        (I.remaining input.old) (I.remaining input.new) (O.contents output.old) (O.contents output.new) result }
    ensures naming { command.entry ≡ GameCommand.Naming → output.new ≡ output.old }
{
    match command {
        GameCommand::FromTables(command) => done(answer_from_tables::<G, R, I, O, E>(
            rt, command, options, input, output, errors,
        )),
        GameCommand::Ask(asked) => answer_asked::<G, R, I, O, E>(
            rt, asked, options, service, input, output, errors,
        ),
        GameCommand::Locate { position, json } => {
            done(locate::<G, O>(rt.alloc(), position, json, output))
        }
        GameCommand::Check { folder, json } => done(check_folder::<G, R, O, E>(
            rt,
            folder,
            json,
            output,
            errors,
            options.progress,
        )),
        GameCommand::Naming => done(write_naming::<G, E>(errors)),
    }
}

/// Answers a command about the game of this name, `ask` up to a line that names a game.
pub fn answer_for<R: Host, I: Read, O: Write, E: Write + Send>(
    rt: &R,
    game: GameName,
    command: GameCommand<'_>,
    options: BuildOptions<'_>,
    service: &mut Service,
    input: &mut I,
    output: &mut O,
    errors: &mut E,
) -> Result<Ended, Fault>
    ensures answered { IsAnsweredIn (spec_of game) command.entry service.old service.new (I.remaining input.old) (I.remaining input.new)
        (O.contents output.old) (O.contents output.new) result }
    ensures naming { command.entry ≡ GameCommand.Naming → output.new ≡ output.old }
{
    macro_rules! answers {
        ([] $({ $($name:literal => $game:ident: $type:ty,)* })*) => {
            match game {
                $($(GameName::$game => answer::<$type, R, I, O, E>(rt, command, options, service, input, output, errors),)*)*
            }
        };
    }
    with_games!(answers)
}

/// Answers a command that begins with the game of this name, `ask` also about the games that its lines name.
pub fn answer_all<R: Host, I: Read, O: Write, E: Write + Send>(
    rt: &R,
    game: GameName,
    command: GameCommand<'_>,
    options: BuildOptions<'_>,
    input: &mut I,
    output: &mut O,
    errors: &mut E,
) -> Result<u8, Fault>
    ensures { IsAnswered (spec_of game) command.entry (I.remaining input.old) (O.contents output.old) (O.contents output.new) result }
{
    let mut service = Service::new(rt.alloc());
    let mut now = game;
    for turn in 0..u64::MAX {
        match answer_for(
            rt,
            now,
            command,
            options,
            &mut service,
            input,
            output,
            errors,
        ) {
            Ok(Ended::Done(status)) => return Ok(status),
            Ok(Ended::Game(next)) => now = next,
            Err(fault) => return Err(fault),
        }
    }
    Err(Fault::OutputFailed)
}

/// Makes the parts of a sheet for those lines of a list whose game is at the place k, the game of this name.
pub fn fill_for<R: Host, E: Write + Send>(
    rt: &R,
    game: GameName,
    k: usize,
    lines: &[ListLine],
    look: SheetLook,
    options: BuildOptions<'_>,
    parts: &mut Parts,
    errors: &mut E,
) -> Result<(), Fault>
    requires { length parts.old.puzzles.items ≡ length lines.now }
    ensures { IsFilledBy (spec_of game) look k lines.now parts.old parts.new result }
{
    macro_rules! fills {
        ([] $({ $($name:literal => $game:ident: $type:ty,)* })*) => {
            match game {
                $($(GameName::$game => fill::<$type, R, E>(rt, k, lines, look, options, parts, errors),)*)*
            }
        };
    }
    with_games!(fills)
}
