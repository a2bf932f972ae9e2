//! Advice after a fault, to a person at a terminal or on request: a second line below it.
ghost use Rattle.std.specs.Prelude.{◌≡◌};

use crate::fault::Fault;
use crate::games::answer_for;
use crate::host::Host;
use crate::service::Service;
use crate::tables::BuildOptions;
use gm_build::build_error::BuildError;
use gm_command::names::{game_named, nearest_name};
use gm_command::requests::{GameCommand, Request, TableLocation};
use std::alloc::Global;
use std::fs::{self, Files};
use std::io::{self, ErrorKind, Read, Write};

/// Writes advice after a fault of a request about a game, if there is any. If that write fails, nothing more is written.
pub fn advise<R: Host, I: Read, O: Write, E: Write + Send>(
    rt: &R,
    request: Request<'_>,
    fault: &Fault,
    input: &mut I,
    output: &mut O,
    errors: &mut E,
)
    ensures { output.new ≡ output.old }
{
    let Request::Game(request) = request else {
        return;
    };
    let game = request.game;
    let _ = match fault {
        Fault::NoSuchGame => advise_on_game(rt.alloc(), game, errors),
        Fault::NoSuchTier { .. } => writeln!(
            errors,
            "  tip: each line of 'gamesman analyse {game}' is of one of its tiers"
        ),
        Fault::AnotherGames { .. } => {
            errors.write_all(b"  tip: give each game a folder of its own\n")
        }
        Fault::NotBuilt(BuildError::StoreFailed { .. }) => match request.tables {
            TableLocation::Memory => Ok(()),
            TableLocation::Folder(folder) => advise_on_folder(rt, game, folder, false, errors),
            TableLocation::ReadOnly(folder) => advise_on_folder(rt, game, folder, true, errors),
        },
        Fault::NoSuchPosition | Fault::NoSuchPositionInLine { .. } => {
            if let Some(game) = game_named(game) {
                let options = BuildOptions::of(request, false);
                let _ = answer_for(
                    rt,
                    game,
                    GameCommand::Naming,
                    options,
                    &mut Service::new(rt.alloc()),
                    input,
                    output,
                    errors,
                );
            }
            Ok(())
        }
        _ => Ok(()),
    };
}

// Writes how to list the names of the games, and the name that was probably meant, if one is near.
fn advise_on_game<E: Write>(alloc: Global, game: &str, errors: &mut E) -> io::Result<()> {
    match nearest_name(alloc, game) {
        Ok(Some(name)) => writeln!(
            errors,
            "  tip: a similar game exists: '{name}'; 'gamesman list --all' names them all"
        ),
        _ => errors.write_all(b"  tip: 'gamesman list --all' names all games\n"),
    }
}

// Writes what is wrong with a folder if a file in it could not be read or written.
fn advise_on_folder<R: Files, E: Write>(
    rt: &R,
    game: &str,
    folder: &str,
    read_only: bool,
    errors: &mut E,
) -> io::Result<()> {
    match fs::metadata(rt, folder) {
        Err(error) if error.kind() == ErrorKind::NotFound => {
            writeln!(
                errors,
                "  tip: there is no folder '{folder}': make it first"
            )
        }
        Ok(metadata) if !metadata.is_dir() => writeln!(errors, "  tip: '{folder}' is not a folder"),
        _ if read_only => writeln!(
            errors,
            "  tip: run 'gamesman check {game} {folder}': with --read-only each file has to be there and right"
        ),
        _ => writeln!(
            errors,
            "  tip: run 'gamesman check {game} {folder}': it says what each file is"
        ),
    }
}
