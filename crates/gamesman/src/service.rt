//! The service that answers positions, and goes on from game to game.
ghost use Rattle.std.specs.Prelude.{◌≡◌, [], None, OnOk, OnErr, IfErr};
ghost use Rattle.std.specs.Io.KnownBytes.{Appends};
ghost use Rattle.gm_tiers.specs.Orders.{IsTierOrder};
ghost use Rattle.gm_build.specs.Work.{HoldsExactly};
ghost use Rattle.gm_play.specs.Sessions.{AppendsPart};
ghost use Rattle.gm_json.specs.inner.Feeds.{unread};
ghost use Rattle.gamesman.specs.Games.{spec};
ghost use Rattle.gamesman.specs.Outputs.{IsOutputFault};
ghost use Rattle.gamesman.specs.Asks.{front_text, ready_text, IsAskedIn};

use crate::fault::Fault;
use crate::host::Host;
use crate::output::put;
use crate::run::DONE;
use crate::tables::BuildOptions;
use gm_build::build::Built;
use gm_command::names::{GameName, game_named};
use gm_command::requests::AskRequest;
use gm_draw::pictured::Pictured;
use gm_json::ask::{READY, ask_until};
use gm_json::feed::Feed;
use gm_play::closed::Closed;
use std::alloc::Global;
use std::io::{Read, Write};

/// What a service has at hand when it comes to a game.
#[derive(Drop)]
pub struct Service {
    /// What it has read and not taken.
    pub feed: Feed,
    /// What it writes once the tables of the game are there. At first it is the line that reports that, if one is requested.
    pub front: Option<Vec<u8>>,
}

impl Service {
    /// Returns what a service has at hand at first: nothing.
    pub fn new(alloc: Global) -> Self
        ensures lines { result.feed.lines ≡ 0 }
        ensures unread { unread result.feed ≡ [] }
        ensures front { result.front ≡ None }
    {
        Service {
            feed: Feed::new(alloc),
            front: None,
        }
    }
}

/// How a command about a game ended: with this status, or at a line that names a game with which its service goes on.
#[derive(Clone, Copy, Debug, PartialEq, Eq)]
pub enum Ended {
    Done(u8),
    Game(GameName),
}

/// Answers positions of a game until the input ends or a line names another game. The tables are dropped then.
pub fn answer_asked<G: Pictured + Send + Sync, R: Host, I: Read, O: Write, E: Write + Send>(
    rt: &R,
    asked: AskRequest,
    options: BuildOptions<'_>,
    service: &mut Service,
    input: &mut I,
    output: &mut O,
    errors: &mut E,
) -> Result<Ended, Fault>
    ensures { IsAskedIn asked (spec G.Pictured) service.old service.new (I.remaining input.old)
        (I.remaining input.new) (O.contents output.old) (O.contents output.new) result }
{
    let built = match options.build::<G, R, E>(rt, G::initial().tier, errors) {
        Ok(built) => built,
        Err(fault) => return Err(fault),
    };
    let ended = serve(rt.alloc(), &built, asked, service, input, output);
    drop(built);
    ended
}

// Answers each position up to a line that names a game. A line that names none of the games is answered by an error.
fn serve<G: Pictured, I: Read, O: Write>(
    alloc: Global,
    built: &Built<G>,
    asked: AskRequest,
    service: &mut Service,
    input: &mut I,
    output: &mut O,
) -> Result<Ended, Fault>
    requires order { IsTierOrder G.Game.rules built.now.order }
    requires held { HoldsExactly built.now.tables built.now.order }
    ensures { IsAskedIn asked (spec G.Pictured) service.old service.new (I.remaining input.old)
        (I.remaining input.new) (O.contents output.old) (O.contents output.new) result }
{
    write_front(asked.ready, service, output)?;
    let tables = Closed {
        tables: &built.tables,
    };
    let tiers = built.order.tiers();
    for line in 0..u64::MAX {
        let feed = &mut service.feed;
        let turn = match ask_until(alloc, &tables, tiers, asked.answer, feed, input, output) {
            Ok(Some(turn)) => turn,
            Ok(None) => return Ok(Ended::Done(DONE)),
            Err(error) => return Err(Fault::from(error)),
        };
        if let Some(game) = game_named(turn.name.as_str()) {
            service.front = Some(turn.there);
            return Ok(Ended::Game(game));
        }
        put(output, turn.unknown.as_slice())?;
    }
    Err(Fault::InputFailed)
}

// Writes what is written once the tables of a game are there.
fn write_front<O: Write>(ready: bool, service: &Service, output: &mut O) -> Result<(), Fault>
    ensures ok { OnOk result (Appends (O.contents output.old) (O.contents output.new) (front_text ready service.now.front)) }
    ensures err { OnErr result (AppendsPart (O.contents output.old) (O.contents output.new) (front_text ready service.now.front)) }
    ensures fault { IfErr result IsOutputFault }
{
    match &service.front {
        Some(line) => put(output, line.as_slice()),
        None if ready => put(output, READY),
        None => Ok(()),
    }
}
