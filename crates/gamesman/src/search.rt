//! The texts about all tables of a game.
ghost use Rattle.std.specs.Prelude.{◌≡◌, IfOk, is_some};
ghost use Rattle.gm_tiers.specs.Orders.{IsTierOrder};
ghost use Rattle.gm_build.specs.Work.{HoldsExactly};
ghost use Rattle.gm_analyse.specs.Bars.{IsCountsText};
ghost use Rattle.gamesman.specs.Searches.{IsLongestIn};

use crate::longest::longest_in;
use gm_analyse::bars::counts_text;
use gm_build::build::Built;
use gm_command::requests::CountsRequest;
use gm_find::reached::Reached;
use gm_game::shown::Shown;
use gm_play::known_tiers::KnownTiers;
use std::alloc::{AllocError, Global};

/// Returns the counts of all tiers as a text.
pub fn counts_of<G: Shown>(
    alloc: Global,
    built: &Built<G>,
    asked: CountsRequest,
) -> Result<Vec<u8>, AllocError>
    requires order { IsTierOrder G.Game.rules built.now.order }
    requires held { HoldsExactly built.now.tables built.now.order }
    ensures { IfOk result (λ v. IsCountsText G.Game.rules asked.among asked.reached asked.by_tier asked.form built.now.order v.items) }
{
    let reached = reached_from_start(alloc, asked.reached)?;
    let known = KnownTiers {
        tables: &built.tables,
        tiers: built.order.tiers(),
    };
    let text = counts_text(
        alloc,
        &known,
        asked.among,
        asked.by_tier,
        asked.form,
        reached.as_ref(),
    );
    drop(reached);
    text
}

/// Returns the longest wins and the longest losses, as lines of JSON or as rows.
pub fn longest_of<G: Shown>(
    alloc: Global,
    built: &Built<G>,
    reached: bool,
    limit: usize,
    json: bool,
) -> Result<Vec<u8>, AllocError>
    requires order { IsTierOrder G.Game.rules built.now.order }
    requires held { HoldsExactly built.now.tables built.now.order }
    ensures { IfOk result (λ v. IsLongestIn G.Game.rules G.shown G.move_shown reached limit built.now.order json v.items) }
{
    let reached = reached_from_start(alloc, reached)?;
    let known = KnownTiers {
        tables: &built.tables,
        tiers: built.order.tiers(),
    };
    let text = longest_in(alloc, &known, reached.as_ref(), limit, json);
    drop(reached);
    text
}

/// Finds the positions that play reaches, on request.
pub fn reached_from_start<G: Shown>(
    alloc: Global,
    asked: bool,
) -> Result<Option<Reached<G>>, AllocError>
    ensures { IfOk result (λ reached. is_some reached ≡ asked) }
{
    if !asked {
        return Ok(None);
    }
    match Reached::from_start(alloc) {
        Ok(reached) => Ok(Some(reached)),
        Err(refused) => Err(refused),
    }
}
