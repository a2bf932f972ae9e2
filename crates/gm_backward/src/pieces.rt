//! The pairs of a piece of a level, by the tiles that have their parents.
ghost use Rattle.std.specs.Prelude.{◌≡◌, ℕ, ◌<◌, ◌++◌, ◌∷◌, List, [], OnOk};
ghost use Rattle.gm_frontier.specs.Notes.{NoteData};
ghost use Rattle.gm_frontier.specs.Pairs.{pairs_of, piece_of};
ghost use Rattle.gm_backward.specs.inner.Cuts.{AreAscendingCuts};
ghost use Rattle.gm_backward.specs.inner.Split.{AreSplit};
ghost use Rattle.gm_backward.specs.declared.cuts.Cuts.{Cuts as CutsData};

use crate::cuts::Cuts;
use crate::level_job::LevelJob;
use gm_frontier::note::Note;
use gm_frontier::pair_list::PairList;
use gm_game::game::Game;
use std::alloc::{AllocError, Global};

/// The pairs of a piece, each in the list of the tile that has its parent.
pub(crate) type PairLists<G> = [PairList<G>; 4];

/// Returns four empty lists.
pub(crate) fn empty_lists<G: Game>(alloc: Global) -> PairLists<G> {
    [
        PairList::new(alloc),
        PairList::new(alloc),
        PairList::new(alloc),
        PairList::new(alloc),
    ]
}

// Empties the lists.
fn clear<G: Game>(lists: &mut PairLists<G>)
    ensures { (size : ℕ) (cuts : CutsData) → AreSplit size cuts [] lists.new }
{
    for list in lists.iter_mut() {
        list.clear();
    }
}

// Puts a pair into its list.
fn put<G: Game>(
    lists: &mut PairLists<G>,
    cuts: &Cuts,
    note: &Note<G>,
    parent: u64,
) -> Result<(), AllocError>
    ensures { OnOk result ((size : ℕ) (pairs : List (NoteData × ℕ)) → AreAscendingCuts size cuts.now → parent < size
        → AreSplit size cuts.now pairs lists.old → AreSplit size cuts.now (pairs ++ (note.now, parent) ∷ []) lists.new) }
{
    lists[cuts.tile_of(parent)].push(note, parent)?;
    Ok(())
}

/// Puts the pairs of a piece into the lists, in place of what they had.
pub(crate) fn split<G: Game>(
    job: &LevelJob<G>,
    piece: usize,
    lists: &mut PairLists<G>,
) -> Result<(), AllocError>
    ensures { OnOk result (AreSplit (G.rules.tier_size job.now.level.now.place.tier) job.now.cuts
        (pairs_of G.rules job.now.level.now.place.tier 0 (G.rules.tier_size job.now.level.now.place.tier)
        (piece_of piece job.now.notes job.now.level.now.notes)) lists.new) }
{
    clear(lists);
    let level = job.level;
    let size = G::tier_size(level.place().tier);
    for (note, parent) in level.pairs(piece, job.notes, 0, size) {
        put(lists, &job.cuts, &note, parent)?;
    }
    Ok(())
}
