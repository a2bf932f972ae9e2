//! The events of a tier's work: every step that a thread takes on a shard is one of these.

use gm_frontier::expected::Expected;
use gm_frontier::last::Last;
use gm_frontier::note::Note;
use gm_game::game::Game;

/// One step on the shard that it names by its place in a list.
#[derive(Drop)]
pub enum Event<G: Game> {
    Deliver {
        shard: usize,
        note: Note<G>,
        parent: u64,
    },
    Close {
        shard: usize,
        expected: Expected<G>,
    },
    NextPhase {
        shard: usize,
        last: Last<G>,
    },
}
