//! Runs of events over shards.
ghost use Rattle.std.specs.Prelude.{◌≡◌, List, MatchBool, All};
ghost use Rattle.gm_counters.specs.State.{ShardState, with_pair};
ghost use Rattle.gm_counters.specs.Good.{IsGood};
ghost use Rattle.gm_counters.specs.Steps.{CanDeliver};
ghost use Rattle.gm_shard.specs.Runs.{shard_of, Takes, Changes, Runs};

use crate::event::Event;
use crate::shard::{Shard, is_added};
use gm_frontier::note::Note;
use gm_game::game::Game;
use gm_game::limits::REMOTENESS;

// Returns the place of the shard that an event names.
fn shard_of<G: Game>(event: &Event<G>) -> usize
    ensures { result ≡ shard_of event.now }
{
    match event {
        Event::Deliver {
            shard,
            note: _,
            parent: _,
        } => *shard,
        Event::Close { shard, expected: _ } => *shard,
        Event::NextPhase { shard, last: _ } => *shard,
    }
}

// Delivers a note if it can be delivered. Returns whether it could.
fn take_note<G: Game>(shard: &mut Shard<G>, note: &Note<G>, parent: u64) -> bool
    ensures { MatchBool result (CanDeliver G.rules shard.old note.now.position parent × (shard.new ≡ with_pair shard.old note.now.position parent))
        ((shard.new ≡ shard.old) × (CanDeliver G.rules shard.old note.now.position parent → ⊥)) }
{
    let _position = note.position();
    let _before = shard.range();
    let answer = shard.deliver(note, parent);
    let _after = shard.range();
    is_added(&answer)
}

// Applies an event to the shard that it names. Returns whether it could be applied.
fn take<G: Game>(shard: &mut Shard<G>, event: &Event<G>) -> bool
    ensures { MatchBool result (Takes G.rules event.now shard.old shard.new)
        ((shard.new ≡ shard.old) × ((t : ShardState) → Takes G.rules event.now shard.old t → ⊥)) }
{
    match event {
        Event::Deliver {
            shard: _,
            note,
            parent,
        } => take_note(shard, note, *parent),
        Event::Close { shard: _, expected } => {
            shard.is_for(expected) && shard.level() <= REMOTENESS && shard.close(expected).is_ok()
        }
        Event::NextPhase { shard: _, last } => {
            let can_turn = shard.can_turn(last);
            if can_turn {
                shard.next_phase(last);
            }
            can_turn
        }
    }
}

// Applies an event to the shard that it names, if there is one.
fn apply<G: Game>(shards: &mut [Shard<G>], event: &Event<G>) -> bool
    ensures { MatchBool result (Changes G.rules event.now shards.old shards.new)
        ((shards.new ≡ shards.old) × ((mid : List ShardState) → Changes G.rules event.now shards.old mid → ⊥)) }
{
    let index = shard_of(event);
    if index >= shards.len() {
        return false;
    }
    take(&mut shards[index], event)
}

/// Applies the events in order, and counts those that changed a state. An event that is refused, names no shard or misses its call's condition is skipped.
pub fn replay<G: Game>(shards: &mut [Shard<G>], events: &[Event<G>]) -> u64
    ensures run { Runs G.rules shards.old events.now shards.new result }
    ensures good { All (IsGood G.rules) shards.new }
{
    let mut applied = 0;
    for event in events {
        if apply(shards, event) {
            applied += 1;
        }
    }
    for shard in shards.iter() {
        let _good = shard.range();
    }
    applied
}
