// The library for C: the drain and the walk over a backward ring, with a table of events. Each export has the whole contract of the function that it calls.
#![tactic(auto)]

ghost use Rattle.std.specs.Prelude.{◌≡◌};
ghost use Rattle.meaning.specs.Editions.{editions};
ghost use Rattle.meaning.specs.Drain.{told};
ghost use Rattle.meaning.specs.Events.{event_limit, drain_events};
ghost use Rattle.meaning.specs.Backward.{walk_told, walk_events};

use meaning::{Drained, Event, Walked};

#[unsafe(no_mangle)]
pub extern "C" fn ollskuvan_drain_events(
    ring: &[u8],
    head: u64,
    tail: u64,
    events: &[Event],
    edition: u32,
    budget: u64,
    scratch: &mut [u8],
    journal: &mut [u8],
) -> Drained
    ensures value { result ≡ told (drain_events event_limit editions edition events.now ring.now head tail budget journal.old scratch.old) }
    ensures journal_after { journal.new ≡ (drain_events event_limit editions edition events.now ring.now head tail budget journal.old scratch.old).state.journal }
    ensures scratch_after { scratch.new ≡ (drain_events event_limit editions edition events.now ring.now head tail budget journal.old scratch.old).state.scratch }
{
    ollskuvan_table::ollskuvan_drain_events(
        ring, head, tail, events, edition, budget, scratch, journal,
    )
}

#[unsafe(no_mangle)]
pub extern "C" fn ollskuvan_walk_back_events(
    ring: &[u8],
    head: u64,
    events: &[Event],
    edition: u32,
    budget: u64,
    scratch: &mut [u8],
    journal: &mut [u8],
) -> Walked
    ensures value { result ≡ walk_told (walk_events event_limit editions edition events.now ring.now head budget journal.old scratch.old) }
    ensures journal_after { journal.new ≡ (walk_events event_limit editions edition events.now ring.now head budget journal.old scratch.old).state.journal }
    ensures scratch_after { scratch.new ≡ (walk_events event_limit editions edition events.now ring.now head budget journal.old scratch.old).state.scratch }
{
    ollskuvan_table::ollskuvan_walk_back_events(
        ring, head, events, edition, budget, scratch, journal,
    )
}
