// What C calls, with a table of events and a loop: the drain and the walk over a backward ring. They stand apart from the other exports so that the exact
// judge has one caller in their archive and is compiled into the loop.
#![tactic(auto)]

ghost use Rattle.std.specs.Prelude.{◌≡◌};
ghost use Rattle.meaning.specs.Editions.{editions};
ghost use Rattle.meaning.specs.Drain.{told};
ghost use Rattle.meaning.specs.Events.{event_limit, drain_events};
ghost use Rattle.meaning.specs.Backward.{walk_told, walk_events};

use meaning::{Drained, Event, Walked};

// "1 to 32 of them", and with M-112 up to 1,024.
const EVENTS: usize = 1024;

// With a table of events: C's array of structs of seven 64-bit words, lent as it is.
#[unsafe(no_mangle)]
pub extern "C" fn ollskuvan_drain_events(
    ring: &[u8],
    head: u64,
    tail: u64,
    events: &[Event],
    edition: u32,
    budget: u64,
    scratch: &mut [u8],
    journal: &mut [u8],
) -> Drained
    ensures value { result ≡ told (drain_events event_limit editions edition events.now ring.now head tail budget journal.old scratch.old) }
    ensures journal_after { journal.new ≡ (drain_events event_limit editions edition events.now ring.now head tail budget journal.old scratch.old).state.journal }
    ensures scratch_after { scratch.new ≡ (drain_events event_limit editions edition events.now ring.now head tail budget journal.old scratch.old).state.scratch }
{
    let e = edition as u64;
    fast_event_drain::drain_events(
        ring, head, tail, e, events, EVENTS, budget, scratch, journal,
    )
}

// A backward ring, from head upward.
#[unsafe(no_mangle)]
pub extern "C" fn ollskuvan_walk_back_events(
    ring: &[u8],
    head: u64,
    events: &[Event],
    edition: u32,
    budget: u64,
    scratch: &mut [u8],
    journal: &mut [u8],
) -> Walked
    ensures value { result ≡ walk_told (walk_events event_limit editions edition events.now ring.now head budget journal.old scratch.old) }
    ensures journal_after { journal.new ≡ (walk_events event_limit editions edition events.now ring.now head budget journal.old scratch.old).state.journal }
    ensures scratch_after { scratch.new ≡ (walk_events event_limit editions edition events.now ring.now head budget journal.old scratch.old).state.scratch }
{
    let e = edition as u64;
    walk_back::walk_events(ring, head, e, events, EVENTS, budget, scratch, journal)
}
