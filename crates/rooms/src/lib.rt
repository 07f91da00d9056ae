// Ring and scratch as the two halves of one lent slice: a record put round the ring, a drain with a table within.
#![tactic(auto)]

ghost use Rattle.std.specs.Prelude.{◌≡◌, ◌+◌, ◌++◌, length, take};
ghost use Rattle.meaning.specs.Editions.{editions, known};
ghost use Rattle.meaning.specs.Drain as Drain;
ghost use Rattle.meaning.specs.Events.{judge_events};
ghost use Rattle.replay.specs.Replay.{put_round};
ghost use Rattle.replay.specs.Steps.{run_in};

use event_drain::Table;
use meaning::{Drained, Event};

// The writing twin of the gathering: a record is put into the ring from a place on, going round at its end.
pub fn put_round(ring: &mut [u8], place: usize, r: &[u8])
    ensures { ring.new ≡ put_round ring.old place r.now }
{
    if ring.len() < place {
        wire::copy_at(r, ring, 0);
        return;
    }
    let n = ring.len() - place;
    if r.len() <= n {
        wire::copy_at(r, ring, place);
        return;
    }
    wire::copy_at(&r[..n], ring, place);
    wire::copy_at(&r[n..], ring, 0);
}

// The plain loop with a table of events, as `event_drain` has it; edition and table passed before any entry.
pub fn drain_within(
    rooms: &mut [u8],
    h: usize,
    head: u64,
    tail: u64,
    e: u64,
    events: &[Event],
    budget: u64,
    journal: &mut [u8],
) -> Drained
    requires { length rooms.old ≡ h + h }
    ensures value { result ≡ Drain.told (run_in (judge_events (known editions e) events.now) rooms.old h head tail budget journal.old) }
    ensures journal_after { journal.new ≡ (run_in (judge_events (known editions e) events.now) rooms.old h head tail budget journal.old).state.journal }
    ensures rooms_after { rooms.new ≡ take h rooms.old ++ (run_in (judge_events (known editions e) events.now) rooms.old h head tail budget journal.old).state.scratch }
{
    let (ring, scratch) = rooms.split_at_mut(h);
    let judge = Table { edition: e, events };
    drain::drain_by(
        &judge, true, true, ring, head, tail, budget, scratch, journal,
    )
}
