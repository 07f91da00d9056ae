// What C calls for what was saved: two rings compared (M-108), a recorded trace played (M-106), a damaged stream (M-111). Each entry is
// thin and has the whole contract of what it calls.
#![tactic(auto)]

ghost use Rattle.std.specs.Prelude.{◌≡◌};
ghost use Rattle.meaning.specs.Editions.{editions, known};
ghost use Rattle.meaning.specs.Events.{event_limit, asked_events};
ghost use Rattle.compare.specs.Compared.{event_reads, side_of, compared, scratch_then};
ghost use Rattle.replay.specs.Replay.{replay_told, rooms_of, replay_events};
ghost use Rattle.salvage.specs.Salvage.{salvage_told, salvage_out, salvage_list};

use compare::Compared;
use meaning::Event;
use replay::Replayed;
use salvage::Salvaged;

// "1 to 32 of them", and with M-112 up to 1,024.
pub const EVENTS: usize = 1024;

// Two rings, each with its counts and its scratch, under one table (M-108).
#[unsafe(no_mangle)]
pub extern "C" fn ollskuvan_compare(
    left: &[u8],
    lhead: u64,
    ltail: u64,
    lscratch: &mut [u8],
    right: &[u8],
    rhead: u64,
    rtail: u64,
    rscratch: &mut [u8],
    events: &[Event],
    edition: u32,
) -> Compared
    ensures value { result ≡ compared (event_reads (known editions edition) events.now) (side_of (asked_events event_limit editions edition events.now) left.now lhead ltail lscratch.old) (side_of (asked_events event_limit editions edition events.now) right.now rhead rtail rscratch.old) }
    ensures lscratch_after { lscratch.new ≡ scratch_then result (side_of (asked_events event_limit editions edition events.now) left.now lhead ltail lscratch.old) }
    ensures rscratch_after { rscratch.new ≡ scratch_then result (side_of (asked_events event_limit editions edition events.now) right.now rhead rtail rscratch.old) }
{
    let e = edition as u64;
    comparing::compare_rings(
        left, lhead, ltail, lscratch, right, rhead, rtail, rscratch, events, EVENTS, e,
    )
}

// A recorded trace, played over a simulated ring: `rooms` is the ring and then the scratch, each half of it; one journal for all
// drains.
#[unsafe(no_mangle)]
pub extern "C" fn ollskuvan_replay(
    trace: &[u8],
    start: u64,
    events: &[Event],
    edition: u32,
    rooms: &mut [u8],
    journal: &mut [u8],
) -> Replayed
    ensures value { result ≡ replay_told (replay_events event_limit editions edition events.now trace.now start rooms.old journal.old) }
    ensures rooms_after { rooms.new ≡ rooms_of (replay_events event_limit editions edition events.now trace.now start rooms.old journal.old) }
    ensures journal_after { journal.new ≡ (replay_events event_limit editions edition events.now trace.now start rooms.old journal.old).now.journal }
{
    let e = edition as u64;
    replaying::replay(trace, start, e, events, EVENTS, rooms, journal)
}

// The salvage of a damaged stream under a table of events: what is kept is written to `out`, one entry of 22 bytes for each run
// that is dropped to `changes`.
#[unsafe(no_mangle)]
pub extern "C" fn ollskuvan_salvage(
    stream: &[u8],
    events: &[Event],
    edition: u32,
    out: &mut [u8],
    changes: &mut [u8],
) -> Salvaged
    ensures value { result ≡ salvage_told event_limit editions edition events.now stream.now out.old changes.old }
    ensures out_after { out.new ≡ salvage_out event_limit editions edition events.now stream.now out.old changes.old }
    ensures changes_after { changes.new ≡ salvage_list event_limit editions edition events.now stream.now out.old changes.old }
{
    let e = edition as u64;
    salvaging::salvage(stream, e, events, EVENTS, out, changes)
}
