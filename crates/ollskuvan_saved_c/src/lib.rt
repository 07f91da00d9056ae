// The library for C: two rings compared, a recorded trace played, a damaged stream. Each export has the whole contract of the function that it calls.
#![tactic(auto)]

ghost use Rattle.std.specs.Prelude.{◌≡◌};
ghost use Rattle.meaning.specs.Editions.{editions, known};
ghost use Rattle.meaning.specs.Events.{event_limit, asked_events};
ghost use Rattle.compare.specs.Compared.{event_reads, side_of, compared, scratch_then};
ghost use Rattle.replay.specs.Replay.{replay_told, rooms_of, replay_events};
ghost use Rattle.salvage.specs.Salvage.{salvage_told, salvage_out, salvage_list};

use compare::Compared;
use meaning::Event;
use replay::Replayed;
use salvage::Salvaged;

#[unsafe(no_mangle)]
pub extern "C" fn ollskuvan_compare(
    left: &[u8],
    lhead: u64,
    ltail: u64,
    lscratch: &mut [u8],
    right: &[u8],
    rhead: u64,
    rtail: u64,
    rscratch: &mut [u8],
    events: &[Event],
    edition: u32,
) -> Compared
    ensures value { result ≡ compared (event_reads (known editions edition) events.now) (side_of (asked_events event_limit editions edition events.now) left.now lhead ltail lscratch.old) (side_of (asked_events event_limit editions edition events.now) right.now rhead rtail rscratch.old) }
    ensures lscratch_after { lscratch.new ≡ scratch_then result (side_of (asked_events event_limit editions edition events.now) left.now lhead ltail lscratch.old) }
    ensures rscratch_after { rscratch.new ≡ scratch_then result (side_of (asked_events event_limit editions edition events.now) right.now rhead rtail rscratch.old) }
{
    ollskuvan_saved::ollskuvan_compare(
        left, lhead, ltail, lscratch, right, rhead, rtail, rscratch, events, edition,
    )
}

#[unsafe(no_mangle)]
pub extern "C" fn ollskuvan_replay(
    trace: &[u8],
    start: u64,
    events: &[Event],
    edition: u32,
    rooms: &mut [u8],
    journal: &mut [u8],
) -> Replayed
    ensures value { result ≡ replay_told (replay_events event_limit editions edition events.now trace.now start rooms.old journal.old) }
    ensures rooms_after { rooms.new ≡ rooms_of (replay_events event_limit editions edition events.now trace.now start rooms.old journal.old) }
    ensures journal_after { journal.new ≡ (replay_events event_limit editions edition events.now trace.now start rooms.old journal.old).now.journal }
{
    ollskuvan_saved::ollskuvan_replay(trace, start, events, edition, rooms, journal)
}

#[unsafe(no_mangle)]
pub extern "C" fn ollskuvan_salvage(
    stream: &[u8],
    events: &[Event],
    edition: u32,
    out: &mut [u8],
    changes: &mut [u8],
) -> Salvaged
    ensures value { result ≡ salvage_told event_limit editions edition events.now stream.now out.old changes.old }
    ensures out_after { out.new ≡ salvage_out event_limit editions edition events.now stream.now out.old changes.old }
    ensures changes_after { changes.new ≡ salvage_list event_limit editions edition events.now stream.now out.old changes.old }
{
    ollskuvan_saved::ollskuvan_salvage(stream, events, edition, out, changes)
}
