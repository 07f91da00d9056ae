// One record with a table of events. The reader: the chain of stops with a budget of one and no journal; then the record, gathered
// where it goes round the ring's end, is read under the attributes of its event. A table's limit is a number of 32 bits, as the number inspected is
// that is told.
#![tactic(auto)]

ghost use Rattle.std.specs.Prelude.{◌≡◌};
ghost use Rattle.meaning.specs.Editions.{editions};
ghost use Rattle.meaning.specs.Events.{one_events_scratch};
ghost use Rattle.event_one.specs.Told.{one_events_told, one_events_words};

use meaning::Event;
use one::OneTold;

// The record's answer, then 40 if there are fewer than 56 words; the record is shown and the tail moved all the same.
// Refused or stopped: the words are unchanged.
pub fn read_one_events(
    ring: &[u8],
    head: u64,
    tail: u64,
    e: u64,
    events: &[Event],
    limit: u32,
    scratch: &mut [u8],
    words: &mut [u64],
) -> OneTold
    ensures value { result ≡ one_events_told limit editions e events.now ring.now head tail scratch.old words.old }
    ensures scratch_after { scratch.new ≡ one_events_scratch limit editions e events.now ring.now head tail scratch.old }
    ensures words_after { words.new ≡ one_events_words limit editions e events.now ring.now head tail scratch.old words.old }
{
    let ok = record::allowed(e);
    let table = events::sound(events, limit as usize);
    let next = match one::next_one(ok, table, ring, head, tail, scratch) {
        Ok(next) => next,
        Err(reason) => return one::told_stop(Err(reason), tail),
    };
    let Some(found) = next else {
        return one::told_stop(Ok(()), tail);
    };
    let r = ring::record_shown(ring, scratch, found);
    let j = event_read::read_event(r, e, events, words);
    one::told_taken(ring, found, tail, j)
}
