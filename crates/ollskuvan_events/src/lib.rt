// What C calls for one record under a table of events: the reader of one record, record check, a record's words. Each entry is thin and has
// the whole contract of what it calls.
#![tactic(auto)]

ghost use Rattle.std.specs.Prelude.{◌≡◌};
ghost use Rattle.meaning.specs.Editions.{editions};
ghost use Rattle.meaning.specs.Events.{event_limit, one_events_scratch, record_check_events, read_events, read_events_words};
ghost use Rattle.event_one.specs.Told.{one_events_told, one_events_words};

use meaning::{Event, Judged};
use one::OneTold;

// "1 to 32 of them", and with M-112 up to 1,024.
pub const EVENTS: u32 = 1024;

#[unsafe(no_mangle)]
pub extern "C" fn ollskuvan_read_one_events(
    ring: &[u8],
    head: u64,
    tail: u64,
    events: &[Event],
    edition: u32,
    scratch: &mut [u8],
    fields: &mut [u64],
) -> OneTold
    ensures value { result ≡ one_events_told event_limit editions edition events.now ring.now head tail scratch.old fields.old }
    ensures scratch_after { scratch.new ≡ one_events_scratch event_limit editions edition events.now ring.now head tail scratch.old }
    ensures fields_after { fields.new ≡ one_events_words event_limit editions edition events.now ring.now head tail scratch.old fields.old }
{
    let e = edition as u64;
    event_one::read_one_events(ring, head, tail, e, events, EVENTS, scratch, fields)
}

// Record check with a table of events, and how many of them were inspected (M-112).
#[unsafe(no_mangle)]
pub extern "C" fn ollskuvan_check_events(bytes: &[u8], events: &[Event], edition: u32) -> Judged
    ensures { result ≡ record_check_events event_limit editions edition events.now bytes.now }
{
    let e = edition as u64;
    event_check::check_events(bytes, e, events, EVENTS)
}

// The words of a record under its event's attributes: as record check with a table, but for 44, where it is 0; then 40.
#[unsafe(no_mangle)]
pub extern "C" fn ollskuvan_read_events(
    bytes: &[u8],
    events: &[Event],
    edition: u32,
    fields: &mut [u64],
) -> Judged
    ensures value { result ≡ read_events event_limit editions edition events.now bytes.now fields.old }
    ensures fields_after { fields.new ≡ read_events_words event_limit editions edition events.now bytes.now fields.old }
{
    let e = edition as u64;
    event_read::read_events(bytes, e, events, EVENTS, fields)
}
