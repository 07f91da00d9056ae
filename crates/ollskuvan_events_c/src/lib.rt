// The library for C: one record under a table of events. Each export has the whole contract of the function that it calls.
#![tactic(auto)]

ghost use Rattle.std.specs.Prelude.{◌≡◌};
ghost use Rattle.meaning.specs.Editions.{editions};
ghost use Rattle.meaning.specs.Events.{event_limit, one_events_scratch, record_check_events, read_events, read_events_words};
ghost use Rattle.event_one.specs.Told.{one_events_told, one_events_words};

use meaning::{Event, Judged};
use one::OneTold;

#[unsafe(no_mangle)]
pub extern "C" fn ollskuvan_read_one_events(
    ring: &[u8],
    head: u64,
    tail: u64,
    events: &[Event],
    edition: u32,
    scratch: &mut [u8],
    fields: &mut [u64],
) -> OneTold
    ensures value { result ≡ one_events_told event_limit editions edition events.now ring.now head tail scratch.old fields.old }
    ensures scratch_after { scratch.new ≡ one_events_scratch event_limit editions edition events.now ring.now head tail scratch.old }
    ensures fields_after { fields.new ≡ one_events_words event_limit editions edition events.now ring.now head tail scratch.old fields.old }
{
    ollskuvan_events::ollskuvan_read_one_events(ring, head, tail, events, edition, scratch, fields)
}

#[unsafe(no_mangle)]
pub extern "C" fn ollskuvan_check_events(bytes: &[u8], events: &[Event], edition: u32) -> Judged
    ensures { result ≡ record_check_events event_limit editions edition events.now bytes.now }
{
    ollskuvan_events::ollskuvan_check_events(bytes, events, edition)
}

#[unsafe(no_mangle)]
pub extern "C" fn ollskuvan_read_events(
    bytes: &[u8],
    events: &[Event],
    edition: u32,
    fields: &mut [u64],
) -> Judged
    ensures value { result ≡ read_events event_limit editions edition events.now bytes.now fields.old }
    ensures fields_after { fields.new ≡ read_events_words event_limit editions edition events.now bytes.now fields.old }
{
    ollskuvan_events::ollskuvan_read_events(bytes, events, edition, fields)
}
