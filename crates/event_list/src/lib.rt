// A lent list of events as structs, and thin functions over it. What is done with an event is a function that takes it
// by value.
#![tactic(auto)]

ghost use Rattle.std.specs.Prelude.{◌≡◌, length};
ghost use Rattle.meaning.specs.Events.{identifiers, event_at, index_of};

use meaning::Event;

pub fn count(events: &[Event]) -> usize
    ensures { result ≡ length events.now }
{
    events.len()
}

// The identifier of event i, and 0 past the end.
pub fn identifier_of(events: &[Event], i: usize) -> u64
    ensures { result ≡ (event_at events.now i).identifier }
{
    match events.get(i) {
        Some(event) => event.identifier,
        None => 0,
    }
}

// Event i, and all zeros past the end.
pub fn event_at(events: &[Event], i: usize) -> Event
    ensures { result ≡ event_at events.now i }
{
    match events.get(i) {
        Some(event) => *event,
        None => Event {
            identifier: 0,
            sample: 0,
            format: 0,
            user: 0,
            interrupt: 0,
            branch: 0,
            all: 0,
        },
    }
}

// What C calls, by crate event_list_c: the index of the first event with this identifier; the count where there is
// none.
#[unsafe(no_mangle)]
pub extern "C" fn ollskuvan_find_event(events: &[Event], identifier: u64) -> usize
    ensures { result ≡ index_of identifier (identifiers events.now) }
{
    identifiers::find(events, identifier).unwrap_or(events.len())
}
