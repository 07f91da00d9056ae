// The library for C: the lookup in a list of events. Each export has the whole contract of the function that it calls.
#![tactic(auto)]

ghost use Rattle.std.specs.Prelude.{◌≡◌};
ghost use Rattle.meaning.specs.Events.{identifiers, index_of};

use meaning::Event;

#[unsafe(no_mangle)]
pub extern "C" fn ollskuvan_find_event(events: &[Event], identifier: u64) -> usize
    ensures { result ≡ index_of identifier (identifiers events.now) }
{
    event_list::ollskuvan_find_event(events, identifier)
}
