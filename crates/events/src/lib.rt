// A table of events, lent as a list of them: the lookup, the attributes of one, and whether the table is sound.
#![tactic(auto)]

ghost use Rattle.std.specs.Prelude.{◌≡◌, ◌<◌, length, unwrap_or, IfSome};
ghost use Rattle.meaning.specs.Events.{attributes_of, identifiers, event_at, marked, all_marked, distinct, sound, index_of};
ghost use Rattle.event_laws.specs.Rising.{rises};

use meaning::{Attributes, Event};

// ---- the lookup

// The index of the first event with this identifier, if there is one.
pub fn find(events: &[Event], id: u64) -> Option<usize>
    ensures value { unwrap_or result (length events.now) ≡ index_of id (identifiers events.now) }
    ensures found { IfSome result (λ i. i < length events.now) }
{
    identifiers::find(events, id)
}

// ---- an event

// The attributes of event i, which is one.
pub fn attributes_at(events: &[Event], i: usize) -> Attributes
    requires { i < length events.now }
    ensures { result ≡ attributes_of (event_at events.now i) }
{
    Attributes::from(events[i])
}

// Sample bit 16 and sample_id_all.
fn marked(v: &Event) -> bool
    ensures { result ≡ marked v.now }
{
    wire::has_bit(v.sample, 16) & (v.all != 0)
}

// ---- row 11

// Sample bit 16 and sample_id_all of each.
fn all_marked(events: &[Event]) -> bool
    ensures { result ≡ all_marked events.now }
{
    events.iter().all(marked)
}

// Does each identifier exceed the one before it?
fn rises(events: &[Event]) -> bool
    ensures { result ≡ rises (identifiers events.now) }
{
    events
        .iter()
        .zip(events.iter().skip(1))
        .all(|(event, next)| event.identifier < next.identifier)
}

// Are no two identifiers equal?
fn apart(events: &[Event]) -> bool
    ensures { result ≡ distinct (identifiers events.now) }
{
    identifiers::apart(events)
}

// "if its length is outside that range, if two identifiers are equal, or if an event lacks sample bit 16 or
// sample_id_all". Identifiers as a kernel hands them out rise, and then each is compared with one other.
pub fn sound(events: &[Event], limit: usize) -> bool
    ensures { result ≡ sound limit events.now }
{
    let n = events.len();
    if n < 1 {
        return false;
    }
    if limit < n {
        return false;
    }
    if !all_marked(events) {
        return false;
    }
    if rises(events) {
        return true;
    }
    apart(events)
}
