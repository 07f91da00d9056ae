// The slots of a drain, lent, each at the place of its identifier. A slot is looked at before it is used: whose it is, and whether it is filled. What edition
// and attributes fix of an event is made when its first record comes.
// The lookup walks the table, once an identifier. Where the table is long, `enter_rows` notes the indices first, in one pass, and no walk is left for
// an event whose slot no other has taken.
#![tactic(auto)]

ghost use Rattle.std.specs.Prelude.{◌≡◌, true, ◌≤◌, ◌<◌, length, get_or};
ghost use Rattle.meaning.specs.Events.{identifiers, distinct};
ghost use Rattle.slots.specs.Slots.{empty_slot, is_filled, SlotOf, SlotHolds, Memo};

use meaning::{Event, Known};
use slots::{EMPTY, Slot, State};

// A table of events under what an edition knows: what slots are made of. It is lent as one, so that where a slot tells all no field of it is loaded.
#[derive(Clone, Copy, Debug, PartialEq, Eq)]
pub struct KnownEvents<'r> {
    pub known: Known,
    pub table: &'r [Event],
}

// The slot of an identifier. One that is not in the table has a slot too: its records are as cheap as others.
fn slot_for(known: Known, events: &[Event], id: u64) -> Slot
    ensures { SlotOf known events.now id result }
{
    if known.samples <= 16 {
        return Slot {
            identifier: id,
            state: State::UnknownBit,
            ..EMPTY
        };
    }
    let Some(i) = events::find(events, id) else {
        return Slot {
            identifier: id,
            state: State::Absent,
            ..EMPTY
        };
    };
    slots::planned(known, events, id, i)
}

// The slot of an identifier, by what stands at its place: an index that is noted is not looked up.
fn slot_by(known: Known, events: &[Event], id: u64, slot: &Slot) -> Slot
    requires { SlotHolds known events.now slot.now }
    ensures { SlotOf known events.now id result }
{
    if slot.identifier != id {
        return slot_for(known, events, id);
    }
    match slot.state {
        State::Indexed => slots::planned(known, events, id, slot.index),
        _ => slot_for(known, events, id),
    }
}

// Whether a slot tells what the records of its identifier are.
fn is_filled(state: State) -> bool
    ensures { result ≡ is_filled state }
{
    match state {
        State::Empty => false,
        State::Indexed => false,
        State::InTable | State::UnknownBit | State::Absent => true,
    }
}

// The slot at a place is made the identifier's. This is seldom called, and kept out of the loop over a window, whose registers it would take.
#[cold]
#[inline(never)]
fn refill(events: &KnownEvents<'_>, id: u64, memo: &mut [Slot], h: usize)
    requires h_in_bounds { h < length memo.old }
    requires memo { Memo events.now.known events.now.table.now memo.old }
    ensures memo_2 { Memo events.now.known events.now.table.now memo.new }
    ensures memo_len_unchanged { length memo.new ≡ length memo.old }
    ensures slot_of { SlotOf events.now.known events.now.table.now id (get_or memo.new h empty_slot) }
{
    memo[h] = slot_by(events.known, events.table, id, &memo[h]);
}

// The place's slot is the identifier's afterwards, whatever it was.
pub fn hold(events: &KnownEvents<'_>, id: u64, memo: &mut [Slot], h: usize)
    requires h_in_bounds { h < length memo.old }
    requires memo { Memo events.now.known events.now.table.now memo.old }
    ensures memo_2 { Memo events.now.known events.now.table.now memo.new }
    ensures memo_len_unchanged { length memo.new ≡ length memo.old }
    ensures slot_of { SlotOf events.now.known events.now.table.now id (get_or memo.new h empty_slot) }
{
    if memo[h].identifier == id {
        if is_filled(memo[h].state) {
            return;
        }
    }
    refill(events, id, memo, h);
}

// The index of every event of a table whose identifiers are distinct, each in the slot of its identifier; of two at one place the later stays. An
// edition that does not know bit 16 answers 21 to every identifier: nothing is noted.
pub fn enter_rows(known: Known, events: &[Event], memo: &mut [Slot])
    requires in_bounds { 1 ≤ length memo.old }
    requires events_value { distinct (identifiers events.now) ≡ true }
    requires memo { Memo known events.now memo.old }
    ensures memo_2 { Memo known events.now memo.new }
    ensures memo_len_unchanged { length memo.new ≡ length memo.old }
{
    if known.samples < 17 {
        return;
    }
    for (i, event) in events.iter().enumerate() {
        let id = event.identifier;
        let h = (id & (memo.len() as u64 - 1)) as usize;
        memo[h] = Slot {
            identifier: id,
            state: State::Indexed,
            index: i,
            ..EMPTY
        };
    }
}
