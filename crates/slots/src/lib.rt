// A slot, kept by an identifier: what edition and attributes fix of its event. What slots say stands in specs/; here the slot of an event that is in the
// table is made.
#![tactic(auto)]

ghost use Rattle.std.specs.Prelude.{◌≡◌, ◌<◌, length};
ghost use Rattle.meaning.specs.Events.{identifiers, index_of};
ghost use Rattle.slots.specs.Slots.{quarter, Four, SlotOf};

use meaning::{Event, Known};

// What is known of the identifier that a slot names.
#[derive(Clone, Copy, Debug, PartialEq, Eq)]
pub enum State {
    // nothing: the slot names none
    Empty,
    // its event's index alone is noted
    Indexed,
    // it is in the table
    InTable,
    // the edition does not know bit 16: its records are 21
    UnknownBit,
    // it is not in the table: its records are 26
    Absent,
}

// Eight words, so that the place of a slot is its number shifted.
#[derive(Clone, Copy, Debug, PartialEq, Eq)]
pub struct Slot {
    pub identifier: u64,
    pub state: State,
    // the refusal of the types other than READ and SAMPLE, or 0
    // kept: a number: `marks::type_mark` compares it with 0 and adds it to REFUSED as it stands. An Option<Reason> would be made of that number and told as
    // the number again; and a slot with one, or with a u16, has seven words.
    pub why: u64,
    // the marks of these two
    pub sample: u64,
    pub read: u64,
    // where the event stands in the table
    pub index: usize,
    // the event's sums, four in a word
    pub early: u64,
    pub late: u64,
}

// All of its bytes are zero: a set of such slots is cleared by one call.
pub const EMPTY: Slot = Slot {
    identifier: 0,
    state: State::Empty,
    why: 0,
    sample: 0,
    read: 0,
    index: 0,
    early: 0,
    late: 0,
};

// The first number that 16, 32 and 48 bits do not hold.
pub const QUARTER: u64 = 65536;

pub const HALF: u64 = QUARTER * QUARTER;

pub const THREE_QUARTERS: u64 = QUARTER * HALF;

// Four sums in one word, the first lowest: of the first four that is the trailer's.
fn packed(a: u64, b: u64, c: u64, d: u64) -> u64
    requires { (a < quarter) × (b < quarter) × (c < quarter) × (d < quarter) }
    ensures { Four a b c d result }
{
    a + b * QUARTER + c * HALF + d * THREE_QUARTERS
}

// The slot of an identifier that is in the table, at index i, under an edition that knows bit 16.
pub fn planned(known: Known, events: &[Event], id: u64, i: usize) -> Slot
    requires lt_samples { 16 < known.samples }
    requires i_value { i ≡ index_of id (identifiers events.now) }
    requires i_in_bounds { i < length events.now }
    ensures { SlotOf known events.now id result }
{
    let a = events::attributes_at(events, i);
    let sums = sums::sums(a);
    let why = meaning::answer_number(record::unreadable(known, a, 1, 0));
    let sample = marks::sample_mark(known, a, &sums);
    let read = marks::read_mark(known, a, sums[exact::TRAIL]);
    let early = packed(sums[0], sums[1], sums[2], sums[3]);
    let late = packed(sums[4], sums[5], sums[6], sums[7]);
    Slot {
        identifier: id,
        state: State::InTable,
        why: why as u64,
        sample,
        read,
        index: i,
        early,
        late,
    }
}
