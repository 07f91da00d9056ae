// The exact judge under a table of events, by the slot of a record's identifier: what edition and attributes fix of an event, its sums and marks, is
// made once and held in slots that are lent (crates slots and held_slots).
#![tactic(auto)]

ghost use Rattle.std.specs.Prelude.{◌≡◌, ◌%◌, ◌≤◌, ◌<◌, true, length, get_or};
ghost use Rattle.meaning.specs.Reasons.{number_of, answer_of};
ghost use Rattle.meaning.specs.Records.{kind_of, layout, judge};
ghost use Rattle.meaning.specs.Events.{identifier_of, judge_events};
ghost use Rattle.blocks.specs.Seen.{size_bound};
ghost use Rattle.marks.specs.Marks.{last_type, Marked};
ghost use Rattle.slots.specs.Slots.{unpacked, empty_slot, is_filled, refused_by, SlotOf, Memo, attributes_for};

use held_slots::KnownEvents;
use meaning::Reason;
use plan::Whole;
use slots::{Slot, State};

// Eight sums out of two words. The trailer's stands lowest in the first.
fn unpacked(x: u64, y: u64) -> [u64; 8]
    ensures { result ≡ unpacked x y }
{
    [
        x % slots::QUARTER,
        x / slots::QUARTER % slots::QUARTER,
        x / slots::HALF % slots::QUARTER,
        x / slots::THREE_QUARTERS,
        y % slots::QUARTER,
        y / slots::QUARTER % slots::QUARTER,
        y / slots::HALF % slots::QUARTER,
        y / slots::THREE_QUARTERS,
    ]
}

// The mark of a record's type under its event. The attributes are named for the contract's sake; no instruction asks for them.
fn mark_of(events: &KnownEvents<'_>, kind: u64, slot: &Slot, id: u64) -> u64
    requires kinds_le_last_type { events.now.known.kinds ≤ last_type }
    requires le_kind { 1 ≤ kind }
    requires kind_le_kinds { kind ≤ events.now.known.kinds }
    requires slot_of { SlotOf events.now.known events.now.table.now id slot.now }
    requires slot_value { slot.now.state ≡ State.InTable }
    ensures { Marked events.now.known (attributes_for events.now.table.now id) kind result }
{
    if kind == marks::SAMPLE {
        return slot.sample;
    }
    if kind == marks::READ {
        return slot.read;
    }
    let a = events::attributes_at(events.table, slot.index);
    marks::type_mark(
        events.known,
        a,
        kind,
        slot.why as u16,
        slot.early % slots::QUARTER,
    )
}

// A record whose event is in the table, by the event's slot.
fn found(r: &[u8], kind: u64, events: &KnownEvents<'_>, slot: &Slot, id: u64) -> Result<(), Reason>
    requires in_bounds { 8 ≤ length r.now }
    requires r_len_bound { length r.now < size_bound }
    requires r_len { length r.now % 8 ≡ 0 }
    requires kind_value { kind ≡ kind_of r.now }
    requires kinds_le_last_type { events.now.known.kinds ≤ last_type }
    requires le_kind { 1 ≤ kind }
    requires kind_le_kinds { kind ≤ events.now.known.kinds }
    requires slot_of { SlotOf events.now.known events.now.table.now id slot.now }
    requires slot_value { slot.now.state ≡ State.InTable }
    ensures { answer_of result ≡ judge (layout events.now.known (attributes_for events.now.table.now id)) r.now }
{
    let mark = mark_of(events, kind, slot, id);
    if mark == r.len() as u64 {
        return Ok(());
    }
    let a = events::attributes_at(events.table, slot.index);
    let sums = unpacked(slot.early, slot.late);
    plan::judge(Whole { bytes: r, kind }, mark, events.known, a, &sums)
}

// Why a record is refused whose identifier has no event, by the identifier's slot, which is filled. It is a function of its own, so that the choice
// is two comparisons and no table of jumps.
fn refusal(state: State) -> Reason
    requires filled { is_filled state ≡ true }
    requires no_event { state ≡ State.InTable → ⊥ }
    ensures { number_of result ≡ refused_by state }
{
    match state {
        State::UnknownBit => Reason::SampleBits,
        _ => Reason::UnknownIdentifier,
    }
}

// A record by the slot at h, which is its identifier's: what the slot says, or its event's own answer.
fn slot_answer(
    r: &[u8],
    kind: u64,
    events: &KnownEvents<'_>,
    memo: &[Slot],
    h: usize,
    id: u64,
) -> Result<(), Reason>
    requires in_bounds { 16 ≤ length r.now }
    requires r_len_bound { length r.now < size_bound }
    requires r_len { length r.now % 8 ≡ 0 }
    requires kind_value { kind ≡ kind_of r.now }
    requires kinds_le_last_type { events.now.known.kinds ≤ last_type }
    requires le_kind { 1 ≤ kind }
    requires kind_le_kinds { kind ≤ events.now.known.kinds }
    requires h_in_bounds { h < length memo.now }
    requires id_value { id ≡ identifier_of r.now }
    requires slot_of { SlotOf events.now.known events.now.table.now id (get_or memo.now h empty_slot) }
    ensures { answer_of result ≡ judge_events events.now.known events.now.table.now r.now }
{
    match memo[h].state {
        State::InTable => found(r, kind, events, &memo[h], id),
        other => Err(refusal(other)),
    }
}

// A record of a type that the edition has, long enough for an identifier: 21 where the edition does not know bit 16; 26; else the event's own answer.
pub fn judge(r: &[u8], kind: u64, events: &KnownEvents<'_>, memo: &mut [Slot]) -> Result<(), Reason>
    requires in_bounds { 16 ≤ length r.now }
    requires r_len_bound { length r.now < size_bound }
    requires r_len { length r.now % 8 ≡ 0 }
    requires kind_value { kind ≡ kind_of r.now }
    requires kinds_le_last_type { events.now.known.kinds ≤ last_type }
    requires le_kind { 1 ≤ kind }
    requires kind_le_kinds { kind ≤ events.now.known.kinds }
    requires in_bounds_2 { 1 ≤ length memo.old }
    requires memo { Memo events.now.known events.now.table.now memo.old }
    ensures value { answer_of result ≡ judge_events events.now.known events.now.table.now r.now }
    ensures memo_2 { Memo events.now.known events.now.table.now memo.new }
    ensures memo_len_unchanged { length memo.new ≡ length memo.old }
{
    let id = event_judge::identifier_of(r, kind);
    let h = (id & (memo.len() as u64 - 1)) as usize;
    held_slots::hold(events, id, memo, h);
    slot_answer(r, kind, events, memo, h, id)
}
