// A pair of records (M-108) before the loop over its fields: equal bytes, equal but for ignored bytes, or the first
// five fields.
#![tactic(auto)]

ghost use Rattle.std.specs.Prelude.{◌≡◌, true, false, ◌≤◌, length};
ghost use Rattle.meaning.specs.Schema.{trailer};
ghost use Rattle.meaning.specs.Records.{room};
ghost use Rattle.meaning.specs.Editions.{editions, known};
ghost use Rattle.meaning.specs.Events.{all_marked};
ghost use Rattle.runs.specs.Cutting.{framed};
ghost use Rattle.compare.specs.Fields.{fields};
ghost use Rattle.compare.specs.Compared.{alike, agree, same_bytes, event_reads};
ghost use Rattle.pair_fields.specs.Inner.{Begun, FieldsStand};
ghost use Rattle.pair_fields.specs.States.{pos_of, state_of};

use layouts::types;
use meaning::{Attributes, Event, answer_number};
use pair_fields::{Rest, State};

// The first row of the others: "identifier 4, then the other fields", so that a SAMPLE's first item is passed over.
fn others(x: &[u8], kind: u64, misc: u64, a: Attributes) -> Rest
    requires { room (trailer kind a) ≤ length x.now }
    ensures { Begun x.now kind misc a (pos_of result) }
{
    let p = table::part_of(kind);
    let skip: usize = if kind == types::SAMPLE { 1 } else { 0 };
    let start = answers::origin(8 + 8 * skip);
    let end = x.len() - record::trailer_room(kind, a);
    Rest {
        k: 5,
        last: false,
        row: p.from + skip,
        to: p.to,
        end,
        kind,
        misc,
        a,
        w: 0,
        x: 0,
        c: start,
        d: start,
    }
}

fn same_record(x: &[u8], y: &[u8]) -> bool
    ensures { result ≡ same_bytes x.now y.now }
{
    if x.len() != y.len() {
        return false;
    }
    same_bytes::same_bytes(x, 0, y, 0, x.len())
}

// "answer (0 or the refusal) 0, type 1, misc 2, size 3, identifier 4", of records whose bytes differ; "records refused
// alike compare by their bytes, as field 1".
fn begin(x: &[u8], y: &[u8], e: u64, events: &[Event]) -> State
    requires x_value { (framed x.now ≡ true) × (framed y.now ≡ true) }
    requires events_value { all_marked events.now ≡ true }
    requires bytes_value { same_bytes x.now y.now ≡ false }
    ensures { FieldsStand (alike (fields (event_reads (known editions e) events.now) x.now) (fields (event_reads (known editions e) events.now) y.now)) (agree (fields (event_reads (known editions e) events.now) x.now) (fields (event_reads (known editions e) events.now) y.now)) x.now y.now (state_of result) }
{
    // kept: field 0 is a number, that of the answer
    let answer = answer_number(event_judge::judge(x, e, events));
    if answer != answer_number(event_judge::judge(y, e, events)) {
        return State::Differs(0);
    }
    if answer != 0 {
        return State::Differs(1);
    }
    let kind = wire::u32_at(x, 0);
    if kind != wire::u32_at(y, 0) {
        return State::Differs(1);
    }
    let misc = wire::u16_at(x, 4);
    if misc != wire::u16_at(y, 4) {
        return State::Differs(2);
    }
    if wire::u16_at(x, 6) != wire::u16_at(y, 6) {
        return State::Differs(3);
    }
    let id = event_judge::identifier_of(x, kind);
    if id != event_judge::identifier_of(y, kind) {
        return State::Differs(4);
    }
    // an accepted record has its event in the table
    let event = events::find(events, id).unwrap();
    State::At(others(x, kind, misc, events::attributes_at(events, event)))
}

// Is y the same as x but for ignored bytes? x is judged alone: an accepted record whose other bytes y has makes y
// accepted too.
fn like(x: &[u8], y: &[u8], e: u64, events: &[Event]) -> bool
    requires x_value { (framed x.now ≡ true) × (framed y.now ≡ true) }
    requires events_value { all_marked events.now ≡ true }
    ensures { result ≡ true → alike (fields (event_reads (known editions e) events.now) x.now) (fields (event_reads (known editions e) events.now) y.now) ≡ true }
{
    if x.len() != y.len() {
        return false;
    }
    let kind = wire::u32_at(x, 0);
    if kind != wire::u32_at(y, 0) {
        return false;
    }
    let misc = wire::u16_at(x, 4);
    if misc != wire::u16_at(y, 4) {
        return false;
    }
    if event_judge::judge(x, e, events).is_err() {
        return false;
    }
    let id = event_judge::identifier_of(x, kind);
    if id != event_judge::identifier_of(y, kind) {
        return false;
    }
    let event = events::find(events, id).unwrap();
    twins::same_but(x, y, kind, misc, events::attributes_at(events, event))
}

// A pair: records of equal bytes are equal whatever they say, and are not read at all. Nothing is left to be looked at
// either where all but ignored bytes are equal; only where a field differs are the fields counted.
pub fn look(x: &[u8], y: &[u8], e: u64, events: &[Event]) -> State
    requires x_value { (framed x.now ≡ true) × (framed y.now ≡ true) }
    requires events_value { all_marked events.now ≡ true }
    ensures { FieldsStand (alike (fields (event_reads (known editions e) events.now) x.now) (fields (event_reads (known editions e) events.now) y.now)) (agree (fields (event_reads (known editions e) events.now) x.now) (fields (event_reads (known editions e) events.now) y.now)) x.now y.now (state_of result) }
{
    if same_record(x, y) {
        return State::Alike;
    }
    if like(x, y, e, events) {
        return State::Alike;
    }
    begin(x, y, e, events)
}
