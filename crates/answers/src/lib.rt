// The answer for a record: the walk over its fields, the trailer, 30 to 33 after 20 to 25, and record check. The header
// is taken by the reader that holds the record and its place.
#![tactic(auto)]

ghost use Rattle.std.specs.Prelude.{◌≡◌, ℕ, List, ◌≤◌, length, IfOk};
ghost use Rattle.meaning.specs.Items.{step, walk};
ghost use Rattle.meaning.specs.Schema.{schema, trailer};
ghost use Rattle.meaning.specs.Editions.{editions, known};
ghost use Rattle.meaning.specs.Reasons.{answer_of, cursor_of, stepped};
ghost use Rattle.meaning.specs.Records.{layout, room, origin, fields_answer, judge, checked_by, check};
ghost use Rattle.answers.specs.Answer.{Whole, answer_by, refused_or, walk_told};
ghost use Rattle.table.specs.Rows.{item_of};

use layouts::types;
use meaning::{Attributes, Item, Reason, Spot};
use reader::Header;

// ---- the walk

// Where a walk starts: nothing counted.
pub fn origin(at: usize) -> Spot
    ensures { cursor_of result ≡ origin at }
{
    Spot { at, n: 0, old: 0 }
}

// One row. An item that is not selected costs no more than its guard's test.
fn turn(s: &[u8], kind: u64, misc: u64, a: Attributes, row: u16, spot: Spot) -> Result<Spot, Reason>
    ensures { stepped spot result ≡ step s.now (item_of a misc kind row) (cursor_of spot) }
{
    if !items::is_on(a, misc, kind, row) {
        return Ok(spot);
    }
    let shape = items::shape_of(a, row);
    fields::step(s, Item { on: true, shape }, spot)
}

// Where a walk stopped, which is before the item that was refused, and why.
#[derive(Clone, Copy, Debug, PartialEq, Eq)]
pub struct Stopped {
    pub spot: Spot,
    pub reason: Reason,
}

// Over the rows of a type's fields, up to the first refusal. No edition is an argument: it enters by 20 to 25 alone.
pub fn walk(s: &[u8], kind: u64, misc: u64, a: Attributes, first: Spot) -> Result<Spot, Stopped>
    ensures { walk_told result ≡ walk s.now (schema kind misc a) (cursor_of first) }
{
    let part = table::part_of(kind);
    let all = table::all_rows();
    let own = &all[part.from..part.to];
    let mut spot = first;
    for &row in own {
        match turn(s, kind, misc, a, row, spot) {
            Ok(next) => spot = next,
            Err(reason) => return Err(Stopped { spot, reason }),
        }
    }
    Ok(spot)
}

// ---- the trailer

// "The trailer is 8 bytes for each selected bit of 66,246": bits 1, 2, 6, 7, 9 and 16.
const TRAILER_BITS: u64 = 66246;

// 02, M-101: "Count the ones of the masked sample type with the language's own operation."
pub fn trailer_room(kind: u64, a: Attributes) -> usize
    ensures { (result ≡ room (trailer kind a)) × (result ≤ 48) }
{
    let has = a.all & (kind != types::SAMPLE);
    if !has {
        return 0;
    }
    wire::count_ones(a.sample & TRAILER_BITS) * 8
}

// ---- the answer

// 30 to 33: "the trailer is tested first, and its start is the fields' end"; "31: bytes left over after the last
// field".
fn fields_answer(r: &[u8], kind: u64, misc: u64, a: Attributes) -> Result<(), Reason>
    ensures { answer_of result ≡ fields_answer (schema kind misc a) (room (trailer kind a)) r.now }
{
    let t = trailer_room(kind, a);
    if r.len() < 8 + t {
        return Err(Reason::TooShort);
    }
    let end = r.len() - t;
    let last = match walk(&r[..end], kind, misc, a, origin(8)) {
        Ok(last) => last,
        Err(stopped) => return Err(stopped.reason),
    };
    if last.at != end {
        return Err(Reason::LeftOver);
    }
    Ok(())
}

// 20 to 25, then 30 to 33, by the header's type and misc.
fn answer(r: &[u8], kind: u64, misc: u64, e: u64, a: Attributes) -> Result<(), Reason>
    ensures { answer_of result ≡ answer_by (known editions e) a kind misc r.now }
{
    rules::unreadable(rules::edition(e), a, kind, misc)?;
    fields_answer(r, kind, misc, a)
}

// The answer for a record's bytes.
pub fn judge(r: &[u8], e: u64, a: Attributes) -> Result<(), Reason>
    requires { 8 ≤ length r.now }
    ensures { answer_of result ≡ judge (layout (known editions e) a) r.now }
{
    let h = reader::whole_header(r);
    answer(r, h.kind, h.misc, e, a)
}

// What is asked of a slice before its type is looked at: "7 if the slice is shorter than 8; 6; 7 if the size differs
// from the slice's length". The header, where all that holds.
pub fn header_of_whole(r: &[u8]) -> Result<Header, Reason>
    ensures whole { IfOk result (λ h. Whole r.now h) }
    ensures asked { (answer : List ℕ → ℕ) → refused_or result (answer r.now) ≡ checked_by answer r.now }
{
    if r.len() < 8 {
        return Err(Reason::NotWhole);
    }
    let h = reader::whole_header(r);
    let even = (8 <= h.size) & (h.size % 8 == 0);
    if !even {
        return Err(Reason::RecordSize);
    }
    if h.size != r.len() as u64 {
        return Err(Reason::NotWhole);
    }
    Ok(h)
}

// Record check: "2; 7 if the slice is shorter than 8; 6; 7 if the size differs from the slice's length; 20 to 33;
// otherwise 0".
pub fn check(r: &[u8], e: u64, a: Attributes) -> Result<(), Reason>
    ensures { answer_of result ≡ check editions e a r.now }
{
    if !rules::allowed(e) {
        return Err(Reason::UnknownEdition);
    }
    let h = header_of_whole(r)?;
    answer(r, h.kind, h.misc, e, a)
}
