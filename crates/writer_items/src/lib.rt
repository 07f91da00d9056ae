// One item: whether what is given fits it, the place after it, and its bytes.
#![tactic(auto)]

ghost use Rattle.std.specs.Prelude.{◌≡◌, cond, true, false, ◌+◌, ◌*◌, ◌≤◌, ◌<◌, ◌^◌, length, take, drop, leb};
ghost use Rattle.meaning.specs.Bytes.{nonzero, put};
ghost use Rattle.meaning.specs.Reasons.{cursor_of};
ghost use Rattle.meaning.specs.Values.{beyond};
ghost use Rattle.writer_words.specs.Tellings.{slot_of};
ghost use Rattle.writer_forms.specs.Forms.{form_of, fits_form, passes_end, list_bytes, form_bytes, form_next};
ghost use Rattle.writer_items.specs.Tries.{unfit, state_of, try_item, most_bytes};

use meaning::{Item, Reason, Spot};
use writer_forms::{Content, Form};
use writer_words::Given;

// The most that the two bytes of a record's size can say: no item ends past it.
pub const MOST_BYTES: usize = 65535;

// "41 if a selected list or name, by place plus bytes unwrapped, passes the lent source's end": the place is subtracted
// and the count compared with a quotient, so that nothing wraps.
fn passes(source: &[u8], f: Form, s: Given) -> bool
    ensures { result ≡ passes_end source.now (form_of f).list (form_of f).unit s.place s.count }
{
    let Some(unit) = f.unit() else {
        return false;
    };
    let Some(left) = source.len().checked_sub(s.place as usize) else {
        return true;
    };
    if unit == 0 {
        return false;
    }
    left / unit < s.count as usize
}

// Whether an item is a list, and how many bytes an element has, depend on no place.
pub fn beyond(source: &[u8], i: Item, s: Given) -> bool
    ensures { result ≡ beyond source.now i (slot_of s) }
{
    passes(
        source,
        writer_forms::of_item(i, writer_words::start_at(0), s),
        s,
    )
}

pub fn no_zero(s: &[u8]) -> bool
    ensures { result ≡ nonzero s.now }
{
    fields::zero_from(s, 0) == s.len()
}

// The number is not too large, and the count is the one wanted (elements of no bytes have none); a name has no zero in
// it.
fn fits(source: &[u8], f: Form, s: Given) -> bool
    requires { (form_of f).name ≡ true → s.place + s.count ≤ length source.now }
    ensures { result ≡ fits_form (form_of f) source.now (slot_of s) }
{
    match f.content {
        Content::Blank => (s.number == 0) & (s.count == 0),
        Content::Number { width, top, eights } => {
            let over = (s.number % 8 + width.bytes() as u64 % 8) % 8;
            (s.number <= top) & (!eights | (over == 0)) & (s.count == 0)
        }
        Content::List { unit, want } => (s.number == 0) & ((s.count == want) | (unit == 0)),
        Content::Name { want } => {
            let from = s.place as usize;
            let to = from + s.count as usize;
            (s.number == 0) & (s.count == want) & no_zero(&source[from..to])
        }
    }
}

// How many bytes of the source an item takes.
fn list_bytes(f: Form, s: Given) -> usize
    requires { (form_of f).list ≡ true → s.count * (form_of f).unit < 2 ^ 63 }
    ensures { result ≡ list_bytes (form_of f) (slot_of s) }
{
    match f.unit() {
        Some(unit) => s.count as usize * unit,
        None => 0,
    }
}

// The state after an item, or none where it would lie past every record's end: "a size above 65,528" is 42.
pub fn advance(f: Form, s: Given, c: Spot) -> Result<Spot, Reason>
    requires { (c.at ≤ most_bytes) × ((form_of f).width ≤ 8) × ((form_of f).list ≡ true → s.count * (form_of f).unit < 2 ^ 63) }
    ensures { state_of result ≡ cond (leb (form_next (form_of f) (slot_of s) (cursor_of c)).at most_bytes) (form_next (form_of f) (slot_of s) (cursor_of c)) unfit }
{
    let at = (c.at + f.width() + list_bytes(f, s)).saturating_add(f.pad);
    if MOST_BYTES < at {
        return Err(Reason::NoSuchRecord);
    }
    // kept: a Form is of another type, and a struct update copies from a value of the same type alone
    Ok(Spot {
        at,
        n: f.n,
        old: f.old,
    })
}

pub fn try_item(source: &[u8], i: Item, c: Spot, s: Given) -> Result<Spot, Reason>
    requires { c.at ≤ most_bytes }
    ensures { state_of result ≡ try_item source.now i (slot_of s) (cursor_of c) }
{
    let f = writer_forms::of_item(i, c, s);
    if passes(source, f, s) {
        return Err(Reason::NoSuchRecord);
    }
    if !fits(source, f, s) {
        return Err(Reason::NoSuchRecord);
    }
    advance(f, s, c)
}

// The bytes of a list or a name, out of the source; where there is none, no place is looked at.
fn listed<'a>(source: &'a [u8], f: Form, s: Given) -> &'a [u8]
    requires { passes_end source.now (form_of f).list (form_of f).unit s.place s.count ≡ false }
    ensures { result.now ≡ take (list_bytes (form_of f) (slot_of s)) (drop s.place source.now) }
{
    let Some(unit) = f.unit() else {
        return &[];
    };
    let from = s.place as usize;
    let to = from + s.count as usize * unit;
    &source[from..to]
}

// The number, the bytes of the list, the zero bytes, one after the other; and the state after them.
pub fn put_item(source: &[u8], f: Form, s: Given, c: Spot, buffer: &mut [u8]) -> Spot
    requires { ((form_of f).width ≤ 8) × (passes_end source.now (form_of f).list (form_of f).unit s.place s.count ≡ false) × (c.at + ((form_of f).width + list_bytes (form_of f) (slot_of s) + f.pad) ≤ length buffer.old) }
    ensures buffer_after { buffer.new ≡ put buffer.old c.at (form_bytes (form_of f) source.now (slot_of s)) }
    ensures next { cursor_of result ≡ form_next (form_of f) (slot_of s) (cursor_of c) }
{
    let number = wire::le64(s.number);
    let width = f.width();
    wire::copy_at(&number[..width], buffer, c.at);
    let list = listed(source, f, s);
    wire::copy_at(list, buffer, c.at + width);
    let end = c.at + width + list.len();
    wire::zero_at(buffer, end, f.pad);
    // kept: as in `advance`
    Spot {
        at: end + f.pad,
        n: f.n,
        old: f.old,
    }
}
