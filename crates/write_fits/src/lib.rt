// Whether what the words give of one item fits it, and the state after it: one function for each shape, given its guard
// and the number of its first word. A refusal stays; from it on nothing else counts. Nothing is written.
#![tactic(auto)]

ghost use Rattle.std.specs.Prelude.{◌≡◌, cond, ◌&&◌, [], ◌∷◌, ◌+◌, ◌-◌, ◌*◌, ◌≤◌, ◌<◌, length, leb, eqb};
ghost use Rattle.meaning.specs.declared.Shape.TheVariants.{Number, Ignored, Count, Size, Times, Earlier, Registers, Filled, Abi, Limit, Listed, Bytes, Pad, Name};
ghost use Rattle.meaning.specs.Items.{bytes};
ghost use Rattle.meaning.specs.Schema.{item, group_bytes};
ghost use Rattle.writer_items.specs.Tries.{most_bytes};
ghost use Rattle.write_fits.specs.Steps.{refused, Tried};
ghost use Rattle.write_fits.specs.Items.{stay, list_ok};

use meaning::Width;

// A count above this no record has room for: an element has at least one byte.
const MOST_COUNT: u64 = writer_items::MOST_BYTES as u64;

// The place in the record; the last count and the one before it; the same two as the words tell them, which the abi
// words do not change; and whether something did not fit.
// kept: `bad` is a flag (a: `Tried` and the theorems over it speak of it, and from a refusal on no step asks again).
// kept: words and source stand side by side in each function (c: a struct of both by value was tried; what is known of
// the numbers of a lent slice is not known of a slice in a struct, and no step's proof closed).
#[derive(Clone, Copy, Debug, PartialEq, Eq)]
pub struct Walked {
    pub at: usize,
    pub n: u64,
    pub old: u64,
    pub told: u64,
    pub before: u64,
    pub bad: bool,
}

// Refused: the place stays one that a record has.
fn refuse(c: Walked) -> Walked
    ensures { result ≡ refused c }
{
    Walked { bad: true, ..c }
}

// The state after an item that fits, unless that lies past every record's end: "a size above 65,528" is 42.
fn past(c: Walked, fits: bool, next: Walked) -> Walked
    ensures { result ≡ cond (fits && leb next.at most_bytes) next (refused c) }
{
    if fits & (next.at <= writer_items::MOST_BYTES) {
        next
    } else {
        refuse(c)
    }
}

// Past so many bytes, where the counts stay.
fn over(c: Walked, fits: bool, k: usize) -> Walked
    requires { (c.at ≤ most_bytes) × (k ≤ 1099511627776) }
    ensures { result ≡ cond (fits && leb (c.at + k) most_bytes) (stay k c) (refused c) }
{
    past(c, fits, Walked { at: c.at + k, ..c })
}

// An item that is not selected: nothing is told of it.
fn none(c: Walked, v: u64) -> Walked
    ensures { result ≡ cond (eqb v 0) c (refused c) }
{
    if v == 0 { c } else { refuse(c) }
}

// ---- numbers

pub fn number(ws: &[u64], source: &[u8], c: Walked, on: bool, w: usize, width: Width) -> Walked
    requires { (c.at ≤ most_bytes) × (w + 2 ≤ length ws.now) }
    ensures { Tried (item on (Number width) ∷ []) source.now ws.now w c result }
{
    let v = ws[w];
    if !on {
        return none(c, v);
    }
    over(c, v <= width.largest(), width.bytes())
}

// A count leaves the one before it remembered too: TEXT_POKE has two before its two texts.
pub fn count(ws: &[u64], source: &[u8], c: Walked, on: bool, w: usize, width: Width) -> Walked
    requires { (c.at ≤ most_bytes) × (w + 2 ≤ length ws.now) }
    ensures { Tried (item on (Count width) ∷ []) source.now ws.now w c result }
{
    let v = ws[w];
    if !on {
        return none(c, v);
    }
    let next = Walked {
        at: c.at + width.bytes(),
        n: v,
        old: c.n,
        told: v,
        before: c.told,
        ..c
    };
    past(c, v <= width.largest(), next)
}

// "Raw size plus 4 is a multiple of 8; stack and aux sizes are multiples of 8."
pub fn size(ws: &[u64], source: &[u8], c: Walked, on: bool, w: usize, width: Width) -> Walked
    requires { (c.at ≤ most_bytes) × (w + 2 ≤ length ws.now) }
    ensures { Tried (item on (Size width) ∷ []) source.now ws.now w c result }
{
    let v = ws[w];
    if !on {
        return none(c, v);
    }
    let k = width.bytes();
    let over = (v % 8 + k as u64) % 8;
    let fits = (v <= width.largest()) & (over == 0);
    let next = Walked {
        at: c.at + k,
        n: v,
        told: v,
        ..c
    };
    past(c, fits, next)
}

// "Build id size at most 20."
pub fn limit(ws: &[u64], source: &[u8], c: Walked, on: bool, w: usize) -> Walked
    requires { (c.at ≤ most_bytes) × (w + 2 ≤ length ws.now) }
    ensures { Tried (item on (Limit 20) ∷ []) source.now ws.now w c result }
{
    let v = ws[w];
    if !on {
        return none(c, v);
    }
    let next = Walked {
        at: c.at + 1,
        n: v,
        told: v,
        ..c
    };
    past(c, v <= 20, next)
}

pub fn abi(ws: &[u64], source: &[u8], c: Walked, on: bool, w: usize, mask: u64) -> Walked
    requires { (c.at ≤ most_bytes) × (w + 2 ≤ length ws.now) }
    ensures { Tried (item on (Abi mask) ∷ []) source.now ws.now w c result }
{
    let v = ws[w];
    if !on {
        return none(c, v);
    }
    let next = Walked {
        at: c.at + 8,
        n: fills::registers_by(v, mask),
        ..c
    };
    past(c, v <= Width::W8.largest(), next)
}

// "Filled length at most stack size"; a stack of size 0 has none.
pub fn filled(ws: &[u64], source: &[u8], c: Walked, on: bool, w: usize) -> Walked
    requires { (c.at ≤ most_bytes) × (w + 2 ≤ length ws.now) }
    ensures { Tried (item on Filled ∷ []) source.now ws.now w c result }
{
    let v = ws[w];
    if !on {
        return none(c, v);
    }
    if c.n == 0 {
        return over(c, v <= c.n, 0);
    }
    over(c, v <= c.n, 8)
}

// So many bytes that say nothing: no word.
pub fn ignored(ws: &[u64], source: &[u8], c: Walked, on: bool, w: usize, k: usize) -> Walked
    requires { (c.at ≤ most_bytes) × (k ≤ 8) }
    ensures { Tried (item on (Ignored k) ∷ []) source.now ws.now w c result }
{
    if !on {
        return c;
    }
    over(c, true, k)
}

// Up to the next multiple of 8: no word.
pub fn pad(ws: &[u64], source: &[u8], c: Walked, on: bool, w: usize) -> Walked
    requires { c.at ≤ most_bytes }
    ensures { Tried (item on Pad ∷ []) source.now ws.now w c result }
{
    if !on {
        return c;
    }
    over(c, true, (8 - c.at % 8) % 8)
}

// ---- lists

// Inside the source, as many elements as are wanted, then so many zero bytes. "41 .. by place plus bytes unwrapped":
// the place is subtracted, so that nothing wraps; and a count that no record has room for is not multiplied.
fn list(
    c: Walked,
    room: usize,
    place: u64,
    count: u64,
    want: u64,
    unit: usize,
    pad: usize,
) -> Walked
    requires { (c.at ≤ most_bytes) × (1 ≤ unit) × (unit ≤ 4096) × (pad ≤ 4096) }
    ensures { result ≡ cond (list_ok room place count want unit pad c) (stay (count * unit + pad) c) (refused c) }
{
    let from = place as usize;
    if (MOST_COUNT < count) | (room < from) {
        return refuse(c);
    }
    let bytes = count as usize * unit;
    over(c, (bytes <= room - from) & (count == want), bytes + pad)
}

// As many elements of k bytes as the last count says.
pub fn times(ws: &[u64], source: &[u8], c: Walked, on: bool, w: usize, k: usize) -> Walked
    requires { (c.at ≤ most_bytes) × (w + 2 ≤ length ws.now) × (1 ≤ k) × (k ≤ 4096) }
    ensures { Tried (item on (Times k) ∷ []) source.now ws.now w c result }
{
    if !on {
        return c;
    }
    list(c, source.len(), ws[w], c.told, c.n, k, 0)
}

// The entries of a group, by the read format.
pub fn values(ws: &[u64], source: &[u8], c: Walked, on: bool, w: usize, f: u64) -> Walked
    requires { (c.at ≤ most_bytes) × (w + 2 ≤ length ws.now) }
    ensures { Tried (item on (Times (group_bytes f)) ∷ []) source.now ws.now w c result }
{
    times(ws, source, c, on, w, layouts::group_bytes(f))
}

// As many bytes as the count before the last one says.
pub fn earlier(ws: &[u64], source: &[u8], c: Walked, on: bool, w: usize) -> Walked
    requires { (c.at ≤ most_bytes) × (w + 2 ≤ length ws.now) }
    ensures { Tried (item on (Earlier 1) ∷ []) source.now ws.now w c result }
{
    if !on {
        return c;
    }
    list(c, source.len(), ws[w], c.before, c.old, 1, 0)
}

// Registers, their count in the next word.
pub fn registers(ws: &[u64], source: &[u8], c: Walked, on: bool, w: usize) -> Walked
    requires { (c.at ≤ most_bytes) × (w + 2 ≤ length ws.now) }
    ensures { Tried (item on Registers ∷ []) source.now ws.now w c result }
{
    let count = ws[w + 1];
    if !on {
        return none(c, count);
    }
    list(c, source.len(), ws[w], count, c.n, 8, 0)
}

// The bytes of a build id, as many as its size word says, and zero bytes up to twenty.
pub fn listed(ws: &[u64], source: &[u8], c: Walked, on: bool, w: usize) -> Walked
    requires { (c.at ≤ most_bytes) × (w + 2 ≤ length ws.now) }
    ensures { Tried (item on (Listed 20) ∷ []) source.now ws.now w c result }
{
    if !on {
        return c;
    }
    let want = c.n.min(20);
    list(c, source.len(), ws[w], c.told, want, 1, 20 - want as usize)
}

// The tag of BPF_EVENT, its count in the next word.
pub fn bytes(ws: &[u64], source: &[u8], c: Walked, on: bool, w: usize) -> Walked
    requires { (c.at ≤ most_bytes) × (w + 2 ≤ length ws.now) }
    ensures { Tried (item on (Bytes 8) ∷ []) source.now ws.now w c result }
{
    let count = ws[w + 1];
    if !on {
        return none(c, count);
    }
    list(c, source.len(), ws[w], count, 8, 1, 0)
}

// ---- names

// A name has no zero in it; its zero, and zero bytes up to the next multiple of 8, follow it.
pub fn name(ws: &[u64], source: &[u8], c: Walked, on: bool, w: usize) -> Walked
    requires { (c.at ≤ most_bytes) × (w + 2 ≤ length ws.now) }
    ensures { Tried (item on Name ∷ []) source.now ws.now w c result }
{
    let count = ws[w + 1];
    if !on {
        return none(c, count);
    }
    let room = source.len();
    let from = ws[w] as usize;
    if (MOST_COUNT < count) | (room < from) {
        return refuse(c);
    }
    let many = count as usize;
    if room - from < many {
        return refuse(c);
    }
    let fits = writer_items::no_zero(&source[from..from + many]);
    over(c, fits, many + (8 - (c.at + many) % 8))
}
