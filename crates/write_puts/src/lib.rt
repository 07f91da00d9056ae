// The bytes of one item that fits: one function for each shape, given its guard and the number of its first word.
// Nothing is tested again. An item that is not selected has no bytes.
#![tactic(auto)]

ghost use Rattle.std.specs.Prelude.{◌≡◌, [], ◌∷◌, ◌++◌, ◌+◌, ◌*◌, ◌≤◌, length, take, drop};
ghost use Rattle.meaning.specs.declared.Shape.TheVariants.{Number, Ignored, Count, Size, Times, Earlier, Registers, Filled, Abi, Limit, Listed, Bytes, Pad, Name};
ghost use Rattle.meaning.specs.Bytes.{spell, zeros, put};
ghost use Rattle.meaning.specs.Items.{bytes};
ghost use Rattle.meaning.specs.Schema.{item, group_bytes};
ghost use Rattle.writer_items.specs.Tries.{most_bytes};
ghost use Rattle.write_fits.specs.Items.{stay};
ghost use Rattle.write_puts.specs.Puts.{Ready, Placed};

use meaning::Width;
use write_fits::Walked;

// ---- numbers, each width two halves of the one below

// kept: put's functions of the same widths test the slice's end, these ask for it (d: a test more on each number).
fn store2(d: &mut [u8], at: usize, x: u64)
    requires { at + 2 ≤ length d.old }
    ensures { d.new ≡ put d.old at (spell 2 x) }
{
    d[at] = (x % 256) as u8;
    d[at + 1] = (x / 256 % 256) as u8;
}

fn store4(d: &mut [u8], at: usize, x: u64)
    requires { at + 4 ≤ length d.old }
    ensures { d.new ≡ put d.old at (spell 4 x) }
{
    store2(d, at, x);
    store2(d, at + 2, x / 65536);
}

fn store8(d: &mut [u8], at: usize, x: u64)
    requires { at + 8 ≤ length d.old }
    ensures { d.new ≡ put d.old at (spell 8 x) }
{
    store4(d, at, x);
    store4(d, at + 4, x / 4294967296);
}

// "Header: type u32, misc u16, size u16."
pub fn header(kind: u64, misc: u64, size: u64, buffer: &mut [u8])
    requires { 8 ≤ length buffer.old }
    ensures { buffer.new ≡ put buffer.old 0 (spell 4 kind ++ (spell 2 misc ++ spell 2 size)) }
{
    store4(buffer, 0, kind);
    store2(buffer, 4, misc);
    store2(buffer, 6, size);
}

fn store(d: &mut [u8], at: usize, x: u64, width: Width)
    requires { at + bytes width ≤ length d.old }
    ensures { d.new ≡ put d.old at (spell (bytes width) x) }
{
    match width {
        Width::W1 => {
            d[at] = (x % 256) as u8;
        }
        Width::W2 => {
            store2(d, at, x);
        }
        Width::W4 => {
            store4(d, at, x);
        }
        Width::W8 => {
            store8(d, at, x);
        }
    }
}

// Past so many bytes; the counts stay as they are.
fn past(c: Walked, k: usize) -> Walked
    requires { c.at + k ≤ most_bytes }
    ensures { result ≡ stay k c }
{
    Walked { at: c.at + k, ..c }
}

pub fn number(
    ws: &[u64],
    source: &[u8],
    c: Walked,
    on: bool,
    w: usize,
    buffer: &mut [u8],
    width: Width,
) -> Walked
    requires { Ready (item on (Number width) ∷ []) source.now ws.now w c buffer.old × (w + 2 ≤ length ws.now) }
    ensures { Placed (item on (Number width) ∷ []) source.now ws.now w c buffer.old buffer.new result }
{
    if !on {
        return c;
    }
    store(buffer, c.at, ws[w], width);
    past(c, width.bytes())
}

// A count leaves the one before it remembered too.
pub fn count(
    ws: &[u64],
    source: &[u8],
    c: Walked,
    on: bool,
    w: usize,
    buffer: &mut [u8],
    width: Width,
) -> Walked
    requires { Ready (item on (Count width) ∷ []) source.now ws.now w c buffer.old × (w + 2 ≤ length ws.now) }
    ensures { Placed (item on (Count width) ∷ []) source.now ws.now w c buffer.old buffer.new result }
{
    if !on {
        return c;
    }
    let v = ws[w];
    store(buffer, c.at, v, width);
    let k = width.bytes();
    Walked {
        at: c.at + k,
        n: v,
        old: c.n,
        told: v,
        before: c.told,
        ..c
    }
}

pub fn size(
    ws: &[u64],
    source: &[u8],
    c: Walked,
    on: bool,
    w: usize,
    buffer: &mut [u8],
    width: Width,
) -> Walked
    requires { Ready (item on (Size width) ∷ []) source.now ws.now w c buffer.old × (w + 2 ≤ length ws.now) }
    ensures { Placed (item on (Size width) ∷ []) source.now ws.now w c buffer.old buffer.new result }
{
    if !on {
        return c;
    }
    let v = ws[w];
    store(buffer, c.at, v, width);
    let k = width.bytes();
    Walked {
        at: c.at + k,
        n: v,
        told: v,
        ..c
    }
}

pub fn limit(ws: &[u64], source: &[u8], c: Walked, on: bool, w: usize, buffer: &mut [u8]) -> Walked
    requires { Ready (item on (Limit 20) ∷ []) source.now ws.now w c buffer.old × (w + 2 ≤ length ws.now) }
    ensures { Placed (item on (Limit 20) ∷ []) source.now ws.now w c buffer.old buffer.new result }
{
    if !on {
        return c;
    }
    let v = ws[w];
    store(buffer, c.at, v, Width::W1);
    Walked {
        n: v,
        told: v,
        ..past(c, 1)
    }
}

pub fn abi(
    ws: &[u64],
    source: &[u8],
    c: Walked,
    on: bool,
    w: usize,
    buffer: &mut [u8],
    mask: u64,
) -> Walked
    requires { Ready (item on (Abi mask) ∷ []) source.now ws.now w c buffer.old × (w + 2 ≤ length ws.now) }
    ensures { Placed (item on (Abi mask) ∷ []) source.now ws.now w c buffer.old buffer.new result }
{
    if !on {
        return c;
    }
    let v = ws[w];
    store8(buffer, c.at, v);
    Walked {
        at: c.at + 8,
        n: fills::registers_by(v, mask),
        ..c
    }
}

// A stack of size 0 has no filled length.
pub fn filled(ws: &[u64], source: &[u8], c: Walked, on: bool, w: usize, buffer: &mut [u8]) -> Walked
    requires { Ready (item on Filled ∷ []) source.now ws.now w c buffer.old × (w + 2 ≤ length ws.now) }
    ensures { Placed (item on Filled ∷ []) source.now ws.now w c buffer.old buffer.new result }
{
    if !on {
        return c;
    }
    if c.n == 0 {
        return c;
    }
    store8(buffer, c.at, ws[w]);
    past(c, 8)
}

// Written as zero.
pub fn ignored(
    ws: &[u64],
    source: &[u8],
    c: Walked,
    on: bool,
    w: usize,
    buffer: &mut [u8],
    k: usize,
) -> Walked
    requires { Ready (item on (Ignored k) ∷ []) source.now ws.now w c buffer.old }
    ensures { Placed (item on (Ignored k) ∷ []) source.now ws.now w c buffer.old buffer.new result }
{
    if !on {
        return c;
    }
    wire::zero_at(buffer, c.at, k);
    past(c, k)
}

pub fn pad(ws: &[u64], source: &[u8], c: Walked, on: bool, w: usize, buffer: &mut [u8]) -> Walked
    requires { Ready (item on Pad ∷ []) source.now ws.now w c buffer.old }
    ensures { Placed (item on Pad ∷ []) source.now ws.now w c buffer.old buffer.new result }
{
    if !on {
        return c;
    }
    let k = (8 - c.at % 8) % 8;
    wire::zero_at(buffer, c.at, k);
    past(c, k)
}

// ---- lists

fn copy(source: &[u8], place: u64, many: usize, buffer: &mut [u8], at: usize)
    requires { place + many ≤ length source.now }
    ensures { buffer.new ≡ put buffer.old at (take many (drop place source.now)) }
{
    let from = place as usize;
    wire::copy_at(&source[from..from + many], buffer, at);
}

pub fn times(
    ws: &[u64],
    source: &[u8],
    c: Walked,
    on: bool,
    w: usize,
    buffer: &mut [u8],
    k: usize,
) -> Walked
    requires { Ready (item on (Times k) ∷ []) source.now ws.now w c buffer.old × (w + 2 ≤ length ws.now) }
    ensures { Placed (item on (Times k) ∷ []) source.now ws.now w c buffer.old buffer.new result }
{
    if !on {
        return c;
    }
    let many = c.told as usize * k;
    copy(source, ws[w], many, buffer, c.at);
    past(c, many)
}

pub fn values(
    ws: &[u64],
    source: &[u8],
    c: Walked,
    on: bool,
    w: usize,
    buffer: &mut [u8],
    f: u64,
) -> Walked
    requires { Ready (item on (Times (group_bytes f)) ∷ []) source.now ws.now w c buffer.old × (w + 2 ≤ length ws.now) }
    ensures { Placed (item on (Times (group_bytes f)) ∷ []) source.now ws.now w c buffer.old buffer.new result }
{
    times(ws, source, c, on, w, buffer, layouts::group_bytes(f))
}

pub fn earlier(
    ws: &[u64],
    source: &[u8],
    c: Walked,
    on: bool,
    w: usize,
    buffer: &mut [u8],
) -> Walked
    requires { Ready (item on (Earlier 1) ∷ []) source.now ws.now w c buffer.old × (w + 2 ≤ length ws.now) }
    ensures { Placed (item on (Earlier 1) ∷ []) source.now ws.now w c buffer.old buffer.new result }
{
    if !on {
        return c;
    }
    let many = c.before as usize;
    copy(source, ws[w], many, buffer, c.at);
    past(c, many)
}

pub fn registers(
    ws: &[u64],
    source: &[u8],
    c: Walked,
    on: bool,
    w: usize,
    buffer: &mut [u8],
) -> Walked
    requires { Ready (item on Registers ∷ []) source.now ws.now w c buffer.old × (w + 2 ≤ length ws.now) }
    ensures { Placed (item on Registers ∷ []) source.now ws.now w c buffer.old buffer.new result }
{
    if !on {
        return c;
    }
    let many = ws[w + 1] as usize * 8;
    copy(source, ws[w], many, buffer, c.at);
    past(c, many)
}

// The bytes of a build id, and zero bytes up to twenty.
pub fn listed(ws: &[u64], source: &[u8], c: Walked, on: bool, w: usize, buffer: &mut [u8]) -> Walked
    requires { Ready (item on (Listed 20) ∷ []) source.now ws.now w c buffer.old × (w + 2 ≤ length ws.now) }
    ensures { Placed (item on (Listed 20) ∷ []) source.now ws.now w c buffer.old buffer.new result }
{
    if !on {
        return c;
    }
    let many = c.told as usize;
    copy(source, ws[w], many, buffer, c.at);
    wire::zero_at(buffer, c.at + many, 20 - many);
    past(c, 20)
}

pub fn bytes(ws: &[u64], source: &[u8], c: Walked, on: bool, w: usize, buffer: &mut [u8]) -> Walked
    requires { Ready (item on (Bytes 8) ∷ []) source.now ws.now w c buffer.old × (w + 2 ≤ length ws.now) }
    ensures { Placed (item on (Bytes 8) ∷ []) source.now ws.now w c buffer.old buffer.new result }
{
    if !on {
        return c;
    }
    let many = ws[w + 1] as usize;
    copy(source, ws[w], many, buffer, c.at);
    past(c, many)
}

// A name, its zero, and zero bytes up to the next multiple of 8.
pub fn name(ws: &[u64], source: &[u8], c: Walked, on: bool, w: usize, buffer: &mut [u8]) -> Walked
    requires { Ready (item on Name ∷ []) source.now ws.now w c buffer.old × (w + 2 ≤ length ws.now) }
    ensures { Placed (item on Name ∷ []) source.now ws.now w c buffer.old buffer.new result }
{
    if !on {
        return c;
    }
    let many = ws[w + 1] as usize;
    let zeros = 8 - (c.at + many) % 8;
    copy(source, ws[w], many, buffer, c.at);
    wire::zero_at(buffer, c.at + many, zeros);
    past(c, many + zeros)
}
