// The words of one item that is accepted, into lent words that are zero: one function for each shape. Nothing is asked
// again: the check has found every byte and every count. An item that is not selected changes nothing. `at` is the
// item's first word.
#![tactic(auto)]

ghost use Rattle.std.specs.Prelude.{◌≡◌, cond, [], ◌∷◌, ◌+◌, ◌-◌, ◌<◌, ◌≤◌, length, drop, eqb};
ghost use Rattle.meaning.specs.declared.Shape.TheVariants.{Number, Ignored, Count, Size, Times, Earlier, Registers, Filled, Abi, Limit, Listed, Bytes, Pad, Name};
ghost use Rattle.meaning.specs.Bytes.{ones, zero_in};
ghost use Rattle.meaning.specs.Items.{cursor};
ghost use Rattle.meaning.specs.Reasons.{cursor_of};
ghost use Rattle.meaning.specs.Schema.{item, group_bytes};
ghost use Rattle.fills.specs.Chains.{Ready, Filling};

use meaning::{Spot, Width};

// Past so many bytes; the counts stay as they are.
fn past(c: Spot, k: usize) -> Spot
    requires { c.at + k < 18446744073709551616 }
    ensures { cursor_of result ≡ cursor (c.at + k) c.n c.old 0 }
{
    Spot { at: c.at + k, ..c }
}

// ---- numbers

pub fn number(s: &[u8], c: Spot, on: bool, out: &mut [u64], at: usize, width: Width) -> Spot
    requires { Ready (item on (Number width) ∷ []) s.now (cursor_of c) out.old at }
    ensures { Filling (item on (Number width) ∷ []) s.now (cursor_of c) out.old at out.new (cursor_of result) }
{
    if !on {
        return c;
    }
    let many = width.bytes();
    out[at] = shapes::word_at(s, c.at, width);
    past(c, many)
}

// So many bytes that say nothing: no word.
pub fn ignored(s: &[u8], c: Spot, on: bool, out: &mut [u64], at: usize, k: usize) -> Spot
    requires { Ready (item on (Ignored k) ∷ []) s.now (cursor_of c) out.old at }
    ensures { Filling (item on (Ignored k) ∷ []) s.now (cursor_of c) out.old at out.new (cursor_of result) }
{
    if !on {
        return c;
    }
    past(c, k)
}

// ---- numbers that later items are counted by

// A count leaves the one before it remembered too: TEXT_POKE has two before its two texts.
pub fn count(s: &[u8], c: Spot, on: bool, out: &mut [u64], at: usize, width: Width) -> Spot
    requires { Ready (item on (Count width) ∷ []) s.now (cursor_of c) out.old at }
    ensures { Filling (item on (Count width) ∷ []) s.now (cursor_of c) out.old at out.new (cursor_of result) }
{
    if !on {
        return c;
    }
    let k = width.bytes();
    let v = shapes::word_at(s, c.at, width);
    out[at] = v;
    Spot {
        at: c.at + k,
        n: v,
        old: c.n,
    }
}

pub fn size(s: &[u8], c: Spot, on: bool, out: &mut [u64], at: usize, width: Width) -> Spot
    requires { Ready (item on (Size width) ∷ []) s.now (cursor_of c) out.old at }
    ensures { Filling (item on (Size width) ∷ []) s.now (cursor_of c) out.old at out.new (cursor_of result) }
{
    if !on {
        return c;
    }
    let k = width.bytes();
    let v = shapes::word_at(s, c.at, width);
    out[at] = v;
    Spot {
        at: c.at + k,
        n: v,
        ..c
    }
}

pub fn limit(s: &[u8], c: Spot, on: bool, out: &mut [u64], at: usize) -> Spot
    requires { Ready (item on (Limit 20) ∷ []) s.now (cursor_of c) out.old at }
    ensures { Filling (item on (Limit 20) ∷ []) s.now (cursor_of c) out.old at out.new (cursor_of result) }
{
    if !on {
        return c;
    }
    let v = wire::u8_at(s, c.at);
    out[at] = v;
    Spot {
        at: c.at + 1,
        n: v,
        ..c
    }
}

// "An abi word, then as many registers as the mask has ones; if the abi is 0, none follow."
pub fn registers_by(abi: u64, mask: u64) -> u64
    ensures { result ≡ cond (eqb abi 0) 0 (ones 64 mask) }
{
    if abi == 0 {
        return 0;
    }
    wire::count_ones(mask) as u64
}

pub fn abi(s: &[u8], c: Spot, on: bool, out: &mut [u64], at: usize, mask: u64) -> Spot
    requires { Ready (item on (Abi mask) ∷ []) s.now (cursor_of c) out.old at }
    ensures { Filling (item on (Abi mask) ∷ []) s.now (cursor_of c) out.old at out.new (cursor_of result) }
{
    if !on {
        return c;
    }
    let v = wire::u64_at(s, c.at);
    out[at] = v;
    Spot {
        at: c.at + 8,
        n: registers_by(v, mask),
        ..c
    }
}

// The filled length of a stack; a stack of size 0 has none.
pub fn filled(s: &[u8], c: Spot, on: bool, out: &mut [u64], at: usize) -> Spot
    requires { Ready (item on Filled ∷ []) s.now (cursor_of c) out.old at }
    ensures { Filling (item on Filled ∷ []) s.now (cursor_of c) out.old at out.new (cursor_of result) }
{
    if !on {
        return c;
    }
    if c.n == 0 {
        return c;
    }
    out[at] = wire::u64_at(s, c.at);
    past(c, 8)
}

// ---- lists: the place, and the count where no count word of the record holds it

// As many elements of k bytes as the last count says.
pub fn times(s: &[u8], c: Spot, on: bool, out: &mut [u64], at: usize, k: usize) -> Spot
    requires { Ready (item on (Times k) ∷ []) s.now (cursor_of c) out.old at }
    ensures { Filling (item on (Times k) ∷ []) s.now (cursor_of c) out.old at out.new (cursor_of result) }
{
    if !on {
        return c;
    }
    out[at] = c.at as u64;
    past(c, c.n as usize * k)
}

// The entries of a group, by the read format.
pub fn values(s: &[u8], c: Spot, on: bool, out: &mut [u64], at: usize, f: u64) -> Spot
    requires { Ready (item on (Times (group_bytes f)) ∷ []) s.now (cursor_of c) out.old at }
    ensures { Filling (item on (Times (group_bytes f)) ∷ []) s.now (cursor_of c) out.old at out.new (cursor_of result) }
{
    times(s, c, on, out, at, layouts::group_bytes(f))
}

// As many bytes as the count before the last one says.
pub fn earlier(s: &[u8], c: Spot, on: bool, out: &mut [u64], at: usize) -> Spot
    requires { Ready (item on (Earlier 1) ∷ []) s.now (cursor_of c) out.old at }
    ensures { Filling (item on (Earlier 1) ∷ []) s.now (cursor_of c) out.old at out.new (cursor_of result) }
{
    if !on {
        return c;
    }
    out[at] = c.at as u64;
    past(c, c.old as usize)
}

pub fn registers(s: &[u8], c: Spot, on: bool, out: &mut [u64], at: usize) -> Spot
    requires { Ready (item on Registers ∷ []) s.now (cursor_of c) out.old at }
    ensures { Filling (item on Registers ∷ []) s.now (cursor_of c) out.old at out.new (cursor_of result) }
{
    if !on {
        return c;
    }
    out[at] = c.at as u64;
    out[at + 1] = c.n;
    past(c, c.n as usize * 8)
}

// The bytes of a build id: its size word is the count.
pub fn listed(s: &[u8], c: Spot, on: bool, out: &mut [u64], at: usize) -> Spot
    requires { Ready (item on (Listed 20) ∷ []) s.now (cursor_of c) out.old at }
    ensures { Filling (item on (Listed 20) ∷ []) s.now (cursor_of c) out.old at out.new (cursor_of result) }
{
    if !on {
        return c;
    }
    out[at] = c.at as u64;
    past(c, 20)
}

// The tag of BPF_EVENT.
pub fn bytes(s: &[u8], c: Spot, on: bool, out: &mut [u64], at: usize) -> Spot
    requires { Ready (item on (Bytes 8) ∷ []) s.now (cursor_of c) out.old at }
    ensures { Filling (item on (Bytes 8) ∷ []) s.now (cursor_of c) out.old at out.new (cursor_of result) }
{
    if !on {
        return c;
    }
    out[at] = c.at as u64;
    out[at + 1] = 8;
    past(c, 8)
}

// Up to the next multiple of 8: no word.
pub fn pad(s: &[u8], c: Spot, on: bool, out: &mut [u64], at: usize) -> Spot
    requires { Ready (item on Pad ∷ []) s.now (cursor_of c) out.old at }
    ensures { Filling (item on Pad ∷ []) s.now (cursor_of c) out.old at out.new (cursor_of result) }
{
    if !on {
        return c;
    }
    past(c, (8 - c.at % 8) % 8)
}

// ---- names

// Rule 33 has found the first zero among the last eight bytes: it is looked for from there.
fn zero_of(s: &[u8], at: usize) -> usize
    requires { (at ≤ length s.now) × (length s.now ≤ at + zero_in (drop at s.now) + 8) }
    ensures { (result ≡ at + zero_in (drop at s.now)) × (at ≤ result) }
{
    if s.len() - at < 8 {
        return shapes::zero_from(s, at);
    }
    shapes::zero_from(s, s.len() - 8)
}

pub fn name(s: &[u8], c: Spot, on: bool, out: &mut [u64], at: usize) -> Spot
    requires { Ready (item on Name ∷ []) s.now (cursor_of c) out.old at }
    ensures { Filling (item on Name ∷ []) s.now (cursor_of c) out.old at out.new (cursor_of result) }
{
    if !on {
        return c;
    }
    out[at] = c.at as u64;
    out[at + 1] = (zero_of(s, c.at) - c.at) as u64;
    Spot { at: s.len(), ..c }
}
