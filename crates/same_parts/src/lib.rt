// Are the fields of two records the same but for ignored bytes? The type and the attributes say where those lie: "res,
// bytes after a name's zero, build-id padding, text padding, the reserved three". The bytes before and after them are
// compared as they stand; no field is read.
#![tactic(auto)]

ghost use Rattle.std.specs.Prelude.{◌≡◌, ◌<◌, ◌≤◌, length, unwrap_or, IfSome};
ghost use Rattle.same_parts.specs.Parts.{same_span, same_but_four, around_res, name_same, build_same, text_same, name_at, others_same, body_same};

use meaning::Kind;

// What stands before `res` in eights of bytes, but for the cpu's four: in a SAMPLE identifier (16), ip, pid and tid,
// time, addr (0 to 3), id, stream id (6, 9).
const SAMPLE_BITS: u64 = 66127;

// The bytes from i up to j, where both have them.
fn same_span(s: &[u8], t: &[u8], i: usize, j: usize) -> bool
    ensures { result ≡ same_span s.now t.now i j }
{
    if j < i {
        return false;
    }
    if s.len() < j {
        return false;
    }
    if t.len() < j {
        return false;
    }
    same_bytes::same_bytes(s, i, t, i, j - i)
}

// From `from` on, all but the four bytes at `res`.
fn same_but_four(s: &[u8], t: &[u8], from: usize, res: usize) -> bool
    ensures { result ≡ same_but_four s.now t.now from res }
{
    if !same_span(s, t, from, res) {
        return false;
    }
    if s.len() - res < 4 {
        return false;
    }
    same_span(s, t, res + 4, s.len())
}

// "cpu and res (7)": the bits of x that stand before them are those of the mask.
pub fn around_res(s: &[u8], t: &[u8], x: u64, mask: u64, from: usize) -> bool
    requires { from ≤ length s.now }
    ensures { result ≡ around_res s.now t.now x mask from }
{
    if !wire::has_bit(x, 7) {
        return same_span(s, t, from, s.len());
    }
    let before = wire::count_ones(x & mask) * 8 + 4;
    if s.len() - from < before {
        return false;
    }
    same_but_four(s, t, from, from + before)
}

// From `begin` on up to the zero of the name that starts at `from`, with it.
fn name_same(s: &[u8], t: &[u8], begin: usize, from: usize) -> bool
    ensures { result ≡ name_same s.now t.now begin from }
{
    if s.len() < from {
        return false;
    }
    let zero = fields::zero_from(s, from);
    if s.len() == zero {
        return false;
    }
    same_span(s, t, begin, zero + 1)
}

// MMAP2 with a build id: its size at 40, three reserved bytes, twenty of which it has so many; prot, flags, name.
fn build_same(s: &[u8], t: &[u8]) -> bool
    ensures { result ≡ build_same s.now t.now }
{
    if !same_span(s, t, 8, 41) {
        return false;
    }
    if !same_span(s, t, 44, 44 + wire::u8_at(s, 40) as usize) {
        return false;
    }
    name_same(s, t, 64, 72)
}

// TEXT_POKE: two lengths at 16 and 18, both texts, padding.
fn text_same(s: &[u8], t: &[u8]) -> bool
    ensures { result ≡ text_same s.now t.now }
{
    if s.len() < 20 {
        return false;
    }
    let texts = wire::u16_at(s, 16) + wire::u16_at(s, 18);
    same_span(s, t, 8, 20 + texts as usize)
}

// Where the name of a type starts, where it has one.
#[tactic(auto, unfolding(crate::specs::Parts::name_at))]
fn name_at(kind: u64) -> Option<usize>
    ensures value { unwrap_or result 0 ≡ name_at kind }
    ensures some { IfSome result (λ from. 0 < from) }
{
    match Kind::try_from(kind) {
        Ok(Kind::Mmap) => Some(40),
        Ok(Kind::Comm) => Some(16),
        Ok(Kind::Mmap2) => Some(72),
        Ok(Kind::Ksymbol) => Some(24),
        Ok(Kind::Cgroup) => Some(16),
        _ => None,
    }
}

// The fields of a type that has no ignored bytes but those after its name's zero, if it has a name.
fn others_same(s: &[u8], t: &[u8], kind: u64) -> bool
    ensures { result ≡ others_same s.now t.now kind }
{
    match name_at(kind) {
        Some(from) => name_same(s, t, 8, from),
        None => same_span(s, t, 8, s.len()),
    }
}

// The fields, up to the trailer.
#[tactic(auto, unfolding(crate::specs::Parts::body_same, crate::specs::Parts::others_same))]
pub fn body_same(s: &[u8], t: &[u8], kind: u64, misc: u64, x: u64) -> bool
    requires { 8 ≤ length s.now }
    ensures { result ≡ body_same s.now t.now kind misc x }
{
    match Kind::try_from(kind) {
        Ok(Kind::Sample) => around_res(s, t, x, SAMPLE_BITS, 8),
        Ok(Kind::TextPoke) => text_same(s, t),
        Ok(Kind::Mmap2) if wire::has_bit(misc, 14) => build_same(s, t),
        _ => others_same(s, t, kind),
    }
}
