// The judge of one record and record check once more, for speed: by the mark of the record's type and the exact judge,
// which the drain has too. What a caller sees is the same as by the plain walk. Of the sums only those are made that
// the type needs. The header is taken by the reader that holds the record and its place.
#![tactic(auto)]

ghost use Rattle.std.specs.Prelude.{◌≡◌, ◌≤◌, length};
ghost use Rattle.meaning.specs.Editions.{editions, known};
ghost use Rattle.meaning.specs.Records.{layout, judge, check};
ghost use Rattle.meaning.specs.Reasons.{answer_of};
ghost use Rattle.exact.specs.Stretches.{group_fixed};

use meaning::{Attributes, Known, Reason};
use plan::{Fixed, Whole};

// A SAMPLE: all sums.
fn sampled(r: Whole, known: Known, a: Attributes) -> Result<(), Reason>
    requires { r.kind ≡ 9 }
    ensures { answer_of result ≡ judge (layout known a) r.entry.bytes.now }
{
    let sums = sums::sums(a);
    let mark = marks::sample_mark(known, a, &sums);
    plan::sampled(r, mark, known, a, &sums)
}

// The words of a group before its elements, which READ alone needs.
fn group_words(kind: u64, a: Attributes) -> usize
    ensures { kind ≡ 8 → result ≡ group_fixed a.format }
{
    if kind == marks::READ {
        return sums::group(a) as usize;
    }
    0
}

// A record of whole words, below 65,536 bytes.
fn planned(r: Whole, e: u64, a: Attributes) -> Result<(), Reason>
    ensures { answer_of result ≡ judge (layout (known editions e) a) r.entry.bytes.now }
{
    let row = record::edition(e);
    if r.kind == marks::SAMPLE {
        return sampled(r, row, a);
    }
    let trail = record::trailer_room(1, a);
    let mark = marks::other_mark(row, a, r.kind, trail as u64);
    let group = group_words(r.kind, a);
    let p = Fixed {
        r,
        mark,
        known: row,
        a,
        trail,
        group,
    };
    plan::other(p)
}

// The answer for a record's bytes. A length that no record in a ring has is left to the plain judge.
pub fn judge(r: &[u8], e: u64, a: Attributes) -> Result<(), Reason>
    requires { 8 ≤ length r.now }
    ensures { answer_of result ≡ judge (layout (known editions e) a) r.now }
{
    let n = r.len();
    if (n % 8 != 0) | (65535 < n) {
        return record::judge(r, e, a);
    }
    let kind = reader::whole_header(r).kind;
    planned(Whole { bytes: r, kind }, e, a)
}

// Record check: "2; 7 if the slice is shorter than 8; 6; 7 if the size differs from the slice's length; 20 to 33;
// otherwise 0".
pub fn check(r: &[u8], e: u64, a: Attributes) -> Result<(), Reason>
    ensures { answer_of result ≡ check editions e a r.now }
{
    if !record::allowed(e) {
        return Err(Reason::UnknownEdition);
    }
    let h = answers::header_of_whole(r)?;
    // As in `judge`; never so of a size of 16 bits, and the compiler leaves the call out.
    if 65535 < h.size {
        return record::judge(r, e, a);
    }
    let kind = h.kind;
    planned(Whole { bytes: r, kind }, e, a)
}
