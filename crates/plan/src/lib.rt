// The exact answer for a record's bytes, by its type's mark.
#![tactic(auto)]

ghost use Rattle.std.specs.Prelude.{◌≡◌, true, ◌&&◌, ◌≤◌, ◌<◌, eqb};
ghost use Rattle.meaning.specs.Bytes.{bit};
ghost use Rattle.meaning.specs.Editions.{unreadable};
ghost use Rattle.meaning.specs.Schema.{schema};
ghost use Rattle.meaning.specs.Records.{layout, misc_of, judge};
ghost use Rattle.meaning.specs.Reasons.{answer_of};
ghost use Rattle.blocks.specs.Seen.{Closes};
ghost use Rattle.sums.specs.Sums.{sums_of};
ghost use Rattle.marks.specs.Marks.{open_mark, stretched_mark, refused_mark, Marked, Counted};

use exact::types::Body;
use exact_sample::Summed;
use meaning::{Attributes, Known, Reason};
pub use records::{Fixed, Whole};

pub mod records;

// READ of a group, NAMESPACES, TEXT_POKE: the fields of a record, which stand before its trailer.
fn counted(p: Fixed, f: Body) -> Result<(), Reason>
    requires { Counted p.a p.r.kind }
    ensures { Closes f.entry.bytes.now (schema p.entry.r.kind 0 p.entry.a) 8 (answer_of result) }
{
    if p.r.kind == marks::READ {
        return exact::types::group_read(f, p.a.format, p.group);
    }
    if p.r.kind == marks::NAMESPACES {
        return exact::types::namespaces(f);
    }
    exact::types::text_poke(f)
}

// MMAP2 with a build id, by bit 14 of misc. It is asked in one place alone, so that it becomes two jumps: a flag that
// is kept costs each name six instructions.
fn has_build(r: Whole) -> bool
    ensures { result ≡ (eqb r.entry.kind 10 && bit (misc_of r.entry.bytes.now) 14) }
{
    (r.kind == marks::MMAP2) & wire::has_bit(wire::u16_at(r.bytes, 4), 14)
}

// The form with a build id: 23 where the edition does not know it.
fn build_id(p: Fixed) -> Result<(), Reason>
    requires value { 10 ≡ p.r.kind }
    requires r_value { bit (misc_of p.r.bytes.now) 14 ≡ true }
    requires a_value { unreadable p.known p.a 10 0 ≡ 0 }
    ensures { answer_of result ≡ judge (layout p.entry.known p.entry.a) p.entry.r.bytes.now }
{
    if !p.known.builds {
        return Err(Reason::BuildIdForm);
    }
    if p.r.bytes.len() < 8 + p.trail {
        return Err(Reason::TooShort);
    }
    let end = p.r.bytes.len() - p.trail;
    let f = Body {
        bytes: &p.r.bytes[..end],
    };
    exact::types::built(f)
}

// A mark from OPEN on: a name, a build id, or a count decides.
fn opened(p: Fixed) -> Result<(), Reason>
    requires open_mark_le_mark { open_mark ≤ p.mark }
    requires mark_lt_refused_mark { p.mark < refused_mark }
    requires fact { p.mark ≡ stretched_mark → ⊥ }
    ensures { answer_of result ≡ judge (layout p.entry.known p.entry.a) p.entry.r.bytes.now }
{
    if has_build(p.r) {
        return build_id(p);
    }
    if p.r.bytes.len() < 8 + p.trail {
        return Err(Reason::TooShort);
    }
    let end = p.r.bytes.len() - p.trail;
    let f = Body {
        bytes: &p.r.bytes[..end],
    };
    if p.mark == marks::OPEN {
        return counted(p, f);
    }
    exact::types::named(f, (p.mark - marks::OPEN) as usize)
}

// Any record but a SAMPLE in stretches, by its mark.
pub fn other(p: Fixed) -> Result<(), Reason>
    requires { p.mark ≡ stretched_mark → ⊥ }
    ensures { answer_of result ≡ judge (layout p.entry.known p.entry.a) p.entry.r.bytes.now }
{
    if p.mark < marks::OPEN {
        return exact::sized(p.r.bytes.len(), p.mark as usize);
    }
    if marks::REFUSED <= p.mark {
        return Err(marks::refusal(p.mark - marks::REFUSED));
    }
    opened(p)
}

// A SAMPLE alone: its mark is a size, a refusal, or that of stretches. Who judges it by itself has `other` in one place.
pub fn sampled(
    r: Whole,
    mark: u64,
    known: Known,
    a: Attributes,
    sums: &[u64; 8],
) -> Result<(), Reason>
    requires sample { r.kind ≡ 9 }
    requires marked { Marked known a r.kind mark }
    requires sums_value { sums.now ≡ sums_of a }
    ensures { answer_of result ≡ judge (layout known a) r.entry.bytes.now }
{
    if mark == marks::STRETCHED {
        let w = Summed { a, sums };
        return exact_sample::sample(r.bytes, w);
    }
    if mark < marks::OPEN {
        let size = mark as usize;
        return exact::sized(r.bytes.len(), size);
    }
    Err(marks::refusal(mark - marks::REFUSED))
}

// The answer for a record's bytes. A SAMPLE in stretches has most to do, and is asked for first.
pub fn judge(
    r: Whole,
    mark: u64,
    known: Known,
    a: Attributes,
    sums: &[u64; 8],
) -> Result<(), Reason>
    requires marked { Marked known a r.kind mark }
    requires sums_value { sums.now ≡ sums_of a }
    ensures { answer_of result ≡ judge (layout known a) r.entry.bytes.now }
{
    if mark == marks::STRETCHED {
        let w = Summed { a, sums };
        return exact_sample::sample(r.bytes, w);
    }
    let trail = sums[exact::TRAIL] as usize;
    let group = sums[exact::GROUP] as usize;
    let p = Fixed {
        r,
        mark,
        known,
        a,
        trail,
        group,
    };
    other(p)
}
