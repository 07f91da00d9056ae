// For each type a mark: what edition and attributes alone decide of its records.
//   below OPEN      the size of every sound record: fewer bytes are 30, more 31
//   OPEN            the record says its own length: READ of a group, NAMESPACES, TEXT_POKE
//   STRETCHED       a SAMPLE in stretches
//   OPEN + from     a name starts at `from`
//   REFUSED + why   refused whatever the bytes are: 20, 21, 22, 25 or 24
// kept: a mark is a number, and no enum: a record of a sized type is accepted by one comparison with its size; an enum
// asks for its tag first, in a sketch 3 to 4 instructions more for a small SAMPLE of 27.
#![tactic(auto)]

ghost use Rattle.std.specs.Prelude.{◌≡◌, ◌≤◌, get_or};
ghost use Rattle.meaning.specs.Editions.{unreadable};
ghost use Rattle.meaning.specs.Schema.{trailer};
ghost use Rattle.meaning.specs.Records.{room};
ghost use Rattle.meaning.specs.Reasons.{number_of};
ghost use Rattle.sums.specs.Sums.{sum_most, sums_of};
ghost use Rattle.marks.specs.Marks.{last_type, Marked, Refusal};
ghost use Rattle.marks.specs.Bases.{bases, stretched};

pub use layouts::types::{MMAP2, NAMESPACES, READ, SAMPLE};
use meaning::{Attributes, Kind, Known, Reason};

pub const OPEN: u64 = 65536;

pub const STRETCHED: u64 = 65537;

pub const REFUSED: u64 = 131072;

// 20: no type of the edition
pub const NO_TYPE: u64 = REFUSED + Reason::UnknownType as u64;

// where a name starts
pub const NAME_AT_16: u64 = OPEN + 16;

pub const NAME_AT_24: u64 = OPEN + 24;

pub const NAME_AT_40: u64 = OPEN + 40;

pub const NAME_AT_72: u64 = OPEN + 72;

// The reason of a number that a mark or a slot holds.
pub fn refusal(number: u64) -> Reason
    requires { Refusal number }
    ensures { number_of result ≡ number }
{
    match number {
        20 => Reason::UnknownType,
        21 => Reason::SampleBits,
        22 => Reason::FormatBits,
        23 => Reason::BuildIdForm,
        24 => Reason::TwoWeights,
        _ => Reason::BranchBits,
    }
}

// The base of one type, without the trailer: a `match` is a table in read-only memory, where a constant array would be
// copied at each use.
fn base_of(kind: u64) -> u64
    requires le_kind { 1 ≤ kind }
    requires kind_le_last_type { kind ≤ last_type }
    ensures { result ≡ get_or bases kind 0 }
{
    match Kind::try_from(kind) {
        Ok(Kind::Mmap) => NAME_AT_40,
        Ok(Kind::Lost) => 24,
        Ok(Kind::Comm) => NAME_AT_16,
        Ok(Kind::Exit) => 32,
        Ok(Kind::Throttle) => 32,
        Ok(Kind::Unthrottle) => 32,
        Ok(Kind::Fork) => 32,
        Ok(Kind::Read) => 8,
        Ok(Kind::Sample) => 8,
        Ok(Kind::Mmap2) => NAME_AT_72,
        Ok(Kind::Aux) => 32,
        Ok(Kind::ItraceStart) => 16,
        Ok(Kind::LostSamples) => 16,
        Ok(Kind::Switch) => 8,
        Ok(Kind::SwitchCpuWide) => 16,
        Ok(Kind::Namespaces) => OPEN,
        Ok(Kind::Ksymbol) => NAME_AT_24,
        Ok(Kind::BpfEvent) => 24,
        Ok(Kind::Cgroup) => NAME_AT_16,
        Ok(Kind::TextPoke) => OPEN,
        Ok(Kind::AuxOutputHwId) => 16,
        Err(_) => unreachable!(),
    }
}

// A type that the edition has, other than READ and SAMPLE: `why` is what the edition says of all of them, `trail` the
// trailer's bytes.
// kept: `why` is a number, as a slot holds it: it is compared with 0 and added to REFUSED as it stands.
// kept: the edition's row, the attributes and the trailer's bytes one by one, here and in `read_mark` and `other_mark`: who calls
// one of them from another crate does so once, and would make a struct with these facts for that one call.
pub fn type_mark(known: Known, a: Attributes, kind: u64, why: u16, trail: u64) -> u64
    requires kinds_le_last_type { known.kinds ≤ last_type }
    requires why_value { why ≡ unreadable known a 1 0 }
    requires trail_value { trail ≡ room (trailer 1 a) }
    requires trail_le_sum_most { trail ≤ sum_most }
    requires le_kind { 1 ≤ kind }
    requires kind_le_kinds { kind ≤ known.kinds }
    requires fact { (kind ≡ 8 → ⊥) × (kind ≡ 9 → ⊥) }
    ensures { Marked known a kind result }
{
    if why != 0 {
        return REFUSED + why as u64;
    }
    let base = base_of(kind);
    if base < OPEN {
        return base + trail;
    }
    base
}

// READ: 24 bytes and more where its values are no group.
pub fn read_mark(known: Known, a: Attributes, trail: u64) -> u64
    requires trail_value { trail ≡ room (trailer 1 a) }
    requires trail_le_sum_most { trail ≤ sum_most }
    ensures { Marked known a 8 result }
{
    if let Err(why) = record::unreadable(known, a, READ, 0) {
        return REFUSED + why.number() as u64;
    }
    if wire::has_bit(a.format, 3) {
        return OPEN;
    }
    16 + (sums::read_values(a) + trail)
}

// Any type but SAMPLE; 0, and what the edition does not have, are 20.
pub fn other_mark(known: Known, a: Attributes, kind: u64, trail: u64) -> u64
    requires kinds_le_last_type { known.kinds ≤ last_type }
    requires trail_value { trail ≡ room (trailer 1 a) }
    requires trail_le_sum_most { trail ≤ sum_most }
    requires fact { kind ≡ 9 → ⊥ }
    ensures { Marked known a kind result }
{
    if (kind == 0) | (known.kinds < kind) {
        return NO_TYPE;
    }
    if kind == READ {
        return read_mark(known, a, trail);
    }
    let why = meaning::answer_number(record::unreadable(known, a, 1, 0));
    type_mark(known, a, kind, why, trail)
}

// A SAMPLE has a list, or fields after which the record says how it goes on: callchain, raw, branches, user registers,
// user stack, interrupt registers, aux, or a group of read values.
fn in_stretches(a: Attributes) -> bool
    ensures { result ≡ stretched a }
{
    let x = a.sample;
    let user = wire::has_bit(x, 11) | (wire::has_bit(x, 12) | wire::has_bit(x, 13));
    let lists = wire::has_bit(x, 5) | (wire::has_bit(x, 10) | user);
    let late = wire::has_bit(x, 18) | wire::has_bit(x, 20);
    (wire::has_bit(x, 4) & wire::has_bit(a.format, 3)) | (late | lists)
}

pub fn sample_mark(known: Known, a: Attributes, sums: &[u64; 8]) -> u64
    requires { sums.now ≡ sums_of a }
    ensures { Marked known a 9 result }
{
    if let Err(why) = record::unreadable(known, a, SAMPLE, 0) {
        return REFUSED + why.number() as u64;
    }
    if in_stretches(a) {
        return STRETCHED;
    }
    8 + (sums[exact::FIRST] + sums[exact::LAST])
}
