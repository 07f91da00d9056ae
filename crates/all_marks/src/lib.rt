// The marks of all types, made once a drain: crate marks says what a mark is.
#![tactic(auto)]

ghost use Rattle.std.specs.Prelude.{◌≡◌, ℕ, ◌≤◌, ◌<◌, length, get_or};
ghost use Rattle.meaning.specs.Schema.{trailer};
ghost use Rattle.meaning.specs.Records.{room};
ghost use Rattle.sums.specs.Sums.{sum_most, sums_of};
ghost use Rattle.marks.specs.Marks.{last_type, mark_count, Marked, Marks};
ghost use Rattle.marks.specs.Bases.{bases_with};

use meaning::{Attributes, Known};

// Types 0 to 21 have a mark of their own; what is above is 20 in every edition.
const TYPES: usize = 22;

// The marks of all types, under an edition that has them; READ and SAMPLE are set afterwards. As a literal it
// is 32 stores: an array that is indexed by a variable would be copied at each use.
fn bases(t: u64) -> [u64; 32]
    requires { t ≤ sum_most }
    ensures { result ≡ bases_with t }
{
    [
        marks::NO_TYPE,
        marks::NAME_AT_40,
        24 + t,
        marks::NAME_AT_16,
        32 + t,
        32 + t,
        32 + t,
        32 + t,
        8 + t,
        8 + t,
        marks::NAME_AT_72,
        32 + t,
        16 + t,
        16 + t,
        8 + t,
        16 + t,
        marks::OPEN,
        marks::NAME_AT_24,
        24 + t,
        marks::NAME_AT_16,
        marks::OPEN,
        16 + t,
        marks::NO_TYPE,
        marks::NO_TYPE,
        marks::NO_TYPE,
        marks::NO_TYPE,
        marks::NO_TYPE,
        marks::NO_TYPE,
        marks::NO_TYPE,
        marks::NO_TYPE,
        marks::NO_TYPE,
        marks::NO_TYPE,
    ]
}

// All types but READ and SAMPLE: those above the edition's are 20; where the trailer has a sample bit that the edition
// does not know, the others are 21.
fn type_marks(known: Known, a: Attributes, trail: u64) -> [u64; 32]
    requires kinds_le_last_type { known.kinds ≤ last_type }
    requires trail_value { trail ≡ room (trailer 1 a) }
    requires trail_le_sum_most { trail ≤ sum_most }
    ensures result_len { length result ≡ mark_count }
    ensures by_index { (kind : ℕ) → kind < mark_count → (kind ≡ 8 → ⊥) → (kind ≡ 9 → ⊥) → Marked known a kind (get_or result kind 0) }
{
    let next = known.kinds as usize + 1;
    let mut marks = bases(trail);
    marks[next..TYPES].fill(marks::NO_TYPE);
    if let Err(why) = record::unreadable(known, a, 1, 0) {
        marks[1..next].fill(marks::REFUSED + why.number() as u64);
    }
    marks
}

// kept: attributes and sums side by side, and no struct: it would be made for this one call.
pub fn marks(known: Known, a: Attributes, sums: &[u64; 8]) -> [u64; 32]
    requires kinds_le_last_type { known.kinds ≤ last_type }
    requires sums_value { sums.now ≡ sums_of a }
    ensures { Marks known a result }
{
    let trail = sums[exact::TRAIL];
    let mut p = type_marks(known, a, trail);
    p[marks::READ as usize] = marks::read_mark(known, a, trail);
    p[marks::SAMPLE as usize] = marks::sample_mark(known, a, sums);
    p
}
