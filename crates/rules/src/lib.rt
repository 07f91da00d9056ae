// What an edition knows, and the refusals 20 to 25, one test each, in document 01's order, with M-102's 25 between 23
// and 24.
#![tactic(auto)]

ghost use Rattle.std.specs.Prelude.{◌≡◌, ◌&&◌, ◌||◌, not, ◌^◌, leb, ltb, eqb};
ghost use Rattle.meaning.specs.Bytes.{bit};
ghost use Rattle.meaning.specs.Editions.{editions, allowed, known, has_sample_bits, has_read_values, has_build_id, has_branches, strange_branch, unreadable};
ghost use Rattle.meaning.specs.Reasons.{answer_of};

use layouts::types::{MMAP2, READ, SAMPLE};
use meaning::{Attributes, Known, Reason};

// ---- editions

// Refusal 2: "edition not 1, 2 or 3"; M-110: "refusal 2 now admits 1 to 4".
pub fn allowed(e: u64) -> bool
    ensures { result ≡ allowed editions e }
{
    (1 <= e) & (e <= 4)
}

// What an edition knows: a row of the table, or nothing.
pub fn edition(e: u64) -> Known
    ensures { result ≡ known editions e }
{
    match e {
        0 | 1 => Known {
            kinds: 9,
            samples: 16,
            formats: 4,
            builds: false,
            index: false,
        },
        2 => Known {
            kinds: 15,
            samples: 19,
            formats: 4,
            builds: false,
            index: false, // branch bit 17 is edition 3's
        },
        3 => Known {
            kinds: 20,
            samples: 25,
            formats: 4,
            builds: true,
            index: true,
        },
        4 => Known {
            kinds: 21,
            samples: 25,
            formats: 5,
            builds: true,
            index: true,
        },
        _ => Known {
            kinds: 0,
            samples: 0,
            formats: 0,
            builds: false,
            index: false,
        },
    }
}

// ---- the refusals

// Has x a bit at `known` or above?
fn past(x: u64, known: u64) -> bool
    ensures { result ≡ leb (2 ^ known) x }
{
    known < 64 && 1 <= (x >> known)
}

// 20: "type 0 or above the edition's".
fn kind_unknown(k: Known, kind: u64) -> bool
    ensures { result ≡ (eqb kind 0 || ltb k.kinds kind) }
{
    (kind == 0) | (k.kinds < kind)
}

// 21: "sample type has a bit the edition doesn't know, and the record is a SAMPLE or sample_id_all is set".
fn sample_unknown(k: Known, kind: u64, a: Attributes) -> bool
    ensures { result ≡ (leb (2 ^ k.samples) a.sample && has_sample_bits kind a) }
{
    past(a.sample, k.samples) & ((kind == SAMPLE) | a.all)
}

// 22: "read format has bit 4 or higher, and the record is READ or a SAMPLE with bit 4 of the sample type"; M-110: "22
// starts at bit 5 for edition 4 alone".
fn format_unknown(k: Known, kind: u64, a: Attributes) -> bool
    ensures { result ≡ (leb (2 ^ k.formats) a.format && has_read_values kind a) }
{
    past(a.format, k.formats) & ((kind == READ) | ((kind == SAMPLE) & wire::has_bit(a.sample, 4)))
}

// 23: "MMAP2 with misc bit 14, edition below 3".
fn build_id_unknown(k: Known, kind: u64, misc: u64) -> bool
    ensures { result ≡ (has_build_id kind misc && not k.builds) }
{
    ((kind == MMAP2) & wire::has_bit(misc, 14)) & !k.builds
}

// 25 (M-102): "editions 1 and 2 refuse such a SAMPLE with 25; a SAMPLE with sample bit 11 and a branch bit from 19 up
// is 25 in every edition".
fn branch_unknown(k: Known, kind: u64, a: Attributes) -> bool
    ensures { result ≡ (has_branches kind a && strange_branch k a) }
{
    ((kind == SAMPLE) & wire::has_bit(a.sample, 11))
        & ((wire::has_bit(a.branch, 17) & !k.index) | past(a.branch, 19))
}

// 24: "SAMPLE with bits 14 and 24 both selected".
fn two_weights(kind: u64, a: Attributes) -> bool
    ensures { result ≡ (eqb kind 9 && (bit a.sample 14 && bit a.sample 24)) }
{
    (kind == SAMPLE) & (wire::has_bit(a.sample, 14) & wire::has_bit(a.sample, 24))
}

// The first of 20 to 23, 25 and 24 that holds, if one does.
#[tactic(auto, unfolding(meaning::specs::Editions::unreadable, meaning::specs::Refusals::first))]
pub fn unreadable(k: Known, a: Attributes, kind: u64, misc: u64) -> Result<(), Reason>
    ensures { answer_of result ≡ unreadable k a kind misc }
{
    if kind_unknown(k, kind) {
        return Err(Reason::UnknownType);
    }
    if sample_unknown(k, kind, a) {
        return Err(Reason::SampleBits);
    }
    if format_unknown(k, kind, a) {
        return Err(Reason::FormatBits);
    }
    if build_id_unknown(k, kind, misc) {
        return Err(Reason::BuildIdForm);
    }
    if branch_unknown(k, kind, a) {
        return Err(Reason::BranchBits);
    }
    if two_weights(kind, a) {
        return Err(Reason::TwoWeights);
    }
    Ok(())
}
