// "Two lent slices go in; the record comes back as a part of whichever holds it whole, status beside it": the struct
// that holds the part and the status. Both functions are thin: `ring::shown` finds the part, `fast_read::read_into`
// reads it.
#![tactic(auto)]

ghost use Rattle.std.specs.Prelude.{◌≡◌};
ghost use Rattle.meaning.specs.Editions.{editions};
ghost use Rattle.meaning.specs.Reasons.{answer_of, frame_of};
ghost use Rattle.meaning.specs.Ring.{shown};
ghost use Rattle.record.specs.Into.{read_into_answer, read_into_words};
ghost use Rattle.ring.specs.Part.{shown_from};

use meaning::{Attributes, Found, Reason};

// The part of the slice that holds the record whole; and the next record itself, or why there is none.
#[derive(Clone, Copy)]
pub struct Shown<'a> {
    pub part: &'a [u8],
    pub next: Result<Option<Found>, Reason>,
}

// ---- thin

// A stop shows an empty part of the ring.
pub fn show<'a>(ring: &'a [u8], scratch: &'a [u8], next: Result<Option<Found>, Reason>) -> Shown<'a>
    ensures { (result.part.now ≡ shown ring.now scratch.now (frame_of next))
        × ((result.part.ref_ptr ≡ shown_from ring.now scratch.now (frame_of next) ring.entry.ref_ptr scratch.entry.ref_ptr)
        × ((result.next ≡ next) × ((frame_of result.next).stop ≡ (frame_of next).stop))) }
{
    Shown {
        part: ring::shown(ring, scratch, next),
        next,
    }
}

// Plain parameters again: whoever calls this sees the slices and the answer alone.
pub fn read_shown<'a>(
    ring: &'a [u8],
    scratch: &'a [u8],
    next: Result<Option<Found>, Reason>,
    e: u64,
    a: Attributes,
    words: &mut [u64],
) -> Result<(), Reason>
    ensures { (answer_of result ≡ read_into_answer editions e a (shown ring.now scratch.now (frame_of next)) words.old)
        × (words.new ≡ read_into_words editions e a (shown ring.now scratch.now (frame_of next)) words.old) }
{
    let s = show(ring, scratch, next);
    fast_read::read_into(s.part, e, a, words)
}
