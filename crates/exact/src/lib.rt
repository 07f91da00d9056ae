// The exact answer for a record's fields, by kind of layout: a name after fields of one width, lists that the record
// counts; a SAMPLE is judged by crate exact_sample. Each is given what the attributes fix, as sums; none walks a list
// of items.
#![tactic(auto)]

ghost use Rattle.std.specs.Prelude.{◌≡◌};
ghost use Rattle.meaning.specs.Reasons.{answer_of};
ghost use Rattle.blocks.specs.Seen.{closed_at, place_of};
ghost use Rattle.blocks.specs.Steady.{sizes};

use meaning::Reason;

pub mod types;

// The places of the sums in their table: the trailer; a SAMPLE's first fields, with its read values where they are no
// group; its last fields, where they are of one width; its user registers; weight to transaction; physical address to
// code page size; interrupt registers; the words of a group before its elements.
// kept: places in an array, and no fields of a struct: sums_of, of which the theorems speak, is the list of them, and a
// slot packs them in this order.
pub const TRAIL: usize = 0;

pub const FIRST: usize = 1;

pub const LAST: usize = 2;

pub const USER: usize = 3;

pub const EARLY: usize = 4;

pub const AFTER: usize = 5;

pub const INTERRUPT: usize = 6;

pub const GROUP: usize = 7;

// "31: bytes left over after the last field", if nothing was refused before.
pub fn ended(end: usize, place: Result<usize, Reason>) -> Result<(), Reason>
    ensures { answer_of result ≡ closed_at end (place_of place) }
{
    let at = place?;
    if at == end {
        Ok(())
    } else {
        Err(Reason::LeftOver)
    }
}

// Exactly `want` bytes are wanted: fewer are 30, more 31.
pub fn sized(left: usize, want: usize) -> Result<(), Reason>
    ensures { answer_of result ≡ sizes left want }
{
    if left == want {
        return Ok(());
    }
    if left < want {
        return Err(Reason::TooShort);
    }
    Err(Reason::LeftOver)
}
