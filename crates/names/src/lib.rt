// A name copied out of a record into a lent buffer, with a zero after it.
#![tactic(auto)]

ghost use Rattle.std.specs.Prelude.{◌≡◌};
ghost use Rattle.meaning.specs.Names.{name_answer, name_buffer};
ghost use Rattle.meaning.specs.Reasons.{answer_of};

use meaning::Reason;

// "Name copy, in this order: 41 if place plus count, as plain numbers, passes the record's end; 12 if the name and one
// zero don't fit the buffer. Refused: buffer unchanged. Accepted: name, zero, the rest unchanged."
// The code asks after the place, and then after what is left of the record, where the definition adds: place + count
// can pass the largest u64. The parameter is not named `record`, which is a word of the proofs' language.
pub fn copy_name(bytes: &[u8], place: u64, count: u64, buffer: &mut [u8]) -> Result<(), Reason>
    ensures value { answer_of result ≡ name_answer bytes.now place count buffer.old }
    ensures buffer_after { buffer.new ≡ name_buffer bytes.now place count buffer.old }
{
    let p = place as usize;
    let n = count as usize;
    if bytes.len() < p {
        return Err(Reason::OutsideSource);
    }
    if bytes.len() - p < n {
        return Err(Reason::OutsideSource);
    }
    if buffer.len() <= n {
        return Err(Reason::NameRoom);
    }
    wire::copy_at(&bytes[p..p + n], buffer, 0);
    buffer[n] = 0;
    Ok(())
}
