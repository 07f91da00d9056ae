// The reader of one record: the chain of stops with a budget of one and no journal; then the record, gathered where it
// goes round the ring's end, is read.
#![tactic(auto)]

ghost use Rattle.std.specs.Prelude.{◌≡◌, length};
ghost use Rattle.meaning.specs.Editions.{editions};
ghost use Rattle.meaning.specs.Reasons.{answer_of, frame_of};
ghost use Rattle.meaning.specs.Ring.{asking_with, frame, read_one, one_scratch};
ghost use Rattle.one.specs.Told.{gathered, judged_taken, one_of, one_told, one_words, stopped};

use meaning::{Attributes, Found, Judged, Reason};

// What C is told of one record. A stop: place, size, in_scratch and answer 0, the tail as given. Taken: place and size
// of the part shown, in the ring or (in_scratch 1) in the scratch, the tail moved by the size, and the record's answer.
// kept: (a) numbers for refusals and a flag beside the place, as C is told them
#[repr(C)]
#[derive(Clone, Copy, Debug, PartialEq, Eq)]
pub struct OneTold {
    pub place: u64,
    pub size: u64,
    pub tail: u64,
    pub in_scratch: u32,
    pub stop: u32,
    pub answer: u32,
    pub inspected: u32,
}

// A record that was taken: where it lies, the tail after it, and its words, or why its body is refused.
#[derive(Clone, Copy, Debug, PartialEq, Eq)]
pub struct One {
    pub found: Found,
    pub tail: u64,
    pub value: Result<[u64; 56], Reason>,
}

// ---- for any reader of one record: the frame and what C is told of it

// The next record, asked with a budget of one and, as there is no journal, 16 bytes of room; gathered where it goes
// round the ring's end. `ok` and `table` are ring::next_frame's.
pub fn next_one(
    ok: bool,
    table: bool,
    ring: &[u8],
    head: u64,
    tail: u64,
    scratch: &mut [u8],
) -> Result<Option<Found>, Reason>
    ensures value { frame_of result ≡ frame (asking_with ok table) ring.now head tail 1 16 (length scratch.old) }
    ensures scratch_after { scratch.new ≡ gathered ring.now scratch.old (frame_of result) }
{
    let next = ring::next_frame(ok, table, ring, head, tail, 1, 16, scratch.len())?;
    if let Some(found) = next {
        ring::gather(ring, found.place, found.size, scratch);
    }
    Ok(next)
}

// No record: at the head (0), or a row that stops the reader.
pub fn told_stop(stop: Result<(), Reason>, tail: u64) -> OneTold
    ensures { result ≡ stopped (answer_of stop) tail }
{
    OneTold {
        place: 0,
        size: 0,
        tail,
        in_scratch: 0,
        stop: meaning::answer_number(stop) as u32,
        answer: 0,
        inspected: 0,
    }
}

// A record that was taken: where it is shown, the tail moved by its size, its answer and the number of events
// inspected.
pub fn told_taken(ring: &[u8], found: Found, tail: u64, judged: Judged) -> OneTold
    ensures { result ≡ judged_taken ring.now found tail judged }
{
    let (place, in_scratch) = if ring::lies_whole(ring, found.place, found.size) {
        (found.place as u64, 0)
    } else {
        (0, 1)
    };
    // kept: a struct of the C interface; `Judged` is another
    OneTold {
        place,
        size: found.size as u64,
        tail: tail.wrapping_add(found.size as u64),
        in_scratch,
        stop: 0,
        answer: judged.answer,
        inspected: judged.inspected,
    }
}

// ---- the readers

// The reader of one record: a record that is taken moves the tail by its size, also where its body is refused; it then
// has its number and no value.
pub fn read_one(
    ring: &[u8],
    head: u64,
    tail: u64,
    e: u64,
    a: Attributes,
    scratch: &mut [u8],
) -> Result<Option<One>, Reason>
    ensures value { one_of tail result ≡ read_one editions e a ring.now head tail scratch.old }
    ensures scratch_after { scratch.new ≡ one_scratch editions e ring.now head tail scratch.old }
{
    let next = next_one(record::allowed(e), true, ring, head, tail, scratch)?;
    let Some(found) = next else {
        return Ok(None);
    };
    let value = plain_read::read(ring::record_shown(ring, scratch, found), e, a);
    Ok(Some(One {
        found,
        tail: tail.wrapping_add(found.size as u64),
        value,
    }))
}

// The same into lent words: the record's answer as record check's from 20 on, then 40 if there are fewer than 56 words;
// the record is shown and the tail moved all the same. Refused or stopped: the words are unchanged.
pub fn read_one_into(
    ring: &[u8],
    head: u64,
    tail: u64,
    e: u64,
    a: Attributes,
    scratch: &mut [u8],
    words: &mut [u64],
) -> OneTold
    ensures value { result ≡ one_told editions e a ring.now head tail scratch.old words.old }
    ensures scratch_after { scratch.new ≡ one_scratch editions e ring.now head tail scratch.old }
    ensures words_after { words.new ≡ one_words editions e a ring.now head tail scratch.old words.old }
{
    let next = match next_one(record::allowed(e), true, ring, head, tail, scratch) {
        Ok(next) => next,
        Err(reason) => return told_stop(Err(reason), tail),
    };
    let Some(found) = next else {
        return told_stop(Ok(()), tail);
    };
    let answer = shown::read_shown(ring, scratch, Ok(Some(found)), e, a, words);
    let judged = Judged {
        answer: meaning::answer_number(answer) as u32,
        inspected: 0,
    };
    told_taken(ring, found, tail, judged)
}
