// Values to bytes: the words of a value and a lent source of bytes, written as a record into a lent buffer. It goes by
// the items of the type's layout: two loops test, and only when all fits and there is room does a third one write.
#![tactic(auto)]

ghost use Rattle.std.specs.Prelude.{◌≡◌, ◌≤◌, true, length, get_or};
ghost use Rattle.meaning.specs.Editions.{editions, allowed};
ghost use Rattle.meaning.specs.Reasons.{answer_of};
ghost use Rattle.meaning.specs.Values.{write_answer, write_buffer, value_words};
ghost use Rattle.writer.specs.Known.{flag_set, known_answer, known_buffer};
ghost use Rattle.writer.specs.Writer.{write_words_answer, write_words_buffer};

use meaning::{Attributes, Reason};

// How the record of a type that the edition knows is written: "41 ..; 42 ..; 40 if the record doesn't fit the buffer.
// Refused: buffer unchanged. Accepted: the record, the rest unchanged." What stands before it is the same for each way.
pub trait Pen {
    fn write_known(
        ws: &[u64],
        source: &[u8],
        a: Attributes,
        kind: u64,
        misc: u64,
        buffer: &mut [u8],
    ) -> Result<(), Reason>
        requires { (kind ≡ get_or ws.now 0 0) × (misc ≡ get_or ws.now 1 0) × (value_words ≤ length ws.now) }
        ensures value { answer_of result ≡ known_answer source.now ws.now a kind misc (length buffer.old) }
        ensures buffer_after { buffer.new ≡ known_buffer source.now ws.now a kind misc buffer.old };
}

// By the rows of the table: two walks test, and only when all fits and there is room does a third one write.
pub struct Plain;

impl Pen for Plain {
    fn write_known(
        ws: &[u64],
        source: &[u8],
        a: Attributes,
        kind: u64,
        misc: u64,
        buffer: &mut [u8],
    ) -> Result<(), Reason> {
        let b = writer_parts::body(a, kind, misc);
        let first = writer_words::start_at(writer_words::BODY_WORDS);
        if writer_parts::any_beyond(ws, source, b, first) {
            return Err(Reason::OutsideSource);
        }
        let Some(end) = writer_record::measure(ws, source, a, kind, misc) else {
            return Err(Reason::NoSuchRecord);
        };
        if buffer.len() < end {
            return Err(Reason::NoRoom);
        }
        writer_record::put_record(ws, source, a, kind, misc, end, buffer);
        Ok(())
    }
}

// "The writer refuses a value with the flag set with 43" (M-107): the flag's word, of a type that has a name, is not 0.
fn flag_set(ws: &[u64], kind: u64) -> bool
    ensures { result ≡ flag_set kind ws.now }
{
    match table::flag_at(kind) {
        Some(at) => writer_words::word(ws, at) != 0,
        None => false,
    }
}

// "Writer, in this order: 2; 20 to 24; 41 ..; 42 ..; 40", with 25 between 23 and 24 (M-102) and 43 "after 24 and before
// 41": from 20 on.
fn write_value<P: Pen>(
    ws: &[u64],
    source: &[u8],
    e: u64,
    a: Attributes,
    buffer: &mut [u8],
) -> Result<(), Reason>
    requires { (allowed editions e ≡ true) × (value_words ≤ length ws.now) }
    ensures value { answer_of result ≡ write_answer editions e a source.now ws.now (length buffer.old) }
    ensures buffer_after { buffer.new ≡ write_buffer editions e a source.now ws.now buffer.old }
{
    let kind = writer_words::word(ws, 0);
    let misc = writer_words::word(ws, 1);
    record::unreadable(record::edition(e), a, kind, misc)?;
    if flag_set(ws, kind) {
        return Err(Reason::FlagSet);
    }
    P::write_known(ws, source, a, kind, misc, buffer)
}

// The words of a value are OLLSKUVAN_FIELDS, 56. Fewer are 42, after 2: there is no value whose type could be asked.
// What stands after them is not looked at.
pub fn write_by<P: Pen>(
    words: &[u64],
    source: &[u8],
    e: u64,
    a: Attributes,
    buffer: &mut [u8],
) -> Result<(), Reason>
    ensures value { answer_of result ≡ write_words_answer e a source.now words.now (length buffer.old) }
    ensures buffer_after { buffer.new ≡ write_words_buffer e a source.now words.now buffer.old }
{
    if !record::allowed(e) {
        return Err(Reason::UnknownEdition);
    }
    if words.len() < writer_words::VALUE_WORDS {
        return Err(Reason::NoSuchRecord);
    }
    write_value::<P>(&words[..writer_words::VALUE_WORDS], source, e, a, buffer)
}

pub fn write(
    words: &[u64],
    source: &[u8],
    e: u64,
    a: Attributes,
    buffer: &mut [u8],
) -> Result<(), Reason>
    ensures value { answer_of result ≡ write_words_answer e a source.now words.now (length buffer.old) }
    ensures buffer_after { buffer.new ≡ write_words_buffer e a source.now words.now buffer.old }
{
    write_by::<Plain>(words, source, e, a, buffer)
}
