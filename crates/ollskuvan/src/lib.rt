// What C calls: numbers and byte slices in, numbers out. Each entry is thin and has the whole contract of what it calls; the
// numbers of 32 bits are not narrowed, so edition 257 is no edition and any sample_id_all but 0 is set.
#![tactic(auto)]

ghost use Rattle.std.specs.Prelude.{◌≡◌, length};
ghost use Rattle.meaning.specs.Editions.{editions};
ghost use Rattle.meaning.specs.Misc.{misc_meaning};
ghost use Rattle.meaning.specs.Records.{record_check};
ghost use Rattle.meaning.specs.Ring.{one_scratch};
ghost use Rattle.meaning.specs.Names.{name_answer, name_buffer};
ghost use Rattle.record.specs.Into.{read_into_answer, read_into_words};
ghost use Rattle.one.specs.Told.{one_told, one_words};
ghost use Rattle.readers.specs.Readers.{published, readers_at};
ghost use Rattle.writer.specs.Writer.{write_words_answer, write_words_buffer};
ghost use Rattle.given.specs.Given.{given};

use one::OneTold;
use readers::{Published, Readers};

// One record, from a tail to its words: `fields` are the caller's 56 or more.
#[unsafe(no_mangle)]
pub extern "C" fn ollskuvan_read_one(
    ring: &[u8],
    head: u64,
    tail: u64,
    sample: u64,
    format: u64,
    all: u32,
    user: u64,
    interrupt: u64,
    branch: u64,
    edition: u32,
    scratch: &mut [u8],
    fields: &mut [u64],
) -> OneTold
    ensures value { result ≡ one_told editions edition (given sample format all user interrupt branch) ring.now head tail scratch.old fields.old }
    ensures scratch_after { scratch.new ≡ one_scratch editions edition ring.now head tail scratch.old }
    ensures fields_after { fields.new ≡ one_words editions edition (given sample format all user interrupt branch) ring.now head tail scratch.old fields.old }
{
    let a = given::attributes(sample, format, all, user, interrupt, branch);
    let e = edition as u64;
    one::read_one_into(ring, head, tail, e, a, scratch, fields)
}

// The parameter is not named `record`, which is a word of the proofs' language.
#[unsafe(no_mangle)]
pub extern "C" fn ollskuvan_check(
    bytes: &[u8],
    sample: u64,
    format: u64,
    all: u32,
    user: u64,
    interrupt: u64,
    branch: u64,
    edition: u32,
) -> u32
    ensures { result ≡ record_check editions edition (given sample format all user interrupt branch) bytes.now }
{
    let a = given::attributes(sample, format, all, user, interrupt, branch);
    let e = edition as u64;
    let answer = fast_check::check(bytes, e, a);
    meaning::answer_number(record::or_dirty(answer, bytes, a)) as u32
}

// What a record's misc means, by its type: the CPU mode, and bits 13 and 14. The type is the whole word of the header.
#[unsafe(no_mangle)]
pub extern "C" fn ollskuvan_misc_meaning(kind: u64, misc: u64) -> u32
    ensures { result ≡ misc_meaning kind misc }
{
    misc::meaning_of(kind, misc)
}

#[unsafe(no_mangle)]
pub extern "C" fn ollskuvan_copy_name(
    bytes: &[u8],
    place: u64,
    count: u64,
    buffer: &mut [u8],
) -> u32
    ensures value { result ≡ name_answer bytes.now place count buffer.old }
    ensures buffer_after { buffer.new ≡ name_buffer bytes.now place count buffer.old }
{
    meaning::answer_number(names::copy_name(bytes, place, count, buffer)) as u32
}

// `words` are the caller's 56 or more: as record check answers, but for 44, where it is 0; then 40 if there are fewer.
#[unsafe(no_mangle)]
pub extern "C" fn ollskuvan_read(
    bytes: &[u8],
    sample: u64,
    format: u64,
    all: u32,
    user: u64,
    interrupt: u64,
    branch: u64,
    edition: u32,
    words: &mut [u64],
) -> u32
    ensures value { result ≡ read_into_answer editions edition (given sample format all user interrupt branch) bytes.now words.old }
    ensures words_after { words.new ≡ read_into_words editions edition (given sample format all user interrupt branch) bytes.now words.old }
{
    let a = given::attributes(sample, format, all, user, interrupt, branch);
    let e = edition as u64;
    meaning::answer_number(fast_read::read_into(bytes, e, a, words)) as u32
}

// The writer's answer: after 2, 42 also for fewer than 56 words.
#[unsafe(no_mangle)]
pub extern "C" fn ollskuvan_write(
    words: &[u64],
    source: &[u8],
    sample: u64,
    format: u64,
    all: u32,
    user: u64,
    interrupt: u64,
    branch: u64,
    edition: u32,
    buffer: &mut [u8],
) -> u32
    ensures value { result ≡ write_words_answer edition (given sample format all user interrupt branch) source.now words.now (length buffer.old) }
    ensures buffer_after { buffer.new ≡ write_words_buffer edition (given sample format all user interrupt branch) source.now words.now buffer.old }
{
    let a = given::attributes(sample, format, all, user, interrupt, branch);
    let e = edition as u64;
    meaning::answer_number(fast_writer::write(words, source, e, a, buffer)) as u32
}

// Two readers of one ring, each with its own tail: the tail for the kernel.
#[unsafe(no_mangle)]
pub extern "C" fn ollskuvan_publish(len: u64, head: u64, first: u64, second: u64) -> Published
    ensures { result ≡ published len head (readers_at first second) }
{
    Readers::new(first, second).publish(len, head)
}
