// The library for C: one record, its name, its words, what misc means, the tail for the kernel. Each export has the whole contract of the function that it calls.
#![tactic(auto)]

ghost use Rattle.std.specs.Prelude.{◌≡◌, length};
ghost use Rattle.meaning.specs.Editions.{editions};
ghost use Rattle.meaning.specs.Misc.{misc_meaning};
ghost use Rattle.meaning.specs.Records.{record_check};
ghost use Rattle.meaning.specs.Ring.{one_scratch};
ghost use Rattle.meaning.specs.Names.{name_answer, name_buffer};
ghost use Rattle.record.specs.Into.{read_into_answer, read_into_words};
ghost use Rattle.one.specs.Told.{one_told, one_words};
ghost use Rattle.readers.specs.Readers.{published, readers_at};
ghost use Rattle.writer.specs.Writer.{write_words_answer, write_words_buffer};
ghost use Rattle.given.specs.Given.{given};

use one::OneTold;
use readers::Published;

#[unsafe(no_mangle)]
pub extern "C" fn ollskuvan_read_one(
    ring: &[u8],
    head: u64,
    tail: u64,
    sample: u64,
    format: u64,
    all: u32,
    user: u64,
    interrupt: u64,
    branch: u64,
    edition: u32,
    scratch: &mut [u8],
    fields: &mut [u64],
) -> OneTold
    ensures value { result ≡ one_told editions edition (given sample format all user interrupt branch) ring.now head tail scratch.old fields.old }
    ensures scratch_after { scratch.new ≡ one_scratch editions edition ring.now head tail scratch.old }
    ensures fields_after { fields.new ≡ one_words editions edition (given sample format all user interrupt branch) ring.now head tail scratch.old fields.old }
{
    ollskuvan::ollskuvan_read_one(
        ring, head, tail, sample, format, all, user, interrupt, branch, edition, scratch, fields,
    )
}

#[unsafe(no_mangle)]
pub extern "C" fn ollskuvan_check(
    bytes: &[u8],
    sample: u64,
    format: u64,
    all: u32,
    user: u64,
    interrupt: u64,
    branch: u64,
    edition: u32,
) -> u32
    ensures { result ≡ record_check editions edition (given sample format all user interrupt branch) bytes.now }
{
    ollskuvan::ollskuvan_check(bytes, sample, format, all, user, interrupt, branch, edition)
}

#[unsafe(no_mangle)]
pub extern "C" fn ollskuvan_misc_meaning(kind: u64, misc: u64) -> u32
    ensures { result ≡ misc_meaning kind misc }
{
    ollskuvan::ollskuvan_misc_meaning(kind, misc)
}

#[unsafe(no_mangle)]
pub extern "C" fn ollskuvan_copy_name(
    bytes: &[u8],
    place: u64,
    count: u64,
    buffer: &mut [u8],
) -> u32
    ensures value { result ≡ name_answer bytes.now place count buffer.old }
    ensures buffer_after { buffer.new ≡ name_buffer bytes.now place count buffer.old }
{
    ollskuvan::ollskuvan_copy_name(bytes, place, count, buffer)
}

#[unsafe(no_mangle)]
pub extern "C" fn ollskuvan_read(
    bytes: &[u8],
    sample: u64,
    format: u64,
    all: u32,
    user: u64,
    interrupt: u64,
    branch: u64,
    edition: u32,
    words: &mut [u64],
) -> u32
    ensures value { result ≡ read_into_answer editions edition (given sample format all user interrupt branch) bytes.now words.old }
    ensures words_after { words.new ≡ read_into_words editions edition (given sample format all user interrupt branch) bytes.now words.old }
{
    ollskuvan::ollskuvan_read(
        bytes, sample, format, all, user, interrupt, branch, edition, words,
    )
}

#[unsafe(no_mangle)]
pub extern "C" fn ollskuvan_write(
    words: &[u64],
    source: &[u8],
    sample: u64,
    format: u64,
    all: u32,
    user: u64,
    interrupt: u64,
    branch: u64,
    edition: u32,
    buffer: &mut [u8],
) -> u32
    ensures value { result ≡ write_words_answer edition (given sample format all user interrupt branch) source.now words.now (length buffer.old) }
    ensures buffer_after { buffer.new ≡ write_words_buffer edition (given sample format all user interrupt branch) source.now words.now buffer.old }
{
    ollskuvan::ollskuvan_write(
        words, source, sample, format, all, user, interrupt, branch, edition, buffer,
    )
}

#[unsafe(no_mangle)]
pub extern "C" fn ollskuvan_publish(len: u64, head: u64, first: u64, second: u64) -> Published
    ensures { result ≡ published len head (readers_at first second) }
{
    ollskuvan::ollskuvan_publish(len, head, first, second)
}
