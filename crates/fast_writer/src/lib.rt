// Values to bytes once more, for speed: a call for each item of the type instead of a walk over the table. One pass
// tests and measures, and only when all fits and there is room does a second one write. What a caller sees is the same
// as by the plain walk, which is asked where a value is refused: it tells 41 from 42.
#![tactic(auto)]

ghost use Rattle.std.specs.Prelude.{◌≡◌, false, cond, ◌≤◌, ◌<◌, length, get_or, unwrap_or, IfSome};
ghost use Rattle.meaning.specs.Bytes.{all_zero, put};
ghost use Rattle.meaning.specs.Reasons.{answer_of, number_of};
ghost use Rattle.meaning.specs.Schema.{schema, trailer};
ghost use Rattle.meaning.specs.Values.{spare_by, value_words};
ghost use Rattle.write_fits.specs.Steps.{walked};
ghost use Rattle.writer_record.specs.Measures.{Inside, size_meant, bytes_meant};
ghost use Rattle.writer.specs.Known.{passes};
ghost use Rattle.writer.specs.Writer.{write_words_answer, write_words_buffer};

use meaning::{Attributes, Reason};
use write_fits::Walked;
use writer::Pen;

// Before the first item of a part: nothing is remembered.
fn begin_at(at: usize) -> Walked
    ensures { result ≡ walked at 0 0 0 0 false }
{
    Walked {
        at,
        n: 0,
        old: 0,
        told: 0,
        before: 0,
        bad: false,
    }
}

// Every word is looked at, whatever the others are: the compiler takes several at once.
// kept: `all` in place of the loop ends at the first word that is not 0, one word at a time (d).
fn all_zero(ws: &[u64]) -> bool
    ensures { result ≡ all_zero ws.now }
{
    let mut zero = true;
    for &word in ws {
        zero &= word == 0;
    }
    zero
}

// Every word that the type does not have is 0: the trailer has seven words, and one is kept free.
fn spare_zero(ws: &[u64], kind: u64, misc: u64, a: Attributes) -> bool
    requires { value_words ≤ length ws.now }
    ensures { result ≡ all_zero (spare_by (schema kind misc a) (trailer kind a) ws.now) }
{
    let own = fit_chains::own_end(kind, misc, a);
    let between = all_zero(&ws[own..writer_words::TRAIL_WORDS]);
    between & all_zero(&ws[writer_words::FREE_WORD..writer_words::VALUE_WORDS])
}

// The size of the record that the words tell; there is none where they tell none or pass the source's end.
fn measure(ws: &[u64], source: &[u8], a: Attributes, kind: u64, misc: u64) -> Option<usize>
    requires { (kind ≡ get_or ws.now 0 0) × (misc ≡ get_or ws.now 1 0) × (value_words ≤ length ws.now) }
    ensures value { unwrap_or result 0 ≡ cond (passes source.now ws.now a kind misc) 0 (size_meant source.now ws.now a kind misc) }
    ensures some { IfSome result (λ size. 0 < size) }
{
    let c = fit_chains::fields(ws, source, kind, misc, a, begin_at(8));
    if c.bad {
        return None;
    }
    let d = fit_chains::trail(ws, source, kind, a, begin_at(c.at));
    if d.bad {
        return None;
    }
    let size = ws[2];
    let header = (kind <= u32::MAX as u64) & (misc <= u16::MAX as u64);
    let whole = (size as usize == d.at) & (size % 8 == 0);
    if (header & whole) & spare_zero(ws, kind, misc, a) {
        Some(d.at)
    } else {
        None
    }
}

// A record of `end` bytes, as it was measured.
fn put_record(
    ws: &[u64],
    source: &[u8],
    a: Attributes,
    kind: u64,
    misc: u64,
    end: usize,
    buffer: &mut [u8],
)
    requires { (end ≡ size_meant source.now ws.now a kind misc) × (0 < end) × (end ≤ length buffer.old) × Inside source.now ws.now a kind misc × (value_words ≤ length ws.now) }
    ensures { buffer.new ≡ put buffer.old 0 (bytes_meant source.now ws.now a kind misc) }
{
    write_puts::header(kind, misc, ws[2], buffer);
    let d = put_chains::fields(ws, source, kind, misc, a, begin_at(8), buffer);
    put_chains::trail(ws, source, kind, a, begin_at(d.at), buffer);
}

// Nothing was measured: 41 or 42, as the plain walk says.
#[cold]
#[inline(never)]
fn refused(ws: &[u64], source: &[u8], a: Attributes, kind: u64, misc: u64) -> Reason
    ensures { number_of result ≡ cond (passes source.now ws.now a kind misc) 41 42 }
{
    let b = writer_parts::body(a, kind, misc);
    let words = writer_words::start_at(writer_words::BODY_WORDS);
    if writer_parts::any_beyond(ws, source, b, words) {
        return Reason::OutsideSource;
    }
    Reason::NoSuchRecord
}

// By the passes over the type's items: one tests and measures, and only when all fits and there is room does a second
// one put bytes.
struct Straight;

impl Pen for Straight {
    fn write_known(
        ws: &[u64],
        source: &[u8],
        a: Attributes,
        kind: u64,
        misc: u64,
        buffer: &mut [u8],
    ) -> Result<(), Reason> {
        let Some(end) = measure(ws, source, a, kind, misc) else {
            return Err(refused(ws, source, a, kind, misc));
        };
        if buffer.len() < end {
            return Err(Reason::NoRoom);
        }
        put_record(ws, source, a, kind, misc, end, buffer);
        Ok(())
    }
}

// As the plain writer answers, in the same order.
pub fn write(
    words: &[u64],
    source: &[u8],
    e: u64,
    a: Attributes,
    buffer: &mut [u8],
) -> Result<(), Reason>
    ensures value { answer_of result ≡ write_words_answer e a source.now words.now (length buffer.old) }
    ensures buffer_after { buffer.new ≡ write_words_buffer e a source.now words.now buffer.old }
{
    writer::write_by::<Straight>(words, source, e, a, buffer)
}
