// The reader of one record into lent words once more, for speed: the answer by the exact judge, then every word
// straight into its place. What a caller sees is the same as by the plain walk.
#![tactic(auto)]

ghost use Rattle.std.specs.Prelude.{◌≡◌, ◌+◌, ◌-◌, length};
ghost use Rattle.meaning.specs.Bytes.{put};
ghost use Rattle.meaning.specs.Reasons.{answer_of};
ghost use Rattle.meaning.specs.Schema.{schema, trailer};
ghost use Rattle.meaning.specs.Editions.{editions};
ghost use Rattle.meaning.specs.Records.{kind_of, misc_of, room};
ghost use Rattle.meaning.specs.Values.{width, body_words, value_words, flag_words, words_by};
ghost use Rattle.record.specs.Into.{Accepted, record_flag, read_into_answer, read_into_words};

use meaning::{Attributes, Reason};
use reader::Header;

// The flag's word after those of the fields, which end where the trailer starts; a type that has no name has none. Rule
// 33 has found the name's zero among the last eight bytes before the trailer, so only those are looked at.
// kept: record::flag::set says the same (a: the edit flag_of_seven_bytes is of this line); here the trailer's start is
// at hand.
fn set_flag(r: &[u8], end: usize, kind: u64, misc: u64, a: Attributes, out: &mut [u64])
    requires { Accepted a r.now kind × (end ≡ length r.now - room (trailer kind a)) × (length out.old ≡ value_words) }
    ensures { out.new ≡ put out.old (body_words + width (schema kind misc a)) (flag_words (schema kind misc a) (record_flag a r.now)) }
{
    if let Some(at) = table::flag_at(kind) {
        out[at] = u64::from(record::stale_from(&r[..end], end - 8));
    }
}

// "An unselected field is zero or empty in the value": every word is 0 before those that are told. Type, misc and size;
// the words of the fields from 3 on, then the flag where the type has a name; those of the trailer from 48 on.
fn fill(r: &[u8], a: Attributes, out: &mut [u64])
    requires { Accepted a r.now (kind_of r.now) × (length out.old ≡ value_words) }
    ensures { out.new ≡ words_by (schema (kind_of r.now) (misc_of r.now) a) (trailer (kind_of r.now) a) r.now }
{
    out.fill(0);
    let Header { kind, misc, size } = reader::whole_header(r);
    out[0] = kind;
    out[1] = misc;
    out[2] = size;
    let end = r.len() - answers::trailer_room(kind, a);
    chains::fields(&r[..end], kind, misc, a, answers::origin(8), out);
    set_flag(r, end, kind, misc, a, out);
    chains::trail(r, kind, a, answers::origin(end), out);
}

// The answer of record check, without 44; 40 if there are fewer than 56 words; refused: unchanged; accepted: the first
// 56, the rest unchanged.
pub fn read_into(r: &[u8], e: u64, a: Attributes, words: &mut [u64]) -> Result<(), Reason>
    ensures value { answer_of result ≡ read_into_answer editions e a r.now words.old }
    ensures words_after { words.new ≡ read_into_words editions e a r.now words.old }
{
    fast_check::check(r, e, a)?;
    if words.len() < fields::VALUE_WORDS {
        return Err(Reason::NoRoom);
    }
    fill(r, a, &mut words[..fields::VALUE_WORDS]);
    Ok(())
}
