// The plain reader of a record's words, by the table's rows: its answer is record check's.
#![tactic(auto)]

ghost use Rattle.std.specs.Prelude.{◌≡◌};
ghost use Rattle.meaning.specs.Editions.{editions};
ghost use Rattle.meaning.specs.Reasons.{answer_of};
ghost use Rattle.meaning.specs.Values.{read};
ghost use Rattle.plain_read.specs.Read.{reading_of};
ghost use Rattle.record.specs.Into.{read_into_answer, read_into_words};

use meaning::{Attributes, Reason};

mod words;

// The reader of a record's bytes: the words, where record check (without its 44) refuses nothing.
pub fn read(r: &[u8], e: u64, a: Attributes) -> Result<[u64; fields::VALUE_WORDS], Reason>
    ensures { reading_of result ≡ read editions e a r.now }
{
    answers::check(r, e, a)?;
    Ok(words::of_record(r, a))
}

// The same into lent words: 40 if there are fewer than 56; refused: unchanged; accepted: the first 56, the rest
// unchanged.
pub fn read_into(r: &[u8], e: u64, a: Attributes, words: &mut [u64]) -> Result<(), Reason>
    ensures value { answer_of result ≡ read_into_answer editions e a r.now words.old }
    ensures words_after { words.new ≡ read_into_words editions e a r.now words.old }
{
    answers::check(r, e, a)?;
    if words.len() < fields::VALUE_WORDS {
        return Err(Reason::NoRoom);
    }
    let filled = words::of_record(r, a);
    words[..fields::VALUE_WORDS].copy_from_slice(&filled);
    Ok(())
}
