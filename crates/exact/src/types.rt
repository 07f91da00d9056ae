// The other types whose bytes decide: a name after fields of one width, the build-id form of MMAP2, lists that the
// record counts.
ghost use Rattle.std.specs.Prelude.{◌≡◌, true, ◌-◌, ◌%◌, ◌≤◌, ◌<◌, length};
ghost use Rattle.meaning.specs.Schema.{mmap2};
ghost use Rattle.meaning.specs.Reasons.{answer_of};
ghost use Rattle.blocks.specs.Seen.{size_bound, Closes};
ghost use Rattle.exact.specs.Types.{name_answer, namespaces, group_read, text_poke};
ghost use Rattle.exact.specs.Stretches.{group_fixed};

use meaning::Reason;

// A record's bytes up to its trailer: whole words with a header, below 65,536 bytes.
#[derive(Clone, Copy)]
pub struct Body<'a> {
    pub bytes: &'a [u8],
    pub ghost headed: { 8 ≤ length bytes.now },
    pub ghost bounded: { length bytes.now < size_bound },
    pub ghost words: { length bytes.now % 8 ≡ 0 },
}

// A name that starts at `from`: 30 where the fields before it are not there, 33 by its own rule.
pub fn named(f: Body, from: usize) -> Result<(), Reason>
    requires { from % 8 ≡ 0 }
    ensures { answer_of result ≡ name_answer f.entry.bytes.now from }
{
    if f.bytes.len() < from {
        return Err(Reason::TooShort);
    }
    if blocks::scan::name_ok(f.bytes, from) {
        Ok(())
    } else {
        Err(Reason::NameZero)
    }
}

// MMAP2 with a build id: 32 where it has more than 20 bytes. Lengths are multiples of 8, so what is shorter than 48 has
// no size byte.
pub fn built(f: Body) -> Result<(), Reason>
    ensures { Closes f.entry.bytes.now (mmap2 true) 8 (answer_of result) }
{
    if f.bytes.len() < 48 {
        return Err(Reason::TooShort);
    }
    if 20 < wire::u8_at(f.bytes, 40) {
        return Err(Reason::InnerRule);
    }
    named(f, 72)
}

// NAMESPACES: entries of 16 bytes, counted at 16.
pub fn namespaces(f: Body) -> Result<(), Reason>
    ensures { Closes f.entry.bytes.now namespaces 8 (answer_of result) }
{
    if f.bytes.len() < 16 {
        return Err(Reason::TooShort);
    }
    crate::ended(f.bytes.len(), blocks::elements(f.bytes, 16, 8, 16))
}

// READ of a group: entries of 8, 16 or 24 bytes, counted at 16; the times stand between.
pub fn group_read(f: Body, format: u64, fixed: usize) -> Result<(), Reason>
    requires { fixed ≡ group_fixed format }
    ensures { Closes f.entry.bytes.now (group_read format) 8 (answer_of result) }
{
    if f.bytes.len() < 16 {
        return Err(Reason::TooShort);
    }
    let unit = layouts::group_bytes(format);
    crate::ended(f.bytes.len(), blocks::elements(f.bytes, 16, fixed, unit))
}

// TEXT_POKE: two lengths at 16 and 18, so many bytes, and fewer than 8 of padding.
pub fn text_poke(f: Body) -> Result<(), Reason>
    ensures { Closes f.entry.bytes.now text_poke 8 (answer_of result) }
{
    if f.bytes.len() < 20 {
        return Err(Reason::TooShort);
    }
    let end = 20 + (wire::u16_at(f.bytes, 16) + wire::u16_at(f.bytes, 18)) as usize;
    if f.bytes.len() < end {
        return Err(Reason::TooShort);
    }
    if f.bytes.len() - end < 8 {
        Ok(())
    } else {
        Err(Reason::LeftOver)
    }
}
