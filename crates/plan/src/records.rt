// A record as the plan takes it, and beside what edition and attributes fix of it.
ghost use Rattle.std.specs.Prelude.{◌≡◌, ◌%◌, ◌≤◌, ◌<◌, length};
ghost use Rattle.meaning.specs.Records.{kind_of, room};
ghost use Rattle.meaning.specs.Schema.{trailer};
ghost use Rattle.blocks.specs.Seen.{size_bound};
ghost use Rattle.exact.specs.Stretches.{group_fixed};
ghost use Rattle.sums.specs.Sums.{trail_most};
ghost use Rattle.marks.specs.Marks.{Marked};
ghost use Rattle.plan.specs.Once.{marked-prop};

use meaning::{Attributes, Known};

// A record of whole words with a header, below 65,536 bytes: its bytes, and its type, which was read before.
#[derive(Clone, Copy)]
pub struct Whole<'a> {
    pub bytes: &'a [u8],
    pub kind: u64,
    pub ghost headed: { 8 ≤ length bytes.now },
    pub ghost bounded: { length bytes.now < size_bound },
    pub ghost words: { length bytes.now % 8 ≡ 0 },
    pub ghost typed: { kind ≡ kind_of bytes.now },
}

// A record beside what edition and attributes fix of it: the mark of its type, the trailer's bytes, and for READ the
// words of a group before its elements.
#[derive(Clone, Copy)]
pub struct Fixed<'a> {
    pub r: Whole<'a>,
    pub mark: u64,
    pub known: Known,
    pub a: Attributes,
    pub trail: usize,
    pub group: usize,
    pub ghost marked: { Marked known a r.kind mark } by { marked-prop known a r.kind mark },
    pub ghost trailed: { trail ≡ room (trailer 1 a) },
    pub ghost short: { trail ≤ trail_most },
    pub ghost grouped: { r.kind ≡ 8 → group ≡ group_fixed a.format },
}
