// "Inside, field after field is taken by a reader that holds the record and its place": the struct over the record's
// slice. Each function over it is thin: it takes the struct apart and calls a function over the slice and the place,
// which does the work.
#![tactic(auto)]

ghost use Rattle.std.specs.Prelude.{◌≡◌, ◌+◌, ◌-◌, ◌≤◌, leb, length, take, drop};
ghost use Rattle.meaning.specs.Records.{kind_of, misc_of, size_of};
ghost use Rattle.reader.specs.Field.{field_at, field_told, forward_at, header_at, header_told};

use meaning::Reason;

// The record's bytes, and the place of the next field.
#[derive(Clone, Copy)]
pub struct Reader<'a> {
    pub record: &'a [u8],
    pub at: usize,
}

// A field that is there: its number, and the place after it.
#[derive(Clone, Copy, Debug, PartialEq, Eq)]
pub struct Field {
    pub value: u64,
    pub next: usize,
}

// "Header: type u32, misc u16, size u16"; the place after it is 8.
#[derive(Clone, Copy, Debug, PartialEq, Eq)]
pub struct Header {
    pub kind: u64,
    pub misc: u64,
    pub size: u64,
}

// A record that ends within its header: what was read before, with 0 for what was not, and the place of the field that
// is not there.
// kept: (a) 0 for what was not read: `header_at` tells it so
#[derive(Clone, Copy, Debug, PartialEq, Eq)]
pub struct Cut {
    pub kind: u64,
    pub misc: u64,
    pub next: usize,
}

// ---- over the slice and the place

// Do k bytes at a place end by the record's end? The sum is not made: it could pass the largest number.
fn holds(bytes: &[u8], at: usize, k: usize) -> bool
    ensures { result ≡ leb (at + k) (length bytes.now) }
{
    at <= bytes.len() && k <= bytes.len() - at
}

// The field of k bytes at a place: 1, 2, 4 or 8. "30: a field would pass the record's end"; of another width there is
// none.
// kept: (a) k is any number, as a parameter may not be narrowed: `field_at` says what is told of each
#[tactic(auto, unfolding(crate::specs::Field::field_at))]
pub fn field_at(bytes: &[u8], at: usize, k: usize) -> Result<Field, Reason>
    ensures { field_told at result ≡ field_at k bytes.now at }
{
    if !holds(bytes, at, k) {
        return Err(Reason::TooShort);
    }
    let value = match k {
        1 => wire::u8_at(bytes, at),
        2 => wire::u16_at(bytes, at),
        4 => wire::u32_at(bytes, at),
        8 => wire::u64_at(bytes, at),
        _ => return Err(Reason::TooShort),
    };
    Ok(Field {
        value,
        next: at + k,
    })
}

// The bytes from a place on, at most n of them.
pub fn part_at(bytes: &[u8], at: usize, n: usize) -> &[u8]
    ensures { result.now ≡ take n (drop at bytes.now) }
{
    let from = at.min(bytes.len());
    let to = from + n.min(bytes.len() - from);
    &bytes[from..to]
}

pub fn left_at(bytes: &[u8], at: usize) -> usize
    ensures { result ≡ length bytes.now - at }
{
    bytes.len().saturating_sub(at)
}

#[tactic(auto, unfolding(crate::specs::Field::forward_at))]
pub fn place_after(bytes: &[u8], at: usize, n: usize) -> usize
    ensures { result ≡ forward_at bytes.now at n }
{
    if holds(bytes, at, n) {
        at + n
    } else {
        bytes.len()
    }
}

// ---- over the struct: thin

impl<'a> Reader<'a> {
    // A reader of a record, at its first byte.
    pub fn start(bytes: &'a [u8]) -> Reader<'a>
        ensures { (result.record ≡ bytes.entry) × (result.at ≡ 0) }
    {
        Reader {
            record: bytes,
            at: 0,
        }
    }

    // The next field, of k bytes: 1, 2, 4 or 8.
    pub fn next(self, k: usize) -> Result<Field, Reason>
        ensures { field_told self.entry.at result ≡ field_at k self.entry.record.now self.entry.at }
    {
        field_at(self.record, self.at, k)
    }

    // The bytes of a list or a name, at most n of them.
    pub fn part(self, n: usize) -> &'a [u8]
        ensures { result.now ≡ take n (drop self.entry.at self.entry.record.now) }
    {
        part_at(self.record, self.at, n)
    }

    // How many bytes are left.
    pub fn left(self) -> usize
        ensures { result ≡ length self.entry.record.now - self.entry.at }
    {
        left_at(self.record, self.at)
    }

    pub fn place(self) -> usize
        ensures { result ≡ self.entry.at }
    {
        self.at
    }

    // The same record at another place.
    pub fn moved(self, at: usize) -> Reader<'a>
        ensures { (result.record ≡ self.entry.record) × (result.at ≡ at) }
    {
        Reader { at, ..self }
    }

    // n bytes on, and at most at the end.
    pub fn forward(self, n: usize) -> Reader<'a>
        ensures { (result.record ≡ self.entry.record) × (result.at ≡ forward_at self.entry.record.now self.entry.at n) }
    {
        self.moved(place_after(self.record, self.at, n))
    }
}

// ---- plain parameters again: whoever calls these sees the slice and the answer alone

// A field, or no number and its own place, where the next field is looked for.
fn or_none(field: Result<Field, Reason>, at: usize) -> Field
    ensures value { result.value ≡ (field_told at field).value }
    ensures next { result.next ≡ (field_told at field).next }
{
    field.unwrap_or(Field { value: 0, next: at })
}

// The header, or what is told of a record that ends before it does.
#[tactic(auto, unfolding(crate::specs::Field::field_at))]
pub fn read_header(bytes: &[u8]) -> Result<Header, Cut>
    ensures { header_told result ≡ header_at bytes.now 0 }
{
    let r = Reader::start(bytes);
    let kind = or_none(r.next(4), 0);
    let misc = or_none(r.moved(kind.next).next(2), kind.next);
    let before = Cut {
        kind: kind.value,
        misc: misc.value,
        next: misc.next,
    };
    match r.moved(misc.next).next(2) {
        // kept: a Cut is of another type, and a struct update copies from a value of the same type alone
        Ok(size) => Ok(Header {
            kind: before.kind,
            misc: before.misc,
            size: size.value,
        }),
        Err(_) => Err(before),
    }
}

// The header of a record that is known to have one.
pub fn whole_header(bytes: &[u8]) -> Header
    requires { 8 ≤ length bytes.now }
    ensures kind_is { result.kind ≡ kind_of bytes.now }
    ensures misc_is { result.misc ≡ misc_of bytes.now }
    ensures size_is { result.size ≡ size_of bytes.now }
{
    match read_header(bytes) {
        Ok(h) => h,
        Err(_) => unreachable!(),
    }
}
