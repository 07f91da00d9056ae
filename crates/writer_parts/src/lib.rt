// The items of a part of the table, with the words that tell them: three loops over the rows. The first two only look,
// the third writes.
#![tactic(auto)]

ghost use Rattle.std.specs.Prelude.{◌≡◌, ◌≤◌, length};
ghost use Rattle.meaning.specs.Bytes.{put};
ghost use Rattle.meaning.specs.Schema.{schema, trailer};
ghost use Rattle.meaning.specs.Values.{trail_words};
ghost use Rattle.meaning.specs.Reasons.{cursor_of};
ghost use Rattle.table.specs.Rows.{all_rows, item_of};
ghost use Rattle.writer_items.specs.Tries.{most_bytes, state_of};
ghost use Rattle.writer_parts.specs.Parts.{Lays, beyond_part, tried_part, written_part};

use meaning::{Attributes, Item, Reason, Spot};

// Rows of the table of items: the fields of a type, or its trailer. That the rows are in order and in the table is a
// part of `Lays`, which both makers of one ensure.
// kept: no ghost field says so, since definitions and laws of specs/ (`Lays`, `body-lays`, `trail-lays`) take any four
// parts.
#[derive(Clone, Copy, Debug, PartialEq, Eq)]
pub struct TypePart {
    pub attributes: Attributes,
    pub kind: u64,
    pub misc: u64,
    pub from: usize,
    pub to: usize,
}

impl TypePart {
    // The item of one of its rows.
    pub fn item(self, row: u16) -> Item
        ensures { result ≡ item_of self.attributes self.misc self.kind row }
    {
        items::item_of(self.attributes, self.misc, self.kind, row)
    }
}

pub fn body(attributes: Attributes, kind: u64, misc: u64) -> TypePart
    ensures { Lays result attributes kind (schema kind misc attributes) }
{
    let p = table::part_of(kind);
    // kept: a `Part` is of another type, and a struct update copies from a value of the same type alone
    TypePart {
        attributes,
        kind,
        misc,
        from: p.from,
        to: p.to,
    }
}

pub fn trailing(attributes: Attributes, kind: u64, misc: u64) -> TypePart
    ensures { Lays result attributes kind (trailer kind attributes) }
{
    TypePart {
        attributes,
        kind,
        misc,
        from: table::TRAILER_FROM,
        to: table::TRAILER_TO,
    }
}

// 41, of any of them.
pub fn any_beyond(ws: &[u64], source: &[u8], p: TypePart, first: Spot) -> bool
    requires { (p.from ≤ p.to) × (p.to ≤ all_rows) × (first.at ≤ trail_words) }
    ensures { result ≡ beyond_part source.now ws.now p first }
{
    let all = table::all_rows();
    let own = &all[p.from..p.to];
    let mut t = first;
    for &row in own {
        let i = p.item(row);
        let s = writer_words::given_by(ws, t, i);
        if writer_items::beyond(source, i, s) {
            return true;
        }
        t = writer_words::after(ws, t, i);
    }
    false
}

// The state after all of them; there is none from the first on that does not fit.
pub fn try_all(
    ws: &[u64],
    source: &[u8],
    p: TypePart,
    first: Spot,
    start: Spot,
) -> Result<Spot, Reason>
    requires { (p.from ≤ p.to) × (p.to ≤ all_rows) × (first.at ≤ trail_words) × (start.at ≤ most_bytes) }
    ensures { state_of result ≡ tried_part source.now ws.now p first (cursor_of start) }
{
    let all = table::all_rows();
    let own = &all[p.from..p.to];
    let mut t = first;
    let mut c = start;
    for &row in own {
        let i = p.item(row);
        let s = writer_words::given_by(ws, t, i);
        c = writer_items::try_item(source, i, c, s)?;
        t = writer_words::after(ws, t, i);
    }
    Ok(c)
}

// The bytes of all of them, where all fit and the buffer has room: the loop that puts.
pub fn put_all(ws: &[u64], source: &[u8], p: TypePart, first: Spot, start: Spot, buffer: &mut [u8])
    requires { (p.from ≤ p.to) × (p.to ≤ all_rows) × (first.at ≤ trail_words) × (start.at ≤ most_bytes) × ((tried_part source.now ws.now p first (cursor_of start)).why ≡ 0) × ((tried_part source.now ws.now p first (cursor_of start)).at ≤ length buffer.old) }
    ensures { buffer.new ≡ put buffer.old start.at (written_part source.now ws.now p first (cursor_of start)) }
{
    let all = table::all_rows();
    let own = &all[p.from..p.to];
    let mut t = first;
    let mut c = start;
    for &row in own {
        let i = p.item(row);
        let s = writer_words::given_by(ws, t, i);
        let f = writer_forms::of_item(i, c, s);
        c = writer_items::put_item(source, f, s, c, buffer);
        t = writer_words::after(ws, t, i);
    }
}
