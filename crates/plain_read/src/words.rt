// The words of a record that is accepted, item by item.
ghost use Rattle.std.specs.Prelude.{◌≡◌, ◌+◌, ◌≤◌, map, length};
ghost use Rattle.meaning.specs.Bytes.{put};
ghost use Rattle.meaning.specs.Schema.{schema, trailer};
ghost use Rattle.meaning.specs.Reasons.{cursor_of};
ghost use Rattle.meaning.specs.Records.{kind_of, misc_of};
ghost use Rattle.meaning.specs.Values.{words, words_by};
ghost use Rattle.fields.specs.Told.{words_in};
ghost use Rattle.record.specs.Into.{Accepted, Fills};
ghost use Rattle.table.specs.Rows.{item_of};

use fields::Words;
use meaning::{Attributes, Spot};
use record::flag;

// The words of one item in their place.
fn place(out: &mut [u64], at: usize, told: Words)
    requires { at + length (words_in told) ≤ length out.old }
    ensures { out.new ≡ put out.old at (words_in told) }
{
    match told {
        Words::None => {}
        Words::One(first) => out[at] = first,
        Words::Two(first, second) => {
            out[at] = first;
            out[at + 1] = second;
        }
    }
}

// The words of the items of these rows, the walk at `first`, from word `start` on. An accepted record refuses no step.
fn fill(
    s: &[u8],
    kind: u64,
    misc: u64,
    a: Attributes,
    own: &[u16],
    first: Spot,
    out: &mut [u64],
    start: usize,
)
    requires { Fills (map (item_of a misc kind) own.now) s.now (cursor_of first) out.old start }
    ensures { out.new ≡ put out.old start (words s.now (map (item_of a misc kind) own.now) (cursor_of first)) }
{
    let mut spot = first;
    // kept: (d) the place of the next word; an item tells none, one or two, so no loop counts it
    let mut at = start;
    for &row in own {
        let item = items::item_of(a, misc, kind, row);
        let told = fields::told(s, item, spot);
        place(out, at, told);
        at += told.count();
        spot = fields::step(s, item, spot).unwrap();
    }
}

// Type, misc and size; the words of the fields from 3 on, then the flag where the type has a name; those of the trailer
// from 48 on; every other word is 0.
pub fn of_record(r: &[u8], a: Attributes) -> [u64; fields::VALUE_WORDS]
    requires { Accepted a r.now (kind_of r.now) }
    ensures { result ≡ words_by (schema (kind_of r.now) (misc_of r.now) a) (trailer (kind_of r.now) a) r.now }
{
    let h = reader::whole_header(r);
    let kind = h.kind;
    let misc = h.misc;
    let mut out = [0u64; fields::VALUE_WORDS];
    out[0] = kind;
    out[1] = misc;
    out[2] = h.size;
    let end = r.len() - answers::trailer_room(kind, a);
    let all = table::all_rows();
    let part = table::part_of(kind);
    fill(
        &r[..end],
        kind,
        misc,
        a,
        &all[part.from..part.to],
        answers::origin(8),
        &mut out,
        fields::BODY_WORDS,
    );
    flag::set(r, kind, misc, a, &mut out);
    fill(
        r,
        kind,
        misc,
        a,
        &all[table::TRAILER_FROM..table::TRAILER_TO],
        answers::origin(end),
        &mut out,
        fields::TRAIL_WORDS,
    );
    out
}
