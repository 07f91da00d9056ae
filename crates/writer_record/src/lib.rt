// A whole record: the words that no item has, the size of the record that the words tell, and its bytes. Nothing is
// written before the size is known and there is room.
#![tactic(auto)]

ghost use Rattle.std.specs.Prelude.{◌≡◌, ◌++◌, ◌+◌, ◌≤◌, ◌<◌, length, take, drop, unwrap_or, IfSome};
ghost use Rattle.meaning.specs.Bytes.{all_zero, spell, put};
ghost use Rattle.meaning.specs.Schema.{trailer};
ghost use Rattle.meaning.specs.Values.{spare_by, width, body_width, body_words, trail_words};
ghost use Rattle.table.specs.Rows.{all_rows};
ghost use Rattle.writer_parts.specs.Parts.{part_items};
ghost use Rattle.writer_record.specs.Measures.{Fields, Inside, size_meant, bytes_meant};

use meaning::Attributes;
use writer_parts::TypePart;

// The words before the end of a part's own.
fn words_end(p: TypePart, first: usize) -> usize
    requires { (p.from ≤ p.to) × (p.to ≤ all_rows) × (first ≤ trail_words) }
    ensures { result ≡ first + width (part_items p) }
{
    let all = table::all_rows();
    let own = &all[p.from..p.to];
    let mut end = first;
    for &row in own {
        end += fields::words_of(p.item(row).shape);
    }
    end
}

fn zero_between(ws: &[u64], from: usize, to: usize) -> bool
    ensures { result ≡ all_zero (drop from (take to ws.now)) }
{
    let front = &ws[..to.min(ws.len())];
    let rest = &front[from.min(front.len())..];
    rest.iter().all(|&word| word == 0)
}

// The words before the end of a type's own: the flag of a name follows its fields.
fn body_end(p: TypePart) -> usize
    requires { (p.from ≤ p.to) × (p.to ≤ all_rows) × Fields p }
    ensures { result ≡ body_words + body_width (part_items p) }
{
    match table::flag_at(p.kind) {
        Some(flag) => flag + 1,
        None => words_end(p, writer_words::BODY_WORDS),
    }
}

// Every word that the type does not have is 0: the trailer has seven words, and one is kept free.
fn spare_zero(ws: &[u64], p: TypePart) -> bool
    requires { (p.from ≤ p.to) × (p.to ≤ all_rows) × Fields p }
    ensures { result ≡ all_zero (spare_by (part_items p) (trailer p.kind p.attributes) ws.now) }
{
    let own = body_end(p);
    let between = zero_between(ws, own, writer_words::TRAIL_WORDS);
    between & zero_between(ws, writer_words::FREE_WORD, writer_words::VALUE_WORDS)
}

// The size of the record that the words tell; there is none where they tell no record: "42 exactly when no record
// decodes to the same". A size is true, a multiple of 8, and the numbers of the header fit it.
pub fn measure(
    ws: &[u64],
    source: &[u8],
    attributes: Attributes,
    kind: u64,
    misc: u64,
) -> Option<usize>
    requires { Inside source.now ws.now attributes kind misc }
    ensures value { unwrap_or result 0 ≡ size_meant source.now ws.now attributes kind misc }
    ensures some { IfSome result (λ size. 0 < size) }
{
    let b = writer_parts::body(attributes, kind, misc);
    let words = writer_words::start_at(writer_words::BODY_WORDS);
    let Ok(c) = writer_parts::try_all(ws, source, b, words, answers::origin(8)) else {
        return None;
    };
    let t = writer_parts::trailing(attributes, kind, misc);
    let words = writer_words::start_at(writer_words::TRAIL_WORDS);
    let Ok(d) = writer_parts::try_all(ws, source, t, words, answers::origin(c.at)) else {
        return None;
    };
    let size = writer_words::word(ws, 2);
    let header = (kind <= u32::MAX as u64) & (misc <= u16::MAX as u64);
    let whole = (size as usize == d.at) & (size % 8 == 0);
    if (header & whole) & spare_zero(ws, b) {
        Some(d.at)
    } else {
        None
    }
}

// "Header: type u32, misc u16, size u16."
fn put_header(kind: u64, misc: u64, size: u64, buffer: &mut [u8])
    requires { 8 ≤ length buffer.old }
    ensures { buffer.new ≡ put buffer.old 0 (spell 4 kind ++ (spell 2 misc ++ spell 2 size)) }
{
    wire::put32(buffer, 0, kind);
    wire::put16(buffer, 4, misc);
    wire::put16(buffer, 6, size);
}

// A record of `end` bytes, as it was measured. The trailer has a fixed length, so its place is known from the end.
pub fn put_record(
    ws: &[u64],
    source: &[u8],
    attributes: Attributes,
    kind: u64,
    misc: u64,
    end: usize,
    buffer: &mut [u8],
)
    requires { (end ≡ size_meant source.now ws.now attributes kind misc) × (0 < end) × (end ≤ length buffer.old) × Inside source.now ws.now attributes kind misc }
    ensures { buffer.new ≡ put buffer.old 0 (bytes_meant source.now ws.now attributes kind misc) }
{
    put_header(kind, misc, writer_words::word(ws, 2), buffer);
    let b = writer_parts::body(attributes, kind, misc);
    writer_parts::put_all(
        ws,
        source,
        b,
        writer_words::start_at(writer_words::BODY_WORDS),
        answers::origin(8),
        buffer,
    );
    let at = end - record::trailer_room(kind, attributes);
    let t = writer_parts::trailing(attributes, kind, misc);
    writer_parts::put_all(
        ws,
        source,
        t,
        writer_words::start_at(writer_words::TRAIL_WORDS),
        answers::origin(at),
        buffer,
    );
}
