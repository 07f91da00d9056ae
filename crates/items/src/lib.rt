// The item that a row of the table stands for: whether it is selected, and its shape.
#![tactic(auto)]

ghost use Rattle.std.specs.Prelude.{◌≡◌, false, ◌<◌, get_or};
ghost use Rattle.meaning.specs.Schema.{trails};
ghost use Rattle.table.specs.Rows.{rows, all_rows, guard, guards, shape, item_of};

use layouts::types;
use meaning::{Attributes, Item, Shape, Width};
use table::rows;

// "If sample_id_all is set, every record but SAMPLE ends with these eight-byte items where selected."
fn in_trailer(a: Attributes, kind: u64, b: u64) -> bool
    requires { b < 64 }
    ensures { result ≡ trails kind a b }
{
    a.all & (kind != types::SAMPLE) & wire::has_bit(a.sample, b)
}

// The guards that are no bit of the sample type.
fn other_guard(a: Attributes, misc: u64, g: u16) -> bool
    ensures { result ≡ get_or (guards a misc) g false }
{
    let reads = wire::has_bit(a.sample, 4);
    let grouped = wire::has_bit(a.format, 3);
    let build = wire::has_bit(misc, 14);
    match g {
        rows::IF_ALWAYS => true,
        rows::IF_READ_LOST => !grouped & wire::has_bit(a.format, 4),
        rows::IF_BUILD_ID => build,
        rows::IF_NO_BUILD_ID => !build,
        rows::IF_WEIGHT => wire::has_bit(a.sample, 14) | wire::has_bit(a.sample, 24),
        rows::IF_SAMPLE_ALONE => reads & !grouped,
        rows::IF_SAMPLE_GROUP => reads & grouped,
        rows::IF_SAMPLE_ENABLED => reads & wire::has_bit(a.format, 0),
        rows::IF_SAMPLE_RUNNING => reads & wire::has_bit(a.format, 1),
        rows::IF_SAMPLE_ID => reads & (!grouped & wire::has_bit(a.format, 2)),
        rows::IF_READ_ALONE => !grouped,
        rows::IF_READ_GROUP => grouped,
        rows::IF_READ_ENABLED => wire::has_bit(a.format, 0),
        rows::IF_READ_RUNNING => wire::has_bit(a.format, 1),
        rows::IF_READ_ID => !grouped & wire::has_bit(a.format, 2),
        rows::IF_INDEX => wire::has_bit(a.sample, 11) & wire::has_bit(a.branch, 17),
        rows::IF_SAMPLE_LOST => reads & (!grouped & wire::has_bit(a.format, 4)),
        _ => false,
    }
}

fn guard_of(a: Attributes, misc: u64, kind: u64, g: u16) -> bool
    ensures { result ≡ guard a misc kind g }
{
    if g < 32 {
        return wire::has_bit(a.sample, g as u64);
    }
    if g < 64 {
        return other_guard(a, misc, g - 32);
    }
    in_trailer(a, kind, (g % 64) as u64)
}

fn shape_by(a: Attributes, k: u16) -> Shape
    ensures { result ≡ shape a k }
{
    match k {
        rows::U64 => Shape::Number(Width::W8),
        rows::U32 => Shape::Number(Width::W4),
        rows::U16 => Shape::Number(Width::W2),
        rows::COUNT_64 => Shape::Count(Width::W8),
        rows::COUNT_16 => Shape::Count(Width::W2),
        rows::SIZE_32 => Shape::Size(Width::W4),
        rows::SIZE_64 => Shape::Size(Width::W8),
        rows::BYTES => Shape::Times(1),
        rows::WORDS => Shape::Times(8),
        rows::PAIRS => Shape::Times(16),
        rows::BRANCHES => Shape::Times(24),
        rows::VALUES => Shape::Times(layouts::group_bytes(a.format)),
        rows::EARLIER_BYTES => Shape::Earlier(1),
        rows::REGISTERS => Shape::Registers,
        rows::FILLED => Shape::Filled,
        rows::USER_ABI => Shape::Abi(a.user),
        rows::INTERRUPT_ABI => Shape::Abi(a.interrupt),
        rows::BUILD_SIZE => Shape::Limit(20),
        rows::BUILD_BYTES => Shape::Listed(20),
        rows::TAG => Shape::Bytes(8),
        rows::PADDING => Shape::Pad,
        rows::NAME => Shape::Name,
        rows::IGNORED_3 => Shape::Ignored(3),
        rows::IGNORED_4 => Shape::Ignored(4),
        _ => Shape::Pad,
    }
}

// Is the item of a row selected?
pub fn is_on(a: Attributes, misc: u64, kind: u64, row: u16) -> bool
    ensures { result ≡ (item_of a misc kind row).on }
{
    guard_of(a, misc, kind, row / 32)
}

pub fn shape_of(a: Attributes, row: u16) -> Shape
    ensures { result ≡ (item_of a 0 0 row).shape }
{
    shape_by(a, row % 32)
}

pub fn item_of(a: Attributes, misc: u64, kind: u64, row: u16) -> Item
    ensures { result ≡ item_of a misc kind row }
{
    Item {
        on: is_on(a, misc, kind, row),
        shape: shape_of(a, row),
    }
}

// The item of the row at a place of the table.
pub fn item_at(a: Attributes, misc: u64, kind: u64, k: usize) -> Item
    requires { k < all_rows }
    ensures { result ≡ item_of a misc kind (get_or rows k 0) }
{
    let all = table::all_rows();
    item_of(a, misc, kind, table::row_at(&all, k))
}
