// The items of each type's fields and of the trailer, as lists (specs/Lists, written by tools/chains.py), the bits that
// select the trailer, and the bytes of a group's entry.
#![tactic(auto)]

ghost use Rattle.std.specs.Prelude.{◌≡◌, ◌≤◌, cond, not, ◌&&◌, eqb};
ghost use Rattle.meaning.specs.Schema.{group_bytes};

use meaning::Attributes;

pub mod types;

// The bits by which the items of the trailer are selected: none where there is no trailer.
pub fn trailer_bits(kind: u64, a: Attributes) -> u64
    ensures { result ≡ cond (a.all && not (eqb kind 9)) a.sample 0 }
{
    let on = a.all & !(kind == types::SAMPLE);
    if on { a.sample } else { 0 }
}

// The bytes of a group's entry, by the read format: a value, its id (bit 2) and its lost count (bit 4), of eight bytes
// each.
pub fn group_bytes(format: u64) -> usize
    ensures value { result ≡ group_bytes format }
    ensures bounds { (8 ≤ result) × (result ≤ 24) }
{
    let ids = wire::has_bit(format, 2);
    let lost = wire::has_bit(format, 4);
    match (ids, lost) {
        (true, true) => 24,
        (false, false) => 8,
        _ => 16,
    }
}
