// The field of an item where it lies in a record's bytes.
#![tactic(auto)]

ghost use Rattle.std.specs.Prelude.{◌≡◌, true, false, ◌≤◌, length, drop};
ghost use Rattle.meaning.specs.Items.{shape_step};
ghost use Rattle.meaning.specs.Reasons.{cursor_of};
ghost use Rattle.extents.specs.Extent.{extent, extent_of, Lies};

use meaning::{Shape, Spot};

// A number and the bytes at a place.
#[derive(Clone, Copy, Debug, PartialEq, Eq)]
pub struct Stretch {
    pub num: u64,
    pub at: usize,
    pub len: usize,
}

// What an item tells: its field, where it has one, and its own number.
#[derive(Clone, Copy, Debug, PartialEq, Eq)]
pub struct Told {
    pub field: Option<Stretch>,
    pub number: u64,
}

fn no_field(number: u64) -> Told
    ensures { extent_of result ≡ extent false 0 0 0 number }
{
    Told {
        field: None,
        number,
    }
}

fn number_field(number: u64, at: usize) -> Told
    ensures { extent_of result ≡ extent true number at 0 number }
{
    Told {
        field: Some(Stretch {
            num: number,
            at,
            len: 0,
        }),
        number,
    }
}

fn list_field(num: u64, at: usize, len: usize) -> Told
    ensures { extent_of result ≡ extent true num at len 0 }
{
    Told {
        field: Some(Stretch { num, at, len }),
        number: 0,
    }
}

// The field of a shape whose step from c to `end` is accepted; w is the number of the item before.
pub fn of_shape(s: &[u8], shape: Shape, w: u64, c: Spot, end: usize) -> Told
    requires at_in_bounds { c.at ≤ length s.now }
    requires s_value { (shape_step shape (cursor_of c) (drop c.at s.now)).why ≡ 0 }
    requires end_value { end ≡ (shape_step shape (cursor_of c) (drop c.at s.now)).at }
    ensures { Lies s.now shape w (cursor_of c) (extent_of result) }
{
    let at = c.at;
    let n = c.n;
    let len = end - at;
    match shape {
        Shape::Number(k) => number_field(shapes::word_at(s, at, k), at),
        Shape::Ignored(_) => no_field(0),
        Shape::Count(k) => no_field(shapes::word_at(s, at, k)),
        Shape::Size(k) => no_field(shapes::word_at(s, at, k)),
        Shape::Times(_) => list_field(n, at, len),
        Shape::Earlier(_) => list_field(c.old, at, len),
        Shape::Registers => {
            if w == 0 {
                no_field(0)
            } else {
                list_field(0, at, len)
            }
        }
        Shape::Filled => {
            if n == 0 {
                no_field(0)
            } else {
                number_field(wire::u64_at(s, at), at)
            }
        }
        Shape::Abi(_) => number_field(wire::u64_at(s, at), at),
        Shape::Limit(_) => no_field(wire::u8_at(s, at)),
        Shape::Listed(_) => list_field(n, at, len.min(n as usize)),
        Shape::Bytes(_) => list_field(0, at, len),
        Shape::Pad => no_field(0),
        Shape::Name => list_field(0, at, shapes::zero_from(s, at) - at),
    }
}
