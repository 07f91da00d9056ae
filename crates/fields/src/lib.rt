// The step over an item, by its shape, and the words that an item tells.
// The spot goes by value, with the record's fields beside it as a slice: the fields' end is the slice's length.
#![tactic(auto)]

ghost use Rattle.std.specs.Prelude.{◌≡◌, ◌+◌, ◌≤◌, length, drop};
ghost use Rattle.meaning.specs.declared.Shape.TheVariants.{Filled};
ghost use Rattle.meaning.specs.Bytes.{num, zero_in};
ghost use Rattle.meaning.specs.Items.{part, step};
ghost use Rattle.meaning.specs.Reasons.{cursor_of, stepped};
ghost use Rattle.meaning.specs.Values.{slot, tell, words_of, slot_item};
ghost use Rattle.fields.specs.Told.{words_in};

use meaning::{Item, Reason, Shape, Spot};
pub use shapes::zero_from;

// The words of a value: type, misc, size; the fields' from 3 on; the trailer's from 48 on, and the last one is free.
pub const BODY_WORDS: usize = 3;

pub const TRAIL_WORDS: usize = 48;

pub const FREE_WORD: usize = 55;

pub const VALUE_WORDS: usize = 56;

// ---- the step

// An item that is not selected changes nothing. (A walk stops at its first refusal, so no step comes after one.)
pub fn step(s: &[u8], i: Item, c: Spot) -> Result<Spot, Reason>
    ensures { stepped c result ≡ step s.now i (cursor_of c) }
{
    if !i.on {
        return Ok(c);
    }
    match i.shape {
        Shape::Number(w) => spans::ignored(s, c, w.bytes()),
        Shape::Ignored(k) => spans::ignored(s, c, k),
        Shape::Count(w) => shapes::count(s, c, w),
        Shape::Size(w) => shapes::sized(s, c, w),
        Shape::Times(k) => spans::elements(s, c, c.n, k),
        Shape::Earlier(k) => spans::elements(s, c, c.old, k),
        Shape::Registers => spans::elements(s, c, c.n, 8),
        Shape::Filled => shapes::filled(s, c),
        Shape::Abi(mask) => shapes::abi(s, c, mask),
        Shape::Limit(most) => shapes::limit(s, c, most),
        Shape::Listed(k) => spans::ignored(s, c, k),
        Shape::Bytes(k) => spans::ignored(s, c, k),
        // up to the next multiple of 8: 0 to 7 bytes
        Shape::Pad => spans::ignored(s, c, (8 - c.at % 8) % 8),
        Shape::Name => shapes::name(s, c),
    }
}

// ---- the words of an item

// The words that an item tells: at most two.
#[derive(Clone, Copy, Debug, PartialEq, Eq)]
pub enum Words {
    None,
    One(u64),
    Two(u64, u64),
}

impl Words {
    pub fn count(self) -> usize
        ensures { (result ≡ length (words_in self)) × (result ≤ 2) }
    {
        match self {
            Words::None => 0,
            Words::One(_) => 1,
            Words::Two(_, _) => 2,
        }
    }
}

// A number has one word; a list or a name its place, and its count where no count word of the record holds it.
// kept: an arm for each shape, here and in `step` and `told`: the rows of the definitions' tables, one by one.
pub fn words_of(shape: Shape) -> usize
    ensures { (result ≡ words_of shape) × (result ≤ 2) }
{
    match shape {
        Shape::Number(_) => 1,
        Shape::Ignored(_) => 0,
        Shape::Count(_) => 1,
        Shape::Size(_) => 1,
        Shape::Times(_) => 1,
        Shape::Earlier(_) => 1,
        Shape::Registers => 2,
        Shape::Filled => 1,
        Shape::Abi(_) => 1,
        Shape::Limit(_) => 1,
        Shape::Listed(_) => 1,
        Shape::Bytes(_) => 2,
        Shape::Pad => 0,
        Shape::Name => 2,
    }
}

// As many words as a shape has, each of them 0.
fn blank(shape: Shape) -> Words
    ensures { words_in result ≡ tell shape (slot 0 0 0) }
{
    match words_of(shape) {
        0 => Words::None,
        1 => Words::One(0),
        _ => Words::Two(0, 0),
    }
}

// The filled length of a stack; 0 where the stack's size is 0, which has none.
fn filled_length(s: &[u8], c: Spot) -> u64
    requires { (c.n ≡ 0 → ⊥) → c.at + 8 ≤ length s.now }
    ensures { result ≡ num (part Filled (cursor_of c) (drop c.at s.now)) }
{
    if c.n == 0 {
        return 0;
    }
    wire::u64_at(s, c.at)
}

fn name_length(s: &[u8], at: usize) -> u64
    requires { at ≤ length s.now }
    ensures { result ≡ zero_in (drop at s.now) }
{
    (shapes::zero_from(s, at) - at) as u64
}

// The words of an item whose step is accepted. "An unselected field is zero or empty in the value. Lists and names are
// given as a place and a count in the record."
pub fn told(s: &[u8], i: Item, c: Spot) -> Words
    requires { (step s.now i (cursor_of c)).why ≡ 0 }
    ensures { words_in result ≡ tell i.shape (slot_item s.now i (cursor_of c)) }
{
    if !i.on {
        return blank(i.shape);
    }
    let at = c.at;
    match i.shape {
        Shape::Number(w) => Words::One(shapes::word_at(s, at, w)),
        Shape::Ignored(_) => Words::None,
        Shape::Count(w) => Words::One(shapes::word_at(s, at, w)),
        Shape::Size(w) => Words::One(shapes::word_at(s, at, w)),
        Shape::Times(_) => Words::One(at as u64),
        Shape::Earlier(_) => Words::One(at as u64),
        Shape::Registers => Words::Two(at as u64, c.n),
        Shape::Filled => Words::One(filled_length(s, c)),
        Shape::Abi(_) => Words::One(wire::u64_at(s, at)),
        Shape::Limit(_) => Words::One(wire::u8_at(s, at)),
        Shape::Listed(_) => Words::One(at as u64),
        Shape::Bytes(k) => Words::Two(at as u64, k as u64),
        Shape::Pad => Words::None,
        Shape::Name => Words::Two(at as u64, name_length(s, at)),
    }
}
