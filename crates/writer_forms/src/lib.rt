// An item at a place, as it is written.
#![tactic(auto)]

ghost use Rattle.std.specs.Prelude.{◌≡◌, ◌-◌, ◌+◌, ◌%◌, cond, false, eqb, unwrap_or, is_some};
ghost use Rattle.meaning.specs.Bytes.{ones};
ghost use Rattle.meaning.specs.Items.{bytes};
ghost use Rattle.meaning.specs.Reasons.{cursor_of};
ghost use Rattle.writer_words.specs.Tellings.{slot_of};
ghost use Rattle.writer_forms.specs.Forms.{form_of, blank_form, number_form, list_form, name_form, shape_form, form};

use meaning::{Item, Shape, Spot, Width};
use writer_words::Given;

// What an item has before its zero bytes: nothing; a number of so many bytes, at most so large (and, with its own
// bytes, a multiple of 8 or not); the bytes of a list of `want` elements; the bytes of a name, with no zero among them.
#[derive(Clone, Copy, Debug, PartialEq, Eq)]
pub enum Content {
    Blank,
    Number {
        width: Width,
        top: u64,
        eights: bool,
    },
    List {
        unit: usize,
        want: u64,
    },
    Name {
        want: u64,
    },
}

// An item at a place, as it is written: its content, then zero bytes. And the counts that are remembered after it.
#[derive(Clone, Copy, Debug, PartialEq, Eq)]
pub struct Form {
    pub content: Content,
    pub pad: usize,
    pub n: u64,
    pub old: u64,
}

impl Form {
    // How many bytes the number has.
    pub fn width(self) -> usize
        ensures { result ≡ (form_of self).width }
    {
        match self.content {
            Content::Number { width, .. } => width.bytes(),
            Content::Blank | Content::List { .. } | Content::Name { .. } => 0,
        }
    }

    // How many bytes an element of the list or name has; none where there is no list.
    pub fn unit(self) -> Option<usize>
        ensures listed { is_some result ≡ (form_of self).list }
        ensures value { unwrap_or result 1 ≡ (form_of self).unit }
    {
        match self.content {
            Content::Blank | Content::Number { .. } => None,
            Content::List { unit, .. } => Some(unit),
            Content::Name { .. } => Some(1),
        }
    }
}

// Zero bytes alone: "Ignored bytes, written as zero".
// kept: a Spot is of another type, and a struct update copies from a value of the same type alone.
fn blank(c: Spot, pad: usize) -> Form
    ensures { form_of result ≡ blank_form (cursor_of c) pad }
{
    Form {
        content: Content::Blank,
        pad,
        n: c.n,
        old: c.old,
    }
}

fn number(width: Width, top: u64, eights: bool, n: u64, old: u64) -> Form
    ensures { form_of result ≡ number_form (bytes width) top eights n old }
{
    Form {
        content: Content::Number { width, top, eights },
        pad: 0,
        n,
        old,
    }
}

fn list(c: Spot, unit: usize, want: u64, pad: usize) -> Form
    ensures { form_of result ≡ list_form (cursor_of c) unit want pad }
{
    Form {
        content: Content::List { unit, want },
        ..blank(c, pad)
    }
}

// A name, its zero, and zero bytes up to the next multiple of 8.
fn name(c: Spot, count: u64) -> Form
    ensures { form_of result ≡ name_form (cursor_of c) count (8 - (c.at + count) % 8) }
{
    let over = (c.at % 8 + count as usize % 8) % 8;
    Form {
        content: Content::Name { want: count },
        ..blank(c, 8 - over)
    }
}

// "If the abi is 0, none follow"; else as many registers as the mask has ones.
fn registers(abi: u64, mask: u64) -> u64
    ensures { result ≡ cond (eqb abi 0) 0 (ones 64 mask) }
{
    if abi == 0 {
        0
    } else {
        wire::count_ones(mask) as u64
    }
}

// The filled length of a stack; none where the stack's size is 0.
fn filled(c: Spot) -> Form
    ensures { form_of result ≡ number_form (cond (eqb c.n 0) 0 8) c.n false c.n c.old }
{
    if c.n == 0 {
        return blank(c, 0);
    }
    number(Width::W8, c.n, false, c.n, c.old)
}

// A build id: so many bytes, of which the first are listed, as many as the count says; the others are zero.
fn build_id(c: Spot, k: usize) -> Form
    ensures { form_of result ≡ list_form (cursor_of c) 1 (k - (k - c.n)) (k - (k - (k - c.n))) }
{
    let want = c.n.min(k as u64);
    list(c, 1, want, k - want as usize)
}

#[tactic(auto, unfolding(crate::specs::Forms::shape_form))]
fn of_shape(shape: Shape, c: Spot, s: Given) -> Form
    ensures { form_of result ≡ shape_form shape (cursor_of c) (slot_of s) }
{
    match shape {
        Shape::Number(w) => number(w, w.largest(), false, c.n, c.old),
        Shape::Ignored(k) => blank(c, k),
        Shape::Count(w) => number(w, w.largest(), false, s.number, c.n),
        Shape::Size(w) => number(w, w.largest(), true, s.number, c.old),
        Shape::Times(k) => list(c, k, c.n, 0),
        Shape::Earlier(k) => list(c, k, c.old, 0),
        Shape::Registers => list(c, 8, c.n, 0),
        Shape::Filled => filled(c),
        Shape::Abi(mask) => number(Width::W8, u64::MAX, false, registers(s.number, mask), c.old),
        Shape::Limit(most) => number(Width::W1, most.min(255), false, s.number, c.old),
        Shape::Listed(k) => build_id(c, k),
        Shape::Bytes(k) => list(c, 1, k as u64, 0),
        Shape::Pad => blank(c, (8 - c.at % 8) % 8),
        Shape::Name => name(c, s.count),
    }
}

pub fn of_item(i: Item, c: Spot, s: Given) -> Form
    ensures { form_of result ≡ form i (cursor_of c) (slot_of s) }
{
    if i.on {
        of_shape(i.shape, c, s)
    } else {
        blank(c, 0)
    }
}
