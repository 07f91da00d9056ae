// Two records of a pair (M-108), field by field: where the loop over their fields stands, and its next field.
#![tactic(auto)]

ghost use Rattle.std.specs.Prelude.{◌≡◌, true, false, ◌<◌, ◌≤◌, Ok};
ghost use Rattle.item_pairs.specs.Passed.{both_of};
ghost use Rattle.pair_fields.specs.Inner.{moved, trailing, Ready, FieldsStand, is_alike, is_field, to_go};
ghost use Rattle.pair_fields.specs.States.{pos_of, state_of};

use item_pairs::After;
use meaning::{Attributes, Spot};
use record::flag;

// What is still to be compared of two accepted records of one type, misc and event, whose first k fields are equal: the
// rows from `row` up to `to` come next, in the first `end` bytes of both: those of the body or, where `last` is set,
// those of the trailer. w and x are the numbers of the items before, c and d where the two walks stand.
#[derive(Clone, Copy, Debug, PartialEq, Eq)]
pub struct Rest {
    pub k: u32,
    pub last: bool,
    pub row: usize,
    pub to: usize,
    pub end: usize,
    pub kind: u64,
    pub misc: u64,
    pub a: Attributes,
    pub w: u64,
    pub x: u64,
    pub c: Spot,
    pub d: Spot,
}

// Where the loop over the fields of a pair stands: all are the same, or field k is the first that is not, or some are
// still to come.
#[derive(Clone, Copy, Debug, PartialEq, Eq)]
pub enum State {
    Alike,
    Differs(u32),
    At(Rest),
}

// One row further.
fn moved(p: Rest, b: After) -> Rest
    requires { (p.k ≤ 200) × (p.row ≤ 200) }
    ensures { pos_of result ≡ moved (pos_of p) (both_of (Ok b)) }
{
    let k = if b.told { p.k + 1 } else { p.k };
    Rest {
        k,
        row: p.row + 1,
        w: b.w,
        x: b.x,
        c: b.c,
        d: b.d,
        ..p
    }
}

// One row, in both records.
fn turn(x: &[u8], y: &[u8], p: Rest) -> State
    requires ready { Ready x.now y.now (pos_of p) }
    requires row_value { p.row < p.to }
    ensures fields_stand { FieldsStand (is_alike (pos_of p) x.now y.now) (is_field (pos_of p) x.now y.now) x.now y.now (state_of result) }
    ensures result_bound { to_go (state_of result) < to_go (pos_of p) }
{
    let i = items::item_at(p.a, p.misc, p.kind, p.row);
    match item_pairs::pass_item(&x[..p.end], &y[..p.end], i, p.w, p.x, p.c, p.d) {
        Ok(b) => State::At(moved(p, b)),
        Err(_) => State::Differs(p.k),
    }
}

// "The M-107 flag does, as the last field": of the types that have a name.
fn flag(x: &[u8], y: &[u8], p: Rest) -> State
    requires ready { Ready x.now y.now (pos_of p) }
    requires last_value { (p.last ≡ true) × (p.to ≤ p.row) }
    ensures fields_stand { FieldsStand (is_alike (pos_of p) x.now y.now) (is_field (pos_of p) x.now y.now) x.now y.now (state_of result) }
    ensures result_bound { to_go (state_of result) < to_go (pos_of p) }
{
    let Some(_) = table::flag_at(p.kind) else {
        return State::Alike;
    };
    if flag::is_dirty(x, p.kind, p.a) != flag::is_dirty(y, p.kind, p.a) {
        return State::Differs(p.k);
    }
    State::Alike
}

// From the body's rows to the trailer's, whose eighth is the identifier.
fn trailing(x: &[u8], p: Rest) -> Rest
    ensures { pos_of result ≡ trailing x.now (pos_of p) }
{
    let start = answers::origin(p.end);
    Rest {
        last: true,
        row: table::TRAILER_FROM,
        to: table::TRAILER_TO - 1,
        end: x.len(),
        w: 0,
        x: 0,
        c: start,
        d: start,
        ..p
    }
}

// The next field of both: a row of the body, then a row of the trailer, then the flag.
pub fn next(x: &[u8], y: &[u8], p: Rest) -> State
    requires ready { Ready x.now y.now (pos_of p) }
    ensures fields_stand { FieldsStand (is_alike (pos_of p) x.now y.now) (is_field (pos_of p) x.now y.now) x.now y.now (state_of result) }
    ensures result_bound { to_go (state_of result) < to_go (pos_of p) }
{
    if p.row < p.to {
        return turn(x, y, p);
    }
    if p.last {
        return flag(x, y, p);
    }
    State::At(trailing(x, p))
}
