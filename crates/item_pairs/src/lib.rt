// One item of two records passed at once: whether its fields are the same, and where both walks then stand.
#![tactic(auto)]

ghost use Rattle.std.specs.Prelude.{◌≡◌, ◌+◌, ◌≤◌, length};
ghost use Rattle.meaning.specs.Items.{step};
ghost use Rattle.meaning.specs.Reasons.{cursor_of};
ghost use Rattle.compare.specs.Compared.{alike};
ghost use Rattle.extents.specs.Extent.{extent_of, stretch_in, field_in};
ghost use Rattle.item_pairs.specs.Passed.{Passed, both_of};

use extents::{Stretch, Told};
use meaning::{Item, Spot};

// Two numbers with their bytes, each in its own record.
fn same_stretches(s: &[u8], e: Stretch, t: &[u8], g: Stretch) -> bool
    requires e_inside { e.at + e.len ≤ length s.now }
    requires g_inside { g.at + g.len ≤ length t.now }
    ensures { result ≡ alike (field_in s.now (stretch_in e)) (field_in t.now (stretch_in g)) }
{
    if e.num != g.num {
        return false;
    }
    if e.len != g.len {
        return false;
    }
    same_bytes::same_bytes(s, e.at, t, g.at, e.len)
}

// Both items have no field, or both the same.
fn same_fields(s: &[u8], e: Told, t: &[u8], g: Told) -> bool
    requires e_inside { (extent_of e).at + (extent_of e).len ≤ length s.now }
    requires g_inside { (extent_of g).at + (extent_of g).len ≤ length t.now }
    ensures { result ≡ alike (field_in s.now (extent_of e)) (field_in t.now (extent_of g)) }
{
    match e.field {
        Some(left) => match g.field {
            Some(right) => same_stretches(s, left, t, right),
            None => false,
        },
        None => g.field.is_none(),
    }
}

// Where both walks stand after an item: the items' own numbers, and whether the left one has a field.
#[derive(Clone, Copy, Debug, PartialEq, Eq)]
pub struct After {
    pub c: Spot,
    pub d: Spot,
    pub w: u64,
    pub x: u64,
    pub told: bool,
}

// One item whose steps are accepted in both records, from c in s and from d in t; w and x are the numbers of the items
// before. Ok where its fields are the same, Err where they differ; both walks are past it either way.
pub fn pass_item(
    s: &[u8],
    t: &[u8],
    i: Item,
    w: u64,
    x: u64,
    c: Spot,
    d: Spot,
) -> Result<After, After>
    requires at_in_bounds { (c.at ≤ length s.now) × (d.at ≤ length t.now) }
    requires c_value { ((step s.now i (cursor_of c)).why ≡ 0) × ((step t.now i (cursor_of d)).why ≡ 0) }
    ensures { Passed s.now t.now i w x (cursor_of c) (cursor_of d) (both_of result) }
{
    if !i.on {
        return Ok(After {
            c,
            d,
            w: 0,
            x: 0,
            told: false,
        });
    }
    let c1 = fields::step(s, i, c).unwrap();
    let d1 = fields::step(t, i, d).unwrap();
    let e = extents::of_shape(s, i.shape, w, c, c1.at);
    let g = extents::of_shape(t, i.shape, x, d, d1.at);
    let after = After {
        c: c1,
        d: d1,
        w: e.number,
        x: g.number,
        told: e.field.is_some(),
    };
    if !same_fields(s, e, t, g) {
        return Err(after);
    }
    Ok(after)
}
