// A SAMPLE in stretches, in known order: the fields of one width as sums, the lists between them as blocks.
#![tactic(auto)]

ghost use Rattle.std.specs.Prelude.{◌≡◌, true, ◌*◌, ◌≤◌, ◌<◌, length};
ghost use Rattle.meaning.specs.Bytes.{bit, ones};
ghost use Rattle.meaning.specs.Schema.{sample, sample_last};
ghost use Rattle.meaning.specs.Reasons.{answer_of};
ghost use Rattle.blocks.specs.Seen.{size_bound, place_of, Ends, Closes};
ghost use Rattle.exact.specs.Stretches.{front, lists, state, weighed, paged};

pub use inputs::Summed;
use meaning::{Attributes, Reason};

pub mod inputs;

// The first fields; the read values of a group.
fn front(s: &[u8], w: Summed) -> Result<usize, Reason>
    requires in_bounds { 8 ≤ length s.now }
    requires s_len_bound { length s.now < size_bound }
    ensures { Ends s.now (front w.entry.a) 8 (place_of result) }
{
    let at = blocks::sum(s, 8, w.sums[exact::FIRST] as usize)?;
    if wire::has_bit(w.a.sample, 4) && wire::has_bit(w.a.format, 3) {
        let unit = layouts::group_bytes(w.a.format);
        return blocks::elements(s, at, w.sums[exact::GROUP] as usize, unit);
    }
    Ok(at)
}

// Callchain, raw, branches with the hardware index.
fn lists(s: &[u8], at: usize, a: Attributes) -> Result<usize, Reason>
    requires at_in_bounds { at ≤ length s.now }
    requires s_len_bound { length s.now < size_bound }
    ensures { Ends s.now (lists a) at (place_of result) }
{
    let x = a.sample;
    let past = blocks::counted(s, at, wire::has_bit(x, 5), 8)?;
    let then = blocks::raw(s, past, wire::has_bit(x, 10))?;
    let index = wire::has_bit(a.branch, 17);
    blocks::branches(s, then, wire::has_bit(x, 11), index)
}

// User registers, user stack.
fn state(s: &[u8], at: usize, a: Attributes, wide: usize) -> Result<usize, Reason>
    requires at_in_bounds { at ≤ length s.now }
    requires wide_value { bit a.sample 12 ≡ true → wide ≡ ones 64 a.user * 8 }
    ensures { Ends s.now (state a) at (place_of result) }
{
    let x = a.sample;
    let past = blocks::registers(s, at, wire::has_bit(x, 12), a.user, wide)?;
    blocks::stack(s, past, wire::has_bit(x, 13))
}

// Weight to transaction, then interrupt registers.
fn weighed(s: &[u8], at: usize, w: Summed) -> Result<usize, Reason>
    requires { at ≤ length s.now }
    ensures { Ends s.now (weighed w.entry.a) at (place_of result) }
{
    let past = blocks::sum(s, at, w.sums[exact::EARLY] as usize)?;
    let wide = w.sums[exact::INTERRUPT] as usize;
    blocks::registers(s, past, wire::has_bit(w.a.sample, 18), w.a.interrupt, wide)
}

// Physical address to code page size, then aux.
fn paged(s: &[u8], at: usize, w: Summed) -> Result<usize, Reason>
    requires { at ≤ length s.now }
    ensures { Ends s.now (paged w.entry.a) at (place_of result) }
{
    let past = blocks::sum(s, at, w.sums[exact::AFTER] as usize)?;
    blocks::aux(s, past, wire::has_bit(w.a.sample, 20))
}

// The last fields, up to the record's end. With neither interrupt registers nor aux they are one sum.
fn rest(s: &[u8], at: usize, w: Summed) -> Result<(), Reason>
    requires { at ≤ length s.now }
    ensures { Closes s.now (sample_last w.entry.a) at (answer_of result) }
{
    let late = wire::has_bit(w.a.sample, 18) | wire::has_bit(w.a.sample, 20);
    if !late {
        let left = s.len() - at;
        let last = w.sums[exact::LAST] as usize;
        if left == last {
            return Ok(());
        }
        return exact::sized(left, last);
    }
    let past = weighed(s, at, w)?;
    exact::ended(s.len(), paged(s, past, w))
}

// The answer for a SAMPLE's bytes: it has no trailer, and two weights are refused before (24).
pub fn sample(s: &[u8], w: Summed) -> Result<(), Reason>
    requires in_bounds { 8 ≤ length s.now }
    requires s_len_bound { length s.now < size_bound }
    ensures { Closes s.now (sample w.entry.a) 8 (answer_of result) }
{
    let past = front(s, w)?;
    let then = lists(s, past, w.a)?;
    let late = state(s, then, w.a, w.sums[exact::USER] as usize)?;
    rest(s, late, w)
}
