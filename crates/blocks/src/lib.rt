// The stretches of a record, each as one straight piece of code: the place after it, or why it is refused. And the rule
// of a name's room.
#![tactic(auto)]

ghost use Rattle.std.specs.Prelude.{◌≡◌, true, List, Ok, Err, ◌+◌, ◌-◌, ◌*◌, ◌≤◌, ◌<◌, ◌^◌, length};
ghost use Rattle.meaning.specs.declared.Item.{Item};
ghost use Rattle.meaning.specs.Bytes.{number_at, ones};
ghost use Rattle.meaning.specs.Reasons.{answer_of};
ghost use Rattle.blocks.specs.Seen.{size_bound, place_of, Leaves, Ends};
ghost use Rattle.blocks.specs.Steady.{steady, total};
ghost use Rattle.blocks.specs.Blocks.{counted_list, counted_place, branch_list, raw_bytes, aux_bytes, register_list, stack_bytes, filled_answer, sized_place, size_read};

use meaning::Reason;

pub mod scan;

// Items of one width, whose sum is k.
pub fn sum(s: &[u8], at: usize, k: usize) -> Result<usize, Reason>
    requires { at ≤ length s.now }
    ensures leaves { (is : List Item) → steady is ≡ true → total is ≡ k → Leaves s.now is at (place_of result) }
    ensures at_in_bounds { (place_of result).why ≡ 0 → (place_of result).at ≤ length s.now }
{
    if s.len() - at < k {
        return Err(Reason::TooShort);
    }
    Ok(at + k)
}

// A count, items of one width, and so many elements: `fixed` are the bytes of the count and of what stands before the
// elements. The count is bounded before it is multiplied.
pub fn elements(s: &[u8], at: usize, fixed: usize, unit: usize) -> Result<usize, Reason>
    requires at_in_bounds { at ≤ length s.now }
    requires s_len_bound { length s.now < size_bound }
    requires le_fixed { 8 ≤ fixed }
    requires fixed_le_size_bound { fixed ≤ size_bound }
    requires le_unit { 1 ≤ unit }
    requires unit_bound { unit ≤ 24 }
    ensures { place_of result ≡ counted_place s.now at fixed unit }
{
    let left = s.len() - at;
    if left < fixed {
        return Err(Reason::TooShort);
    }
    let n = wire::u64_at(s, at);
    if (left as u64) < n {
        return Err(Reason::TooShort);
    }
    let k = fixed + n as usize * unit;
    if left < k {
        return Err(Reason::TooShort);
    }
    Ok(at + k)
}

// The same where it is selected, with nothing between count and elements.
// kept: each stretch asks for itself whether it is on: a closure over what follows is no plainer than this one line.
pub fn counted(s: &[u8], at: usize, on: bool, unit: usize) -> Result<usize, Reason>
    requires at_in_bounds { at ≤ length s.now }
    requires s_len_bound { length s.now < size_bound }
    requires le_unit { 1 ≤ unit }
    requires unit_bound { unit ≤ 24 }
    ensures { Ends s.now (counted_list on unit) at (place_of result) }
{
    if !on {
        return Ok(at);
    }
    elements(s, at, 8, unit)
}

// Branches: a count, the hardware index if there is one, and so many entries of 24 bytes.
pub fn branches(s: &[u8], at: usize, on: bool, index: bool) -> Result<usize, Reason>
    requires at_in_bounds { at ≤ length s.now }
    requires s_len_bound { length s.now < size_bound }
    ensures { Ends s.now (branch_list on index) at (place_of result) }
{
    if !on {
        return Ok(at);
    }
    let fixed = if index { 16 } else { 8 };
    elements(s, at, fixed, 24)
}

// The size that a record states before some of its bytes, where it is there.
// kept: two functions, of a width each, and none of both: the compiler joins a number's halves before it sees that a
// rule looks at the lowest bits alone; else it reads the halves apart.
fn size4(s: &[u8], at: usize) -> Result<u64, Reason>
    requires { at ≤ length s.now }
    ensures { size_read s.now at 4 result }
{
    if s.len() - at < 4 {
        return Err(Reason::TooShort);
    }
    Ok(wire::u32_at(s, at))
}

fn size8(s: &[u8], at: usize) -> Result<u64, Reason>
    requires { at ≤ length s.now }
    ensures { size_read s.now at 8 result }
{
    if s.len() - at < 8 {
        return Err(Reason::TooShort);
    }
    Ok(wire::u64_at(s, at))
}

// So many bytes as the size before them says, which is of `width` bytes and stands at `at`, with `left` bytes from
// there on; size and bytes together are a multiple of 8.
fn sized(at: usize, left: usize, width: usize, n: u64) -> Result<usize, Reason>
    requires width_in_bounds { width ≤ left }
    requires width_bound { width ≤ 8 }
    requires left_fits { at + left < 2 ^ 64 }
    ensures { place_of result ≡ sized_place at left width n }
{
    if (n % 8 + width as u64) % 8 != 0 {
        return Err(Reason::InnerRule);
    }
    if ((left - width) as u64) < n {
        return Err(Reason::TooShort);
    }
    Ok(at + width + n as usize)
}

// Raw: a size of four bytes, and so many bytes.
pub fn raw(s: &[u8], at: usize, on: bool) -> Result<usize, Reason>
    requires { at ≤ length s.now }
    ensures leaves { Leaves s.now (raw_bytes on) at (place_of result) }
    ensures at_in_bounds { (place_of result).why ≡ 0 → (place_of result).at ≤ length s.now }
{
    if !on {
        return Ok(at);
    }
    let n = size4(s, at)?;
    sized(at, s.len() - at, 4, n)
}

// Aux: a size of eight bytes, and so many bytes.
pub fn aux(s: &[u8], at: usize, on: bool) -> Result<usize, Reason>
    requires { at ≤ length s.now }
    ensures leaves { Leaves s.now (aux_bytes on) at (place_of result) }
    ensures at_in_bounds { (place_of result).why ≡ 0 → (place_of result).at ≤ length s.now }
{
    if !on {
        return Ok(at);
    }
    let n = size8(s, at)?;
    sized(at, s.len() - at, 8, n)
}

// Registers: an abi word; `wide` bytes of registers follow, or none where it is 0.
pub fn registers(s: &[u8], at: usize, on: bool, mask: u64, wide: usize) -> Result<usize, Reason>
    requires at_in_bounds { at ≤ length s.now }
    requires wide_value { on ≡ true → wide ≡ ones 64 mask * 8 }
    ensures leaves { Leaves s.now (register_list on mask) at (place_of result) }
    ensures at_in_bounds_2 { (place_of result).why ≡ 0 → (place_of result).at ≤ length s.now }
{
    if !on {
        return Ok(at);
    }
    let left = s.len() - at;
    if left < 8 {
        return Err(Reason::TooShort);
    }
    if wire::u64_at(s, at) == 0 {
        return Ok(at + 8);
    }
    if left - 8 < wide {
        return Err(Reason::TooShort);
    }
    Ok(at + 8 + wide)
}

// What follows the bytes of a stack that is not empty: the filled length, at most its size.
fn filled(s: &[u8], at: usize, size: u64) -> Result<(), Reason>
    requires { at ≤ length s.now }
    ensures { answer_of result ≡ filled_answer s.now at size }
{
    if s.len() - at < 8 {
        return Err(Reason::TooShort);
    }
    if size < wire::u64_at(s, at) {
        return Err(Reason::InnerRule);
    }
    Ok(())
}

// The stack: a size, so many bytes, and the filled length where the size is not 0.
pub fn stack(s: &[u8], at: usize, on: bool) -> Result<usize, Reason>
    requires { at ≤ length s.now }
    ensures leaves { Leaves s.now (stack_bytes on) at (place_of result) }
    ensures at_in_bounds { (place_of result).why ≡ 0 → (place_of result).at ≤ length s.now }
{
    if !on {
        return Ok(at);
    }
    let n = size8(s, at)?;
    let end = sized(at, s.len() - at, 8, n)?;
    if n == 0 {
        return Ok(end);
    }
    filled(s, end, n)?;
    Ok(end + 8)
}
