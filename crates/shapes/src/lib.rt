// The steps over items that a rule looks at, or that later items are counted by: names, counts, sizes, registers. Each
// is proved against the one definition `shape_step`.
#![tactic(auto)]

ghost use Rattle.std.specs.Prelude.{◌≡◌, ◌+◌, ◌≤◌, length, drop};
ghost use Rattle.meaning.specs.declared.Shape.TheVariants.{Count, Size, Filled, Abi, Limit, Name};
ghost use Rattle.meaning.specs.Bytes.{number_at, zero_in};
ghost use Rattle.meaning.specs.Items.{bytes, shape_step};
ghost use Rattle.meaning.specs.Reasons.{cursor_of, stepped};

use meaning::{Reason, Spot, Width};

// ---- names

// The next zero byte from a place on, or the end.
pub fn zero_from(s: &[u8], at: usize) -> usize
    requires { at ≤ length s.now }
    ensures { (result ≡ at + zero_in (drop at s.now)) × (result ≤ length s.now) }
{
    let rest = &s[at..];
    at + rest
        .iter()
        .position(|&byte| byte == 0)
        .unwrap_or(rest.len())
}

// "33: no zero byte in the name's room, or the first is not among its last 8 bytes". A room of no bytes has none.
pub fn name(s: &[u8], c: Spot) -> Result<Spot, Reason>
    ensures { stepped c result ≡ shape_step Name (cursor_of c) (drop c.at s.now) }
{
    if s.len() <= c.at {
        return Err(Reason::NameZero);
    }
    let z = zero_from(s, c.at);
    if z == s.len() {
        return Err(Reason::NameZero);
    }
    if 8 < s.len() - z {
        return Err(Reason::NameZero);
    }
    Ok(Spot { at: s.len(), ..c })
}

// ---- numbers that later items are counted by, or that a rule looks at

// The number of a width at a place inside the slice.
pub fn word_at(s: &[u8], at: usize, w: Width) -> u64
    requires { at + bytes w ≤ length s.now }
    ensures { result ≡ number_at (bytes w) s.now at }
{
    match w {
        Width::W1 => wire::u8_at(s, at),
        Width::W2 => wire::u16_at(s, at),
        Width::W4 => wire::u32_at(s, at),
        Width::W8 => wire::u64_at(s, at),
    }
}

// The count before it stays remembered too: TEXT_POKE has two before its two texts.
pub fn count(s: &[u8], c: Spot, w: Width) -> Result<Spot, Reason>
    ensures { stepped c result ≡ shape_step (Count w) (cursor_of c) (drop c.at s.now) }
{
    let k = w.bytes();
    if s.len().saturating_sub(c.at) < k {
        return Err(Reason::TooShort);
    }
    Ok(Spot {
        at: c.at + k,
        n: word_at(s, c.at, w),
        old: c.n,
    })
}

// "Raw size plus 4 is a multiple of 8; stack and aux sizes are multiples of 8": a size and its own bytes. "At one size
// word 32 comes before 30": the bytes that it counts are the next item's.
pub fn sized(s: &[u8], c: Spot, w: Width) -> Result<Spot, Reason>
    ensures { stepped c result ≡ shape_step (Size w) (cursor_of c) (drop c.at s.now) }
{
    let k = w.bytes();
    if s.len().saturating_sub(c.at) < k {
        return Err(Reason::TooShort);
    }
    let n = word_at(s, c.at, w);
    if (n % 8 + k as u64) % 8 != 0 {
        return Err(Reason::InnerRule);
    }
    Ok(Spot {
        at: c.at + k,
        n,
        ..c
    })
}

// "Filled length at most stack size"; a stack of size 0 has none.
pub fn filled(s: &[u8], c: Spot) -> Result<Spot, Reason>
    ensures { stepped c result ≡ shape_step Filled (cursor_of c) (drop c.at s.now) }
{
    let size = c.n;
    if size == 0 {
        return Ok(c);
    }
    if s.len().saturating_sub(c.at) < 8 {
        return Err(Reason::TooShort);
    }
    if size < wire::u64_at(s, c.at) {
        return Err(Reason::InnerRule);
    }
    Ok(Spot { at: c.at + 8, ..c })
}

// "An abi word, then as many registers as the mask has ones; if the abi is 0, none follow."
pub fn abi(s: &[u8], c: Spot, mask: u64) -> Result<Spot, Reason>
    ensures { stepped c result ≡ shape_step (Abi mask) (cursor_of c) (drop c.at s.now) }
{
    if s.len().saturating_sub(c.at) < 8 {
        return Err(Reason::TooShort);
    }
    if wire::u64_at(s, c.at) == 0 {
        return Ok(Spot {
            at: c.at + 8,
            n: 0,
            ..c
        });
    }
    Ok(Spot {
        at: c.at + 8,
        n: wire::count_ones(mask) as u64,
        ..c
    })
}

// "Build id size at most 20": 32 even where the record ends inside the bytes that follow.
pub fn limit(s: &[u8], c: Spot, most: u64) -> Result<Spot, Reason>
    ensures { stepped c result ≡ shape_step (Limit most) (cursor_of c) (drop c.at s.now) }
{
    if s.len() <= c.at {
        return Err(Reason::TooShort);
    }
    let n = wire::u8_at(s, c.at);
    if most < n {
        return Err(Reason::InnerRule);
    }
    Ok(Spot {
        at: c.at + 1,
        n,
        ..c
    })
}
