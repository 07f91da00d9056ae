// Bytes in lent slices: little-endian numbers read, single bits; what is written (crate `put`) is passed on.
// Every definition is of crate `meaning`, file Bytes; each reader of a width cites one law over the width.
#![tactic(auto)]

ghost use Rattle.std.specs.Prelude.{◌≡◌, ◌+◌, ◌≤◌, ◌<◌, ◌%◌, length, take, drop};
ghost use Rattle.meaning.specs.Bytes.{number_at, bit, ones};

pub use put::{copy_at, le16, le32, le64, put8, put16, put32, put64, zero_at};

// A byte as a number of 64 bits.
pub fn wide(x: u8) -> u64
    ensures { (result ≡ x) × (result < 256) }
{
    x as u64
}

// The N bytes at a place.
fn bytes_at<const N: usize>(s: &[u8], at: usize) -> [u8; N]
    requires { at + N ≤ length s.now }
    ensures { result ≡ take N (drop at s.now) }
{
    match s[at..at + N].first_chunk::<N>() {
        Some(bytes) => *bytes,
        None => unreachable!(),
    }
}

// "All numbers are little-endian": the number of 1, 2, 4 or 8 bytes that stands at a place inside the slice.
pub fn u8_at(s: &[u8], at: usize) -> u64
    requires { at + 1 ≤ length s.now }
    ensures { (result ≡ number_at 1 s.now at) × (result < 256) }
{
    wide(s[at])
}

pub fn u16_at(s: &[u8], at: usize) -> u64
    requires { at + 2 ≤ length s.now }
    ensures { (result ≡ number_at 2 s.now at) × (result < 65536) }
{
    u16::from_le_bytes(bytes_at(s, at)) as u64
}

pub fn u32_at(s: &[u8], at: usize) -> u64
    requires { at + 4 ≤ length s.now }
    ensures { (result ≡ number_at 4 s.now at) × (result < 4294967296) }
{
    u32::from_le_bytes(bytes_at(s, at)) as u64
}

pub fn u64_at(s: &[u8], at: usize) -> u64
    requires { at + 8 ≤ length s.now }
    ensures { result ≡ number_at 8 s.now at }
{
    u64::from_le_bytes(bytes_at(s, at))
}

// Is bit b of x set?
pub fn has_bit(x: u64, b: u64) -> bool
    requires { b < 64 }
    ensures { result ≡ bit x b }
{
    (x >> b) & 1 == 1
}

// The lowest three bits.
pub fn low3(x: u64) -> u64
    ensures { result ≡ x % 8 }
{
    x & 7
}

// How many bits of x are ones.
pub fn count_ones(x: u64) -> usize
    ensures { (result ≡ ones 64 x) × (result ≤ 64) }
{
    u64::count_ones(x) as usize
}
