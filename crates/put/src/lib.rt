// Bytes put into lent slices: runs copied or zeroed, numbers written, the lowest byte first. What does not fit leaves
// the slice as it was. Every definition is of crate `meaning`, file Bytes.
#![tactic(auto)]

ghost use Rattle.std.specs.Prelude.{◌≡◌, ◌≤◌};
ghost use Rattle.meaning.specs.Bytes.{spell, zeros, put};

// Copies src into dst from `at` on; where it does not fit, dst stays as it was.
pub fn copy_at(src: &[u8], dst: &mut [u8], at: usize)
    ensures { dst.new ≡ put dst.old at src.now }
{
    if dst.len() < at {
        return;
    }
    if dst.len() - at < src.len() {
        return;
    }
    dst[at..at + src.len()].copy_from_slice(src);
}

// Writes k zero bytes into dst from `at` on; where they do not fit, dst stays as it was.
pub fn zero_at(dst: &mut [u8], at: usize, k: usize)
    ensures { dst.new ≡ put dst.old at (zeros k) }
{
    if dst.len() < at {
        return;
    }
    if dst.len() - at < k {
        return;
    }
    // kept: a loop, and not `fill`, which writes the last one apart from the others
    for byte in &mut dst[at..at + k] {
        *byte = 0;
    }
}

// The N bytes of a number, the lowest first; what is above them is left out.
fn bytes_of<const N: usize>(x: u64) -> [u8; N]
    ensures { result ≡ spell N x }
{
    let mut bytes = [0; N];
    let mut rest = x;
    for byte in &mut bytes {
        *byte = (rest % 256) as u8;
        rest /= 256;
    }
    bytes
}

pub fn le16(x: u64) -> [u8; 2]
    ensures { result ≡ spell 2 x }
{
    bytes_of(x)
}

pub fn le32(x: u64) -> [u8; 4]
    ensures { result ≡ spell 4 x }
{
    bytes_of(x)
}

pub fn le64(x: u64) -> [u8; 8]
    ensures { result ≡ spell 8 x }
{
    bytes_of(x)
}

// x written at `at` in N bytes; where they do not fit, d stays as it was.
fn put_number<const N: usize>(d: &mut [u8], at: usize, x: u64)
    requires { N ≤ 8 }
    ensures { d.new ≡ put d.old at (spell N x) }
{
    copy_at(&bytes_of::<N>(x), d, at);
}

// The same by width.
pub fn put8(d: &mut [u8], at: usize, x: u64)
    ensures { d.new ≡ put d.old at (spell 1 x) }
{
    put_number::<1>(d, at, x);
}

pub fn put16(d: &mut [u8], at: usize, x: u64)
    ensures { d.new ≡ put d.old at (spell 2 x) }
{
    put_number::<2>(d, at, x);
}

pub fn put32(d: &mut [u8], at: usize, x: u64)
    ensures { d.new ≡ put d.old at (spell 4 x) }
{
    put_number::<4>(d, at, x);
}

pub fn put64(d: &mut [u8], at: usize, x: u64)
    ensures { d.new ≡ put d.old at (spell 8 x) }
{
    put_number::<8>(d, at, x);
}
