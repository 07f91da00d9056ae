// A name's room, sixteen bytes at a time.
ghost use Rattle.std.specs.Prelude.{◌≡◌, ◌+◌, ◌-◌, ◌%◌, ◌≤◌, length};
ghost use Rattle.blocks.specs.Scan.{has_zero, name_ok};

// Is one of the N bytes from a place on zero? All of them are looked at, so that sixteen are one comparison; `any`
// would ask one after the other.
fn zero_among<const N: usize>(s: &[u8], at: usize) -> bool
    requires { at + N ≤ length s.now }
    ensures { result ≡ has_zero N s.now at }
{
    s[at..at + N]
        .iter()
        .fold(false, |found, x| found | (*x == 0))
}

// Row 33 for a room of whole words: the first zero is among the last 8 bytes.
pub fn name_ok(s: &[u8], at: usize) -> bool
    requires at_in_bounds { at ≤ length s.now }
    requires at_value { (length s.now - at) % 8 ≡ 0 }
    ensures { result ≡ name_ok s.now at }
{
    if s.len() - at < 8 {
        return false;
    }
    let last = s.len() - 8;
    let (sixteens, rest) = s[at..last].as_chunks::<16>();
    for sixteen in sixteens {
        if zero_among::<16>(sixteen, 0) {
            return false;
        }
    }
    if rest.len() == 8 {
        if zero_among::<8>(s, last - 8) {
            return false;
        }
    }
    zero_among::<8>(s, last)
}
