// Bytes of two slices compared.
#![tactic(auto)]

ghost use Rattle.std.specs.Prelude.{◌≡◌, ◌+◌, ◌≤◌, length, take, drop};
ghost use Rattle.compare.specs.Compared.{same_bytes};

// n bytes of s from i on, and of t from j on.
pub fn same_bytes(s: &[u8], i: usize, t: &[u8], j: usize, n: usize) -> bool
    requires n_in_bounds { i + n ≤ length s.now }
    requires n_in_bounds_2 { j + n ≤ length t.now }
    ensures { result ≡ same_bytes (take n (drop i s.now)) (take n (drop j t.now)) }
{
    s[i..i + n] == t[j..j + n]
}
