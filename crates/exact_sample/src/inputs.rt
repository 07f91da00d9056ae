// Attributes and their sums, as the exact judge of a SAMPLE takes them.
ghost use Rattle.std.specs.Prelude.{◌≡◌, false};
ghost use Rattle.exact.specs.Stretches.{Sums, weights};

use meaning::Attributes;

// Attributes with one weight at most, as those of a SAMPLE that is read, and the sums that they fix.
#[derive(Clone, Copy)]
pub struct Summed<'a> {
    pub a: Attributes,
    pub sums: &'a [u64; 8],
    pub ghost right: { Sums a sums.now },
    pub ghost single: { weights a ≡ false },
}
