// The steps over items whose bytes no rule looks at and no count remembers: past them, or 30. Each is proved against
// the one definition `shape_step`; the shapes that are so many ignored bytes, or so many elements, call these two
// (fields::step is the table). The spot goes by value, with the record's fields beside it as a slice: the fields' end
// is the slice's length.
#![tactic(auto)]

ghost use Rattle.std.specs.Prelude.{◌≡◌, ◌*◌, drop};
ghost use Rattle.meaning.specs.declared.Shape.TheVariants.{Ignored};
ghost use Rattle.meaning.specs.Items.{shape_step};
ghost use Rattle.meaning.specs.Reasons.{cursor_of, stepped};

use meaning::{Reason, Spot};

// Bytes that no rule looks at; a place past the end has none left.
pub fn ignored(s: &[u8], c: Spot, k: usize) -> Result<Spot, Reason>
    ensures { stepped c result ≡ shape_step (Ignored k) (cursor_of c) (drop c.at s.now) }
{
    if s.len().saturating_sub(c.at) < k {
        return Err(Reason::TooShort);
    }
    Ok(Spot { at: c.at + k, ..c })
}

// n elements of k bytes each. "A count too large for the record is 30 and is never multiplied first in a way that
// wraps": it is compared with a quotient, and multiplied only where the product is there.
pub fn elements(s: &[u8], c: Spot, n: u64, k: usize) -> Result<Spot, Reason>
    ensures { stepped c result ≡ shape_step (Ignored (n * k)) (cursor_of c) (drop c.at s.now) }
{
    if k == 0 {
        return ignored(s, c, 0);
    }
    let most = s.len().saturating_sub(c.at) / k;
    if most < n as usize {
        return Err(Reason::TooShort);
    }
    ignored(s, c, n as usize * k)
}
