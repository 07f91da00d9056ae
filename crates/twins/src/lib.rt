// Is a record the same as an accepted one but for ignored bytes? The fields' and the trailer's, each without them, and
// the flag of a name.
#![tactic(auto)]

ghost use Rattle.std.specs.Prelude.{◌≡◌};
ghost use Rattle.twins.specs.Twins.{Beside};
ghost use Rattle.twins.specs.Same.{same_but};

use meaning::Attributes;
use record::flag;

// What stands before `res` in a trailer in eights of bytes, but for the cpu's four: pid and tid, time, id, stream id
// (1, 2, 6, 9).
const TRAILER_BITS: u64 = 582;

// A whole record beside an accepted one: body, trailer, and the flag of a name.
pub fn same_but(x: &[u8], y: &[u8], kind: u64, misc: u64, a: Attributes) -> bool
    requires { Beside x.now y.now kind misc a }
    ensures { result ≡ same_but x.now y.now kind misc a }
{
    let end = x.len() - record::trailer_room(kind, a);
    if !same_parts::body_same(&x[..end], &y[..end], kind, misc, a.sample) {
        return false;
    }
    if !same_parts::around_res(x, y, layouts::trailer_bits(kind, a), TRAILER_BITS, end) {
        return false;
    }
    flag::is_dirty(x, kind, a) == flag::is_dirty(y, kind, a)
}
