// The attributes from C's numbers: sample_id_all is a number of 32 bits, and any but 0 is set.
#![tactic(auto)]

ghost use Rattle.std.specs.Prelude.{◌≡◌};
ghost use Rattle.given.specs.Given.{given};

use meaning::Attributes;

// kept: six numbers, as the C interface hands them one by one: no value of one type, which a `From` takes.
pub fn attributes(
    sample: u64,
    format: u64,
    all: u32,
    user: u64,
    interrupt: u64,
    branch: u64,
) -> Attributes
    ensures { result ≡ given sample format all user interrupt branch }
{
    Attributes {
        sample,
        format,
        all: all != 0,
        user,
        interrupt,
        branch,
    }
}
