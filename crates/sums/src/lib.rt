// The sums that the attributes fix: eight bytes for each bit of a mask that is set.
#![tactic(auto)]

ghost use Rattle.std.specs.Prelude.{◌≡◌, cond, ◌*◌, ◌≤◌};
ghost use Rattle.meaning.specs.Bytes.{ones};
ghost use Rattle.exact.specs.Stretches.{group_fixed};
ghost use Rattle.sums.specs.Sums.{sum_over, sum_most, read_most, read_sum, reads_of, sums_of};

use meaning::Attributes;

// Identifier (16), ip, pid and tid, time, addr (0 to 3), id, cpu, period, stream id (6 to 9).
const FIRST_BITS: u64 = 66511;

// Weight (14, 24), data source, transaction; physical address (19), cgroup, data and code page size (21 to 23).
const EARLY_BITS: u64 = 16957440;

const AFTER_BITS: u64 = 15204352;

const LAST_BITS: u64 = EARLY_BITS + AFTER_BITS;

// Counting the ones of a number costs a dozen instructions, so it is asked first whether there are any.
fn eights(x: u64, mask: u64) -> u64
    ensures { (result ≡ sum_over x mask) × (result ≤ sum_most) }
{
    let y = x & mask;
    if y == 0 {
        return 0;
    }
    (wire::count_ones(y) * 8) as u64
}

// Enabled and running time (0, 1), id (2), lost count (4); of a group the times alone stand before its elements.
const READ_BITS: u64 = 23;

const TIME_BITS: u64 = 3;

// Read values that are no group: the value, and a word for each of bits 0, 1, 2 and 4.
pub fn read_values(a: Attributes) -> u64
    ensures { (result ≡ read_sum a) × (result ≤ read_most) }
{
    8 + eights(a.format, READ_BITS)
}

// Those of a SAMPLE.
fn reads(a: Attributes) -> u64
    ensures { (result ≡ reads_of a) × (result ≤ read_most) }
{
    if wire::has_bit(a.sample, 4) & !wire::has_bit(a.format, 3) {
        read_values(a)
    } else {
        0
    }
}

// "As many registers as the mask has ones".
fn registers(on: bool, mask: u64) -> u64
    ensures { result ≡ cond on (ones 64 mask * 8) 0 }
{
    if on {
        (wire::count_ones(mask) * 8) as u64
    } else {
        0
    }
}

// Of a group: its count, and the times.
pub fn group(a: Attributes) -> u64
    ensures { (result ≡ group_fixed a.format) × (result ≤ read_most) }
{
    8 + eights(a.format, TIME_BITS)
}

// The table of sums, in the order of `exact`'s names for its places.
pub fn sums(a: Attributes) -> [u64; 8]
    ensures { result ≡ sums_of a }
{
    let x = a.sample;
    let trail = record::trailer_room(1, a) as u64;
    let first = eights(x, FIRST_BITS) + reads(a);
    let last = eights(x, LAST_BITS);
    let user = registers(wire::has_bit(x, 12), a.user);
    let early = eights(x, EARLY_BITS);
    let after = eights(x, AFTER_BITS);
    let interrupt = registers(wire::has_bit(x, 18), a.interrupt);
    [trail, first, last, user, early, after, interrupt, group(a)]
}
