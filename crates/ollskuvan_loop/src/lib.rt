// What C calls, with one attribute set: the drain and the walk over a backward ring. They stand apart from the other exports so that the exact judge has
// one caller in their archive and is compiled into the loop.
#![tactic(auto)]

ghost use Rattle.std.specs.Prelude.{◌≡◌};
ghost use Rattle.meaning.specs.Editions.{editions};
ghost use Rattle.meaning.specs.Drain.{told, drain};
ghost use Rattle.meaning.specs.Backward.{walk_told, walk_back};
ghost use Rattle.given.specs.Given.{given};

use meaning::{Drained, Walked};

#[unsafe(no_mangle)]
pub extern "C" fn ollskuvan_drain(
    ring: &[u8],
    head: u64,
    tail: u64,
    sample: u64,
    format: u64,
    all: u32,
    user: u64,
    interrupt: u64,
    branch: u64,
    edition: u32,
    budget: u64,
    scratch: &mut [u8],
    journal: &mut [u8],
) -> Drained
    ensures value { result ≡ told (drain editions edition (given sample format all user interrupt branch) ring.now head tail budget journal.old scratch.old) }
    ensures journal_after { journal.new ≡ (drain editions edition (given sample format all user interrupt branch) ring.now head tail budget journal.old scratch.old).state.journal }
    ensures scratch_after { scratch.new ≡ (drain editions edition (given sample format all user interrupt branch) ring.now head tail budget journal.old scratch.old).state.scratch }
{
    let a = given::attributes(sample, format, all, user, interrupt, branch);
    let e = edition as u64;
    fast_drain::drain(ring, head, tail, e, a, budget, scratch, journal)
}

// A backward ring, from head upward: the newest record is the first. No tail moves.
#[unsafe(no_mangle)]
pub extern "C" fn ollskuvan_walk_back(
    ring: &[u8],
    head: u64,
    sample: u64,
    format: u64,
    all: u32,
    user: u64,
    interrupt: u64,
    branch: u64,
    edition: u32,
    budget: u64,
    scratch: &mut [u8],
    journal: &mut [u8],
) -> Walked
    ensures value { result ≡ walk_told (walk_back editions edition (given sample format all user interrupt branch) ring.now head budget journal.old scratch.old) }
    ensures journal_after { journal.new ≡ (walk_back editions edition (given sample format all user interrupt branch) ring.now head budget journal.old scratch.old).state.journal }
    ensures scratch_after { scratch.new ≡ (walk_back editions edition (given sample format all user interrupt branch) ring.now head budget journal.old scratch.old).state.scratch }
{
    let a = given::attributes(sample, format, all, user, interrupt, branch);
    let e = edition as u64;
    walk_back::walk_back(ring, head, e, a, budget, scratch, journal)
}
