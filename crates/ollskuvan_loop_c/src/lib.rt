// The library for C: the drain and the walk over a backward ring, with one attribute set. Each export has the whole contract of the function that it calls.
#![tactic(auto)]

ghost use Rattle.std.specs.Prelude.{◌≡◌};
ghost use Rattle.meaning.specs.Editions.{editions};
ghost use Rattle.meaning.specs.Drain.{told, drain};
ghost use Rattle.meaning.specs.Backward.{walk_told, walk_back};
ghost use Rattle.given.specs.Given.{given};

use meaning::{Drained, Walked};

#[unsafe(no_mangle)]
pub extern "C" fn ollskuvan_drain(
    ring: &[u8],
    head: u64,
    tail: u64,
    sample: u64,
    format: u64,
    all: u32,
    user: u64,
    interrupt: u64,
    branch: u64,
    edition: u32,
    budget: u64,
    scratch: &mut [u8],
    journal: &mut [u8],
) -> Drained
    ensures value { result ≡ told (drain editions edition (given sample format all user interrupt branch) ring.now head tail budget journal.old scratch.old) }
    ensures journal_after { journal.new ≡ (drain editions edition (given sample format all user interrupt branch) ring.now head tail budget journal.old scratch.old).state.journal }
    ensures scratch_after { scratch.new ≡ (drain editions edition (given sample format all user interrupt branch) ring.now head tail budget journal.old scratch.old).state.scratch }
{
    ollskuvan_loop::ollskuvan_drain(
        ring, head, tail, sample, format, all, user, interrupt, branch, edition, budget, scratch,
        journal,
    )
}

#[unsafe(no_mangle)]
pub extern "C" fn ollskuvan_walk_back(
    ring: &[u8],
    head: u64,
    sample: u64,
    format: u64,
    all: u32,
    user: u64,
    interrupt: u64,
    branch: u64,
    edition: u32,
    budget: u64,
    scratch: &mut [u8],
    journal: &mut [u8],
) -> Walked
    ensures value { result ≡ walk_told (walk_back editions edition (given sample format all user interrupt branch) ring.now head budget journal.old scratch.old) }
    ensures journal_after { journal.new ≡ (walk_back editions edition (given sample format all user interrupt branch) ring.now head budget journal.old scratch.old).state.journal }
    ensures scratch_after { scratch.new ≡ (walk_back editions edition (given sample format all user interrupt branch) ring.now head budget journal.old scratch.old).state.scratch }
{
    ollskuvan_loop::ollskuvan_walk_back(
        ring, head, sample, format, all, user, interrupt, branch, edition, budget, scratch, journal,
    )
}
