// An entry of a recorded trace (M-106): a record that is offered, a drain, or the fault that ends the replay.
#![tactic(auto)]

ghost use Rattle.std.specs.Prelude.{◌≡◌, Some, IfOk};
ghost use Rattle.meaning.specs.Reasons.{answer_of};
ghost use Rattle.entries.specs.Entries.{entry_of};
ghost use Rattle.runs.specs.Cutting.{framed};
ghost use Rattle.replay.specs.Replay.{of_store, fault_at};
ghost use Rattle.replay_entries.specs.Steps.{asked, size_of, StepIs};

use entries::{Entry, EntryKind};
use meaning::Reason;

// What an entry of a trace asks for.
#[derive(Clone, Copy, Debug, PartialEq, Eq)]
pub enum Step<'a> {
    // to offer the record that its body is
    Offer(&'a [u8]),
    // to drain, with that budget
    Drain(u64),
}

impl Step<'_> {
    // The bytes of the entry's body.
    pub fn size(self) -> usize
        ensures { result ≡ size_of self.entry }
    {
        match self {
            Step::Offer(record) => record.len(),
            Step::Drain(_) => 4,
        }
    }
}

// An entry of a store of settings, which is out of place in a trace.
fn of_store(e: Entry) -> bool
    ensures { result ≡ of_store (entry_of (Some e)) }
{
    let n = e.length;
    if e.is_of(EntryKind::Version) {
        return n == 2;
    }
    if e.is_of(EntryKind::Event) {
        return (n == 49) | (n == 50);
    }
    if e.is_of(EntryKind::Last) {
        return n == 13;
    }
    false
}

// One record by its own header: its size is one that 6 lets pass, and the body's length.
fn one_record(r: &[u8]) -> bool
    ensures { result ≡ framed r.now }
{
    if r.len() < 8 {
        return false;
    }
    let size = wire::u16_at(r, 6) as usize;
    if size < 8 {
        return false;
    }
    if size % 8 != 0 {
        return false;
    }
    size == r.len()
}

// What the entry at a place asks for; or 51, 52, 53.
pub fn step_at(trace: &[u8], at: usize) -> Result<Step<'_>, Reason>
    ensures answer { answer_of (asked result) ≡ fault_at of_store trace.now at }
    ensures step { IfOk result (StepIs trace.now trace.entry.ref_ptr at) }
{
    let Some(e) = entries::entry_at(trace, at) else {
        return Err(Reason::BrokenEntry);
    };
    let body = e.body;
    let n = e.length;
    if e.is_of(EntryKind::Offer) {
        let record = &trace[body..body + n];
        if one_record(record) {
            return Ok(Step::Offer(record));
        }
        return Err(Reason::BadOffer);
    }
    if e.is_of(EntryKind::Drain) {
        if n == 4 {
            return Ok(Step::Drain(wire::u32_at(trace, body)));
        }
        return Err(Reason::BrokenEntry);
    }
    if of_store(e) {
        return Err(Reason::Misplaced);
    }
    Err(Reason::BrokenEntry)
}
