// Two rings compared (M-108): the loop over records, and for each pair the loop over its fields, which ends at the
// first that differs.
#![tactic(auto)]

ghost use Rattle.std.specs.Prelude.{◌≡◌, true, false, MatchOption, MatchResult, Ok, Some, ◌&&◌};
ghost use Rattle.meaning.specs.Editions.{editions, known};
ghost use Rattle.meaning.specs.Events.{all_marked, asked_events};
ghost use Rattle.meaning.specs.Reasons.{frame_of};
ghost use Rattle.runs.specs.Cutting.{framed};
ghost use Rattle.compare.specs.Fields.{fields};
ghost use Rattle.compare.specs.Compared.{alike, agree, report, event_reads, side_of, compared, scratch_then};
ghost use Rattle.compare.specs.Turns.{end_of};

use compare::Compared;
use meaning::{Event, Found, Reason};
use pair_fields::State;

// kept: `what` and `stop` are the C interface's numbers, of which crate compare tells.
fn tell(what: u32, stop: u16, records: u64, field: u32) -> Compared
    ensures { result ≡ report what stop records field }
{
    Compared {
        records,
        what,
        field,
        stop: stop as u32,
    }
}

// The next records of both sides; or what is told where one side does not go on: left is asked first.
fn next_pair(
    left: Result<Option<Found>, Reason>,
    right: Result<Option<Found>, Reason>,
    n: u64,
) -> Result<(Found, Found), Compared>
    ensures { MatchResult result (λ pair. (left ≡ Ok (Some pair.0)) × (right ≡ Ok (Some pair.1))) (λ told. ((frame_of left).go && (frame_of right).go ≡ false) × (told ≡ end_of (frame_of left) (frame_of right) n)) }
{
    match left {
        Err(reason) => Err(tell(4, reason.number(), n, 0)),
        Ok(None) => match right {
            Err(reason) => Err(tell(5, reason.number(), n, 0)),
            Ok(None) => Err(tell(0, 0, n, 0)),
            Ok(Some(_)) => Err(tell(2, 0, n, 0)),
        },
        Ok(Some(f)) => match right {
            Err(reason) => Err(tell(5, reason.number(), n, 0)),
            Ok(None) => Err(tell(3, 0, n, 0)),
            Ok(Some(g)) => Ok((f, g)),
        },
    }
}

// The first field in which two records differ, if they do.
fn differing(x: &[u8], y: &[u8], e: u64, events: &[Event]) -> Option<u32>
    requires x_value { (framed x.now ≡ true) × (framed y.now ≡ true) }
    requires events_value { all_marked events.now ≡ true }
    ensures { MatchOption result (alike (fields (event_reads (known editions e) events.now) x.now) (fields (event_reads (known editions e) events.now) y.now) ≡ true) (λ k. (alike (fields (event_reads (known editions e) events.now) x.now) (fields (event_reads (known editions e) events.now) y.now) ≡ false) × (agree (fields (event_reads (known editions e) events.now) x.now) (fields (event_reads (known editions e) events.now) y.now) ≡ k)) }
{
    let mut state = pairs::look(x, y, e, events);
    // kept: no `for`, since nothing is counted: each turn makes the next state, and two of the three states end the loop.
    // Of an iterator over states the last one would be asked for, and what it says unwrapped.
    loop {
        match state {
            State::Alike => return None,
            State::Differs(k) => return Some(k),
            State::At(rest) => state = pair_fields::next(x, y, rest),
        }
    }
}

// Both frames are asked before a record is copied: at a stop or an end both scratches are as they stood before that
// record, at a difference as after it.
// kept: each parameter by itself: the clauses, which may not change, name them.
pub fn compare_rings(
    left: &[u8],
    lhead: u64,
    ltail: u64,
    lscratch: &mut [u8],
    right: &[u8],
    rhead: u64,
    rtail: u64,
    rscratch: &mut [u8],
    events: &[Event],
    limit: usize,
    e: u64,
) -> Compared
    ensures value { result ≡ compared (event_reads (known editions e) events.now) (side_of (asked_events limit editions e events.now) left.now lhead ltail lscratch.old) (side_of (asked_events limit editions e events.now) right.now rhead rtail rscratch.old) }
    ensures lscratch_after { lscratch.new ≡ scratch_then result (side_of (asked_events limit editions e events.now) left.now lhead ltail lscratch.old) }
    ensures rscratch_after { rscratch.new ≡ scratch_then result (side_of (asked_events limit editions e events.now) right.now rhead rtail rscratch.old) }
{
    let ok = record::allowed(e);
    let table = events::sound(events, limit);
    let mut tl = ltail;
    let mut tr = rtail;
    let mut n: u64 = 0;
    // kept: no `for` over n: a stop, an end or a difference ends it, and never a number of pairs; n is told.
    loop {
        let from_left = ring::next_frame(ok, table, left, lhead, tl, 1, 16, lscratch.len());
        let from_right = ring::next_frame(ok, table, right, rhead, tr, 1, 16, rscratch.len());
        let (f, g) = match next_pair(from_left, from_right, n) {
            Ok(pair) => pair,
            Err(told) => return told,
        };
        ring::gather(left, f.place, f.size, lscratch);
        ring::gather(right, g.place, g.size, rscratch);
        let x = ring::record_shown(left, lscratch, f);
        let y = ring::record_shown(right, rscratch, g);
        if let Some(k) = differing(x, y, e, events) {
            return tell(1, 0, n, k);
        }
        tl = tl.wrapping_add(f.size as u64);
        tr = tr.wrapping_add(g.size as u64);
        n += 1;
    }
}
