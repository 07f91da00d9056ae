// A record under a table of events: its identifier, where its event stands, how many were inspected for that, and its answer.
#![tactic(auto)]

ghost use Rattle.std.specs.Prelude.{◌≡◌, ◌<◌, ◌≤◌, length};
ghost use Rattle.meaning.specs.Editions.{editions, known};
ghost use Rattle.meaning.specs.Records.{kind_of};
ghost use Rattle.meaning.specs.Events.{identifier_of, judge_events};
ghost use Rattle.meaning.specs.Reasons.{answer_of};
ghost use Rattle.event_laws.specs.Match.{match_of, matched, inspected_by};

use layouts::types;
use meaning::{Event, Reason};

// "The identifier is the first word after the header in a SAMPLE and the last word in any other record."
pub fn identifier_of(r: &[u8], kind: u64) -> u64
    requires { (16 ≤ length r.now) × (kind ≡ kind_of r.now) }
    ensures { result ≡ identifier_of r.now }
{
    if kind == types::SAMPLE {
        return wire::u64_at(r, 8);
    }
    wire::u64_at(r, r.len() - 8)
}

// The event's index; or 20; 21 where the edition does not know bit 16; 27; 26.
pub fn match_event(r: &[u8], e: u64, events: &[Event]) -> Result<usize, Reason>
    requires { 8 ≤ length r.now }
    ensures { match_of result ≡ matched (known editions e) events.now r.now }
{
    let k = record::edition(e);
    let kind = wire::u32_at(r, 0);
    if (kind == 0) | (k.kinds < kind) {
        return Err(Reason::UnknownType);
    }
    if k.samples <= 16 {
        return Err(Reason::SampleBits);
    }
    if r.len() < 16 {
        return Err(Reason::NoIdentifier);
    }
    let Some(index) = events::find(events, identifier_of(r, kind)) else {
        return Err(Reason::UnknownIdentifier);
    };
    Ok(index)
}

// "the number inspected .. equals the entry's index plus one, the table's length for 26, and 0 without a lookup" (M-112), in a
// table of n events.
pub fn inspected(m: Result<usize, Reason>, n: usize) -> u32
    requires { ((match_of m).answer ≡ 0 → (match_of m).index < 4294967295) × (n < 4294967296) }
    ensures { result ≡ inspected_by (match_of m) n }
{
    match m {
        Ok(place) => (place + 1) as u32,
        Err(reason) => match reason {
            Reason::UnknownIdentifier => n as u32,
            _ => 0,
        },
    }
}

// The answer of a record under a table: what the match says, then the event's own checks.
pub fn judge(r: &[u8], e: u64, events: &[Event]) -> Result<(), Reason>
    requires { 8 ≤ length r.now }
    ensures { answer_of result ≡ judge_events (known editions e) events.now r.now }
{
    let index = match_event(r, e, events)?;
    fast_check::judge(r, e, events::attributes_at(events, index))
}
