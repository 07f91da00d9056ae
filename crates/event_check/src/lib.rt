// Record check with a table of events, for a lent slice (M-112). A table's limit is a number of 32 bits, as the number inspected is that is told.
#![tactic(auto)]

ghost use Rattle.std.specs.Prelude.{◌≡◌, ◌≤◌, ◌<◌, length};
ghost use Rattle.meaning.specs.Editions.{editions, known};
ghost use Rattle.meaning.specs.Events.{inspected, judged, unasked, record_check_events};
ghost use Rattle.meaning.specs.Reasons.{answer_of};
ghost use Rattle.event_laws.specs.Match.{match_of, matched};
ghost use Rattle.event_laws.specs.Told.{check_event_answer};

use meaning::{Event, Judged, Reason};

// 2, 11, then 7, 6, 7 as record check has them: what is asked before the record is looked at.
pub fn unasked(r: &[u8], e: u64, events: &[Event], limit: u32) -> Result<(), Reason>
    ensures { answer_of result ≡ unasked limit editions e events.now r.now }
{
    if !record::allowed(e) {
        return Err(Reason::UnknownEdition);
    }
    if !events::sound(events, limit as usize) {
        return Err(Reason::BadTable);
    }
    answers::header_of_whole(r)?;
    Ok(())
}

// What record check says under the attributes of the event that was found.
fn check_found(r: &[u8], e: u64, events: &[Event], m: Result<usize, Reason>) -> Result<(), Reason>
    requires { match_of m ≡ matched (known editions e) events.now r.now }
    ensures { answer_of result ≡ check_event_answer editions e events.now r.now }
{
    let index = m?;
    let own = events::attributes_at(events, index);
    record::or_dirty(fast_check::check(r, e, own), r, own)
}

// What record check says under the attributes of the record's event; and how many events were inspected to find it.
fn check_event(r: &[u8], e: u64, events: &[Event]) -> Judged
    requires { (8 ≤ length r.now) × (length events.now < 4294967296) }
    ensures { result ≡ judged (check_event_answer editions e events.now r.now) (inspected (known editions e) events.now r.now) }
{
    let m = event_judge::match_event(r, e, events);
    let looked = event_judge::inspected(m, events.len());
    let answer = check_found(r, e, events, m);
    Judged {
        answer: meaning::answer_number(answer) as u32,
        inspected: looked,
    }
}

// Record check with a table: 2, 11, 7, 6, 7, then the record's answer, 44 in place of 0, and the number inspected.
pub fn check_events(r: &[u8], e: u64, events: &[Event], limit: u32) -> Judged
    ensures { result ≡ record_check_events limit editions e events.now r.now }
{
    match unasked(r, e, events, limit) {
        Ok(()) => check_event(r, e, events),
        Err(why) => Judged {
            answer: why.number() as u32,
            inspected: 0,
        },
    }
}
