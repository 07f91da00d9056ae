// The reader of a record's words under a table of events, for a lent slice (M-112).
#![tactic(auto)]

ghost use Rattle.std.specs.Prelude.{◌≡◌, ◌≤◌, ◌<◌, length};
ghost use Rattle.meaning.specs.Editions.{editions, known};
ghost use Rattle.meaning.specs.Events.{inspected, judged, read_events, read_events_words};
ghost use Rattle.meaning.specs.Reasons.{answer_of};
ghost use Rattle.event_laws.specs.Match.{match_of, matched};
ghost use Rattle.event_laws.specs.Told.{read_event_answer, read_event_words};

use meaning::{Event, Judged, Reason};

// A record's bytes, read into lent words under the attributes of the event that was found.
fn read_found(
    r: &[u8],
    e: u64,
    events: &[Event],
    m: Result<usize, Reason>,
    words: &mut [u64],
) -> Result<(), Reason>
    requires { match_of m ≡ matched (known editions e) events.now r.now }
    ensures value { answer_of result ≡ read_event_answer editions e events.now r.now words.old }
    ensures words_after { words.new ≡ read_event_words editions e events.now r.now words.old }
{
    let index = m?;
    let a = events::attributes_at(events, index);
    fast_read::read_into(r, e, a, words)
}

// The same of the record's event; and how many events were inspected to find it.
pub fn read_event(r: &[u8], e: u64, events: &[Event], words: &mut [u64]) -> Judged
    requires { (8 ≤ length r.now) × (length events.now < 4294967296) }
    ensures value { result ≡ judged (read_event_answer editions e events.now r.now words.old) (inspected (known editions e) events.now r.now) }
    ensures words_after { words.new ≡ read_event_words editions e events.now r.now words.old }
{
    let m = event_judge::match_event(r, e, events);
    let inspected = event_judge::inspected(m, events.len());
    let answer = read_found(r, e, events, m, words);
    Judged {
        answer: meaning::answer_number(answer) as u32,
        inspected,
    }
}

// As record check with a table, into lent words: no 44; 40 if there are fewer than 56. Refused: the words unchanged.
pub fn read_events(r: &[u8], e: u64, events: &[Event], limit: u32, words: &mut [u64]) -> Judged
    ensures value { result ≡ read_events limit editions e events.now r.now words.old }
    ensures words_after { words.new ≡ read_events_words limit editions e events.now r.now words.old }
{
    match event_check::unasked(r, e, events, limit) {
        Ok(()) => read_event(r, e, events, words),
        Err(early) => Judged {
            answer: early.number() as u32,
            inspected: 0,
        },
    }
}
