// A store of settings, entry by entry: how many events stand in turn, and the refusal of the first faulty entry.
#![tactic(auto)]

ghost use Rattle.std.specs.Prelude.{◌≡◌, ◌+◌, IfOk};
ghost use Rattle.meaning.specs.Reasons.{answer_of};
ghost use Rattle.meaning.specs.Refusals.{first};
ghost use Rattle.meaning.specs.Editions.{editions};
ghost use Rattle.settings.specs.Versions.{versions, row_of, passed, place_of};
ghost use Rattle.settings.specs.Reading.{count_of, shown, first_rows, last_rows, after_rows};

use entries::EntryKind;
use meaning::Reason;
use settings::Version;

// The version that the first entry shows; or 50, 51, 52.
pub fn first_answer(bytes: &[u8]) -> Result<Version, Reason>
    ensures answer { answer_of (passed result) ≡ first (first_rows versions bytes.now) 0 }
    ensures version { IfOk result (λ v. row_of v ≡ shown versions bytes.now) }
{
    let Some(e) = entries::entry_at(bytes, 0) else {
        return Err(Reason::BrokenEntry);
    };
    if settings_entries::shows_version(e) {
        let Some(v) = settings_entries::version_of(wire::u16_at(bytes, 6)) else {
            return Err(Reason::UnknownVersion);
        };
        return Ok(v);
    }
    if settings_entries::is_any_event(e) {
        return Err(Reason::Misplaced);
    }
    if settings_entries::is_last(e) {
        return Err(Reason::Misplaced);
    }
    Err(Reason::BrokenEntry)
}

// How many event entries stand one after the other after the first entry, and where the last of them ends.
#[derive(Clone, Copy, Debug, PartialEq, Eq)]
pub struct Walked {
    pub count: usize,
    pub at: usize,
}

pub fn count_events(bytes: &[u8], v: Version) -> Walked
    ensures { (result.count ≡ count_of (row_of v) bytes.now) × (result.at ≡ place_of (row_of v) result.count) }
{
    let size = v.width + 54;
    let mut n = 0;
    let mut at = 8;
    // kept: a test ends it, and the count is what is told: a `for` over n needs an end of its own, which is never reached.
    while settings_entries::in_turn(bytes, v, at, n) {
        n += 1;
        at += size;
    }
    Walked { count: n, at }
}

// The entry after the events, at a place, and what follows it: 51 or 52 where they are not as they must be.
pub fn last_answer(bytes: &[u8], v: Version, at: usize) -> Result<(), Reason>
    ensures { answer_of result ≡ first (last_rows (row_of v) editions bytes.now at) (first (after_rows (row_of v) bytes.now (at + 19)) 0) }
{
    let Some(e) = entries::entry_at(bytes, at) else {
        return Err(Reason::BrokenEntry);
    };
    if !settings_entries::fits(v, e) {
        return Err(Reason::BrokenEntry);
    }
    if !e.is_of(EntryKind::Last) {
        return Err(Reason::Misplaced);
    }
    if !ring::length_allowed(wire::u64_at(bytes, at + 6) as usize) {
        return Err(Reason::Misplaced);
    }
    if !record::allowed(wire::u8_at(bytes, at + 14)) {
        return Err(Reason::Misplaced);
    }
    if at + 19 == bytes.len() {
        return Ok(());
    }
    let Some(f) = entries::entry_at(bytes, at + 19) else {
        return Err(Reason::BrokenEntry);
    };
    if !settings_entries::fits(v, f) {
        return Err(Reason::BrokenEntry);
    }
    Err(Reason::Misplaced)
}
