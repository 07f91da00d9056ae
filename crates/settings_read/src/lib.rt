// A store of settings, read into a lent table.
#![tactic(auto)]

ghost use Rattle.std.specs.Prelude.{◌≡◌, length};
ghost use Rattle.meaning.specs.Editions.{editions};
ghost use Rattle.settings.specs.Lent.{lent_rows};
ghost use Rattle.settings.specs.Versions.{versions};
ghost use Rattle.settings.specs.Reading.{refused, told, read_store, rows_after};

use meaning::{Event, Reason};
use settings::Settings;
use settings_rows::Events;

fn refuse(reason: Reason) -> Settings
    ensures { result ≡ told (Err reason) }
{
    Settings {
        events: 0,
        ring: 0,
        edition: 0,
        budget: 0,
        answer: reason.number() as u32,
    }
}

// The settings of a store that is accepted, its events put into the table.
fn read(bytes: &[u8], events: &mut [Event]) -> Result<Settings, Reason>
    ensures value { told result ≡ read_store versions editions bytes.now (length events.old) }
    ensures events_after { lent_rows events.new ≡ rows_after versions editions bytes.now (lent_rows events.old) }
{
    let v = settings_walk::first_answer(bytes)?;
    let w = settings_walk::count_events(bytes, v);
    let n = w.count;
    let at = w.at;
    settings_walk::last_answer(bytes, v, at)?;
    let stored = Events {
        bytes,
        version: v,
        count: n,
    };
    if !stored.rows_sound() {
        return Err(Reason::BadTable);
    }
    if events.len() < n {
        return Err(Reason::NoRoom);
    }
    stored.fill_rows(events);
    Ok(Settings {
        events: n as u64,
        ring: wire::u64_at(bytes, at + 6),
        edition: wire::u8_at(bytes, at + 14) as u32,
        budget: wire::u32_at(bytes, at + 15) as u32,
        answer: 0,
    })
}

// A store read into a lent table: 50, 51, 52 at the first faulty entry, then 11, then 40. Refused: the table unchanged.
pub fn read_store(bytes: &[u8], events: &mut [Event]) -> Settings
    ensures value { result ≡ read_store versions editions bytes.now (length events.old) }
    ensures events_after { lent_rows events.new ≡ rows_after versions editions bytes.now (lent_rows events.old) }
{
    match read(bytes, events) {
        Ok(settings) => settings,
        Err(reason) => refuse(reason),
    }
}
